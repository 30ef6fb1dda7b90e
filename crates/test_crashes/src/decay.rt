//! Files of which a bit is turned, or that are cut: they are refused by name, or opened with the same maps.
use crate::maps::Maps;
use crate::starts::{Kind, Start, prepare};
use crate::store::{Disks, Store, image, image_of, into_disks, open_db};
use sled_disk::MemoryDisk;
use sled_files::{FilePages, OpenError};
use std::alloc::Global;
use test_report::trouble::{Result, Trouble, expect};
use test_report::{Numbered, Report, Tally};

// The bits of a byte.
const BITS: [u8; 8] = [1, 2, 4, 8, 16, 32, 64, 128];

// What files are opened as.
#[derive(Clone, Copy)]
enum Opened {
    // Not at all, since they have decayed.
    Refused,
    // The maps that they had.
    Same,
    // What they had before, or nothing: the file that counted is blank.
    Blank,
}

// A pair of files, and how many cases had which outcome.
#[derive(Drop)]
struct Pair {
    start: Start,
    // Whether the second is changed.
    is_second: bool,
    refused: u64,
    same: u64,
    blank: u64,
}

// The pairs of a store, as bytes.
fn image_in(alloc: Global, store: Store) -> Result<Vec<u8>> {
    let mut db = open_db(alloc, store)?;
    let image = image(alloc, &mut db)?;
    drop(into_disks(db));
    Ok(image)
}

// Whether a store has these maps.
fn has_maps(alloc: Global, image: &[u8], maps: &Maps) -> Result<bool> {
    let own = image_of(alloc, maps)?;
    let is_same = own.as_slice() == image;
    drop(own);
    Ok(is_same)
}

// Which maps a store has.
fn found(start: &Start, store: Store) -> Result<Opened> {
    let image = image_in(start.alloc, store)?;
    let is_same = has_maps(start.alloc, &image, &start.maps)?;
    let is_older = has_maps(start.alloc, &image, &start.older)?;
    drop(image);
    if is_same {
        return Ok(Opened::Same);
    }
    expect(is_older, "the maps are others")?;
    Ok(Opened::Blank)
}

// What a refusal of a pair is.
fn refused_as(why: OpenError) -> Result<Opened> {
    match why {
        OpenError::NoMemory => Err(Trouble::NoMemory),
        OpenError::Disk(e) => Err(Trouble::Disk(e)),
        _ => Ok(Opened::Refused),
    }
}

// What a pair is opened as.
fn open_as(start: &Start, disks: Disks) -> Result<Opened> {
    match FilePages::open(start.alloc, disks.0, disks.1) {
        Ok(store) => found(start, store),
        Err(refused) => {
            let why = refused.error;
            drop(refused);
            refused_as(why)
        }
    }
}

impl Pair {
    fn new(start: Start, is_second: bool) -> Pair {
        Pair {
            start,
            is_second,
            refused: 0,
            same: 0,
            blank: 0,
        }
    }

    // The bytes that are changed.
    fn bytes(&self) -> Result<Vec<u8>> {
        let bytes = if self.is_second {
            &self.start.second
        } else {
            &self.start.first
        };
        Ok(bytes.to_vec(self.start.alloc)?)
    }

    // The disks, with these bytes in place of those.
    fn disks(&self, bytes: Vec<u8>) -> Result<Disks> {
        let alloc = self.start.alloc;
        let changed = MemoryDisk::new(alloc, bytes)?;
        if self.is_second {
            let other = MemoryDisk::new(alloc, self.start.first.to_vec(alloc)?)?;
            return Ok((other, changed));
        }
        let other = MemoryDisk::new(alloc, self.start.second.to_vec(alloc)?)?;
        Ok((changed, other))
    }

    // Opens it with these bytes. It may have other maps if it is blank.
    fn open(&mut self, bytes: Vec<u8>) -> Result<()> {
        let is_blank = bytes.len() <= 1;
        let disks = self.disks(bytes)?;
        match open_as(&self.start, disks)? {
            Opened::Refused => self.refused = self.refused.saturating_add(1),
            Opened::Same => self.same = self.same.saturating_add(1),
            Opened::Blank => {
                self.blank = self.blank.saturating_add(1);
                expect(is_blank, "the maps are those of a blank file")?;
            }
        }
        Ok(())
    }

    // Opens it with a bit turned.
    fn open_turned(&mut self, place: usize, bit: u8) -> Result<()> {
        let mut bytes = self.bytes()?;
        if let Some(byte) = bytes.get_mut(place) {
            *byte ^= bit;
        }
        self.open(bytes)
    }

    // Opens it cut to a length.
    fn open_cut(&mut self, len: usize) -> Result<()> {
        let bytes = self.bytes()?;
        let front = match bytes.get(..len) {
            Some(front) => front.to_vec(self.start.alloc)?,
            None => return Err(Trouble::Wrong("a file is shorter")),
        };
        drop(bytes);
        self.open(front)
    }

    // How many bytes are changed.
    fn len(&self) -> usize {
        if self.is_second {
            self.start.second.len()
        } else {
            self.start.first.len()
        }
    }

    // Reports how many of all cases had which outcome.
    fn tell(&self, report: &Report) {
        report.tell(format_args!(
            "    {} refused, {} with the same maps, {} blank",
            self.refused, self.same, self.blank
        ));
    }
}

// Turns each bit of one of the files.
fn turn_all(report: &Report, mut pair: Pair, words: &str) {
    let mut tally = Tally::new(report);
    for place in 0..pair.len() {
        for bit in BITS {
            let opened = pair.open_turned(place, bit);
            tally.count(
                opened,
                Numbered {
                    words: words,
                    first: place as u64,
                    second: bit as u64,
                },
            );
        }
    }
    tally.tell(words);
    pair.tell(report);
    drop(pair);
}

// Cuts one of the files to each length.
fn cut_all(report: &Report, mut pair: Pair, words: &str) {
    let mut tally = Tally::new(report);
    for len in 0..pair.len() {
        let opened = pair.open_cut(len);
        tally.count(
            opened,
            Numbered {
                words: words,
                first: len as u64,
                second: 0,
            },
        );
    }
    tally.tell(words);
    pair.tell(report);
    drop(pair);
}

// How a file is changed.
#[derive(Clone, Copy)]
enum Change {
    Turned,
    Cut,
}

// Changes one of a pair of small files.
fn tell_pair(report: &Report, kind: Kind, is_second: bool, change: Change, words: &str) {
    match prepare(report.alloc(), kind, 30, 6) {
        Ok(start) => match change {
            Change::Turned => turn_all(report, Pair::new(start, is_second), words),
            Change::Cut => cut_all(report, Pair::new(start, is_second), words),
        },
        Err(e) => report.tell_failed(e),
    }
}

pub fn tell(report: &Report) {
    tell_pair(
        report,
        Kind::First,
        false,
        Change::Turned,
        "a bit of the only file",
    );
    tell_pair(
        report,
        Kind::Later,
        true,
        Change::Turned,
        "a bit of the later file",
    );
    tell_pair(
        report,
        Kind::Later,
        false,
        Change::Turned,
        "a bit of the older file",
    );
    tell_pair(report, Kind::First, false, Change::Cut, "the only file cut");
    tell_pair(report, Kind::Later, true, Change::Cut, "the later file cut");
    tell_pair(
        report,
        Kind::Later,
        false,
        Change::Cut,
        "the older file cut",
    );
}
