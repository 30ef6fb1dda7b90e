//! A script that is run, and its expected outcome.
use crate::flights::fly;
use crate::maps::{KEYS, Maps, SIDE, Value, key_of, value_at, value_of};
use crate::script::{Kind, Step, step_of};
use crate::store::{Files, image, image_of, into_disks};
use crate::transactions::{move_across, move_value};
use example_parts::add_to;
use sled::{Batch, Collection, Error, Fault, IVec, Tree};
use std::alloc::Global;
use std::ops::Bound;
use test_report::trouble::{Result, Trouble, expect};

// How many parts an import has: that it opens the tree, and each pair.
const PARTS: u8 = 4;

/// What is known of a run.
#[derive(Drop)]
pub struct Run {
    pub alloc: Global,
    /// The maps now.
    pub maps: Maps,
    /// The maps before the first call and after each that changed some.
    pub history: Vec<Maps>,
    /// The place in it of those after the last flush that was acknowledged.
    pub flushed: usize,
    /// The greatest id that was given.
    pub greatest: u64,
    /// Whether a call of a disk was refused.
    pub is_over: bool,
    /// Whether there are numbers that no limit in the files has to be raised for.
    pub has_room: bool,
    /// Whether a group was refused midway, so that all calls are refused.
    pub is_closed: bool,
    /// Whether a flush begins the other file anew whenever the log is twice as long as its snapshot.
    pub has_snapshots: bool,
    /// Of which generation the file is that counts.
    pub generation: u64,
}

impl Run {
    /// Of a database that has these maps, all of them flushed.
    pub fn new(alloc: Global, maps: &Maps, greatest: u64) -> Result<Run> {
        let mut run = Run {
            alloc,
            maps: *maps,
            history: Vec::new(alloc),
            flushed: 0,
            greatest,
            is_over: false,
            has_room: false,
            is_closed: false,
            has_snapshots: false,
            generation: 0,
        };
        run.note()?;
        Ok(run)
    }

    // Notes the maps as they are.
    fn note(&mut self) -> Result<()> {
        self.history.push(self.maps)?;
        Ok(())
    }

    /// Notes that these maps follow the others, and whether they are there for sure.
    pub fn go_to(&mut self, maps: &Maps, is_there: bool) -> Result<()> {
        self.maps = *maps;
        self.note()?;
        if is_there {
            self.note_flush();
        }
        Ok(())
    }

    // Notes the maps as they are, if they were others before. A change gives a page or a version a number.
    fn note_if_changed(&mut self, before: &Maps) -> Result<()> {
        if self.maps == *before {
            return Ok(());
        }
        self.has_room = true;
        self.note()
    }

    // Notes the maps after so many parts of a clear.
    fn note_cleared(&mut self, count: u64) -> Result<()> {
        for _ in 0..count {
            let before = self.maps;
            self.maps.lose_first();
            self.note_if_changed(&before)?;
        }
        Ok(())
    }

    // Notes the maps after so many parts of an import.
    fn note_imported(&mut self, step: &Step, count: u64) -> Result<()> {
        for part in 0..PARTS {
            if count <= part as u64 {
                return Ok(());
            }
            let before = self.maps;
            self.maps.import(step, part);
            self.note_if_changed(&before)?;
        }
        Ok(())
    }

    // Notes that a flush was acknowledged.
    fn note_flush(&mut self) {
        self.flushed = self.history.len().saturating_sub(1);
    }

    /// The maps since the last flush that are these, as bytes, if some are.
    pub fn find(&self, image: &[u8]) -> Result<Option<Maps>> {
        for maps in self.history.iter().skip(self.flushed) {
            if is_image(self.alloc, maps, image)? {
                return Ok(Some(*maps));
            }
        }
        Ok(None)
    }
}

// Whether maps are these, as bytes.
fn is_image(alloc: Global, maps: &Maps, image: &[u8]) -> Result<bool> {
    let own = image_of(alloc, maps)?;
    let is_same = own.as_slice() == image;
    drop(own);
    Ok(is_same)
}

/// Whether an error is that of a disk that refused a call, or did so before.
pub fn is_fault(e: &Error) -> bool {
    *e == Error::Io(Fault(4)) || *e == Error::Io(Fault(5))
}

// Whether a call may be refused with this error: as it is if a disk refuses a call, and from then on.
fn may_refuse(run: &Run, e: &Error) -> bool {
    is_fault(e) || run.is_closed && *e == Error::Closed
}

// Notes a call that was refused.
fn note_refusal(run: &mut Run, e: Error) -> Result<()> {
    if may_refuse(run, &e) {
        drop(e);
        run.is_over = true;
        Ok(())
    } else {
        Err(Trouble::Refused(e))
    }
}

// Notes a call that changes maps and was refused, and so changed none: it may be while it has to raise a limit.
fn note_refused_change(run: &mut Run, kind: Kind, had_side: bool, e: Error) -> Result<()> {
    expect(
        !run.has_room || run.is_closed,
        "a call was refused that needs no disk",
    )?;
    note_refusal(run, e)?;
    let is_group = kind.is_group() && (had_side || !kind.needs_side());
    run.is_closed = run.is_closed || is_group;
    Ok(())
}

/// A flush: acknowledged while no disk refused a call, and refused from then on.
pub fn flush(db: &mut Files, run: &mut Run) -> Result<()> {
    match db.flush() {
        Ok(_) => {
            run.note_flush();
            expect(!run.is_over, "a flush was acknowledged after a refused one")
        }
        Err(e) => note_refusal(run, e),
    }
}

// An id, which is above all others.
fn take_id(db: &mut Files, run: &mut Run) -> Result<()> {
    match db.generate_id() {
        Ok(id) => {
            let rises = run.greatest < id;
            run.greatest = id;
            expect(rises, "an id is not above those before")
        }
        Err(e) => note_refusal(run, e),
    }
}

// Puts a value to a key of a tree, or takes it out.
fn put(alloc: Global, db: &mut Files, tree: &Tree, key: u8, value: Option<Value>) -> Result<()> {
    let old = match value {
        Some(value) => {
            let value = value_of(alloc, value)?;
            db.insert(tree, &key_of(key), &value)?
        }
        None => db.remove(tree, &key_of(key))?,
    };
    drop(old);
    Ok(())
}

// A call on the default tree.
fn put_main(alloc: Global, db: &mut Files, key: u8, value: Option<Value>) -> Result<()> {
    let tree = db.default_tree()?;
    put(alloc, db, &tree, key, value)?;
    drop(tree);
    Ok(())
}

// A call on the second tree, or its opening if it is not there.
fn put_side(
    alloc: Global,
    db: &mut Files,
    is_there: bool,
    key: u8,
    value: Option<Value>,
) -> Result<()> {
    let tree = db.open_tree(SIDE)?;
    if is_there {
        put(alloc, db, &tree, key, value)?;
    }
    drop(tree);
    Ok(())
}

// The batch of a step.
fn batch_of(alloc: Global, step: &Step) -> Result<Batch> {
    let mut batch = Batch::default(alloc);
    for place in 0..4 {
        let key = key_of(step.key(place));
        match step.write(place) {
            Some(value) => batch.insert(alloc, &key, &value_of(alloc, value)?)?,
            None => batch.remove(alloc, &key)?,
        }
    }
    Ok(batch)
}

// Makes the writes of a batch.
fn put_batch(alloc: Global, db: &mut Files, step: &Step) -> Result<()> {
    let batch = batch_of(alloc, step)?;
    let tree = db.default_tree()?;
    db.apply_batch(&tree, batch)?;
    drop(tree);
    Ok(())
}

// Makes the writes of a group of both trees, or opens the second if it is not there.
fn put_group(alloc: Global, db: &mut Files, is_there: bool, step: &Step) -> Result<()> {
    let side = db.open_tree(SIDE)?;
    if !is_there {
        drop(side);
        return Ok(());
    }
    let first = (db.default_tree()?, batch_of(alloc, step)?);
    let second = (side, batch_of(alloc, step)?);
    let group = [first, second];
    let made = db.apply_group(&group);
    drop(group);
    Ok(made?)
}

// Adds a number to the value of a key.
fn merge(db: &mut Files, step: &Step) -> Result<()> {
    let tree = db.default_tree()?;
    let sum = db.merge(&tree, &key_of(step.key), &step.number().to_be_bytes())?;
    drop(tree);
    drop(sum);
    Ok(())
}

// Adds a number to the value of a key, by a closure.
fn update(alloc: Global, db: &mut Files, step: &Step) -> Result<()> {
    let number = step.number();
    let tree = db.default_tree()?;
    let sum = db.update_and_fetch(
        &tree,
        &key_of(step.key),
        move |stood| Ok(Some(add_to(alloc, stood, number)?)),
    )?;
    drop(tree);
    drop(sum);
    Ok(())
}

// The bytes of a value, if there is one.
fn bytes_of(alloc: Global, value: Option<Value>) -> Result<Option<Vec<u8>>> {
    match value {
        Some(value) => Ok(Some(value_of(alloc, value)?)),
        None => Ok(None),
    }
}

// Makes a swap, which is made if it expects what is there.
fn swap(db: &mut Files, run: &Run, step: &Step) -> Result<()> {
    let there = value_at(&run.maps.main, step.key);
    let old = bytes_of(run.alloc, step.expects(there))?;
    let new = bytes_of(run.alloc, step.sets())?;
    let tree = db.default_tree()?;
    let swapped = db.compare_and_swap(
        &tree,
        &key_of(step.key),
        old.as_ref().map(|old| old.as_slice()),
        new.as_ref().map(|new| new.as_slice()),
    )?;
    drop(tree);
    drop(old);
    drop(new);
    let is_made = swapped.is_ok();
    drop(swapped);
    expect(
        is_made == step.is_expected(),
        "a swap was made that should not be, or was not",
    )
}

// Takes out the keys of a range.
fn remove_range(db: &mut Files, step: &Step) -> Result<()> {
    let tree = db.default_tree()?;
    let from = key_of(step.key);
    let end = key_of(step.end());
    let removed = db.remove_range(&tree, Bound::Included(&from), Bound::Excluded(&end));
    drop(tree);
    removed?;
    Ok(())
}

// Takes out the pair at an end.
fn pop(db: &mut Files, is_least: bool) -> Result<()> {
    let tree = db.default_tree()?;
    let found = if is_least {
        db.pop_min(&tree)?
    } else {
        db.pop_max(&tree)?
    };
    drop(tree);
    drop(found);
    Ok(())
}

// Clears the second tree, or opens it if it is not there.
fn clear_side(db: &mut Files, run: &mut Run, is_there: bool) -> Result<()> {
    let tree = db.open_tree(SIDE)?;
    if !is_there {
        drop(tree);
        return Ok(());
    }
    let (done, count) = db.clear_counted(&tree);
    drop(tree);
    run.note_cleared(count)?;
    done?;
    expect(
        run.maps.side == Some([None; KEYS]),
        "a tree was cleared in part",
    )
}

// The pairs of an import.
fn pairs_of(alloc: Global, step: &Step) -> Result<Vec<(IVec, IVec)>> {
    let mut pairs = Vec::new(alloc);
    for place in 0..PARTS.wrapping_sub(1) {
        let value = value_of(alloc, step.value(place))?;
        let key = IVec::from_slice(alloc, &key_of(step.key(place)))?;
        pairs.push((key, IVec::from_slice(alloc, &value)?))?;
        drop(value);
    }
    Ok(pairs)
}

// What an import imports.
fn collection_of(alloc: Global, step: &Step) -> Result<Collection> {
    let pairs = pairs_of(alloc, step)?;
    let name = Vec::from_slice(alloc, SIDE)?;
    Ok((Vec::from_slice(alloc, b"tree")?, name, pairs))
}

// The place of the pair that is next after so many parts of an import.
fn place_after(parts: u64) -> u8 {
    match parts {
        0 | 1 => 0,
        2 => 1,
        _ => 2,
    }
}

// Imports pairs into the second tree, up to the first whose key is there.
fn import(db: &mut Files, run: &mut Run, step: &Step) -> Result<()> {
    let collections = [collection_of(run.alloc, step)?];
    let (done, count) = db.import_counted(&collections);
    drop(collections);
    run.note_imported(step, count)?;
    match done {
        Ok(()) => expect(count == PARTS as u64, "an import was made in part"),
        Err(Error::Unsupported(_)) => {
            expect(
                run.maps.has_side(step.key(place_after(count))),
                "an import was refused at a key that is not there",
            )
        }
        Err(e) => Err(Trouble::Refused(e)),
    }
}

// Drops the second tree, if it is there.
fn drop_side(db: &mut Files, is_there: bool) -> Result<()> {
    let was_there = db.drop_tree(SIDE)?;
    expect(
        was_there == is_there,
        "a tree was not there that should be, or was",
    )
}

// Makes the call of a step, but for one in flight.
fn make(db: &mut Files, run: &mut Run, step: &Step) -> Result<()> {
    let alloc = run.alloc;
    let has_side = run.maps.side.is_some();
    let is_there = value_at(&run.maps.main, step.key).is_some();
    match step.kind {
        Kind::Insert => put_main(alloc, db, step.key, Some(step.value(0))),
        Kind::Remove => put_main(alloc, db, step.key, None),
        Kind::Merge => merge(db, step),
        Kind::Swap => swap(db, run, step),
        Kind::Update => update(alloc, db, step),
        Kind::Batch => put_batch(alloc, db, step),
        Kind::RemoveRange => remove_range(db, step),
        Kind::PopMin => pop(db, true),
        Kind::PopMax => pop(db, false),
        Kind::Move => move_value(db, is_there, step),
        Kind::InsertSide => put_side(alloc, db, has_side, step.key, Some(step.value(0))),
        Kind::RemoveSide => put_side(alloc, db, has_side, step.key, None),
        Kind::ClearSide => clear_side(db, run, has_side),
        Kind::Group => put_group(alloc, db, has_side, step),
        Kind::MoveAcross => move_across(db, has_side, is_there, step),
        Kind::Import => import(db, run, step),
        Kind::DropSide => drop_side(db, has_side),
        Kind::Id => take_id(db, run),
        Kind::Flush => flush(db, run),
        Kind::Flight => Ok(()),
    }
}

// Notes what a step made of the maps.
fn note_change(run: &mut Run, step: &Step) -> Result<()> {
    let before = run.maps;
    run.maps.take(step);
    if run.maps == before {
        return Ok(());
    }
    run.has_room = run.has_room || step.gives_number();
    run.note()
}

// Makes the call of a step, but for one in flight, and notes the maps after it.
fn call(db: &mut Files, run: &mut Run, step: &Step) -> Result<()> {
    let had_side = run.maps.side.is_some();
    match make(db, run, step) {
        Ok(()) => note_change(run, step),
        Err(Trouble::Refused(e)) => note_refused_change(run, step.kind, had_side, e),
        Err(e) => Err(e),
    }
}

// Notes the maps after a call in flight, which changed none if it was left before it was decided.
fn note_flight(run: &mut Run, step: &Step, decided: Result<bool>) -> Result<()> {
    match decided {
        Ok(true) => note_change(run, step),
        Ok(false) => expect(step.is_left(), "a call in flight did not end"),
        Err(Trouble::Refused(e)) => note_refused_change(run, step.kind, false, e),
        Err(e) => Err(e),
    }
}

// The database, if what was done with it is as expected.
fn kept(db: Files, done: Result<()>) -> Result<Files> {
    match done {
        Ok(()) => Ok(db),
        Err(e) => {
            drop(into_disks(db));
            Err(e)
        }
    }
}

// Makes the call of a step, in flight or not, and notes the maps after it.
fn take(mut db: Files, run: &mut Run, step: &Step) -> Result<Files> {
    if step.kind == Kind::Flight {
        let (db, decided) = fly(run.alloc, db, step);
        let noted = note_flight(run, step, decided);
        return kept(db, noted);
    }
    let noted = call(&mut db, run, step);
    kept(db, noted)
}

/// Whether the database has the maps of the run, if it can be read.
pub fn look(db: &mut Files, run: &Run) -> Result<()> {
    if run.is_closed {
        return Ok(());
    }
    let seen = image(run.alloc, db)?;
    let is_same = is_image(run.alloc, &run.maps, &seen)?;
    drop(seen);
    expect(is_same, "the maps are not those after the calls")
}

/// Runs so many steps of a script, and compares the maps then. The database comes back.
pub fn run_script(mut db: Files, run: &mut Run, script: u64, steps: u64) -> Result<Files> {
    for place in 0..steps {
        db = take(db, run, &step_of(script, place))?;
    }
    run.generation = db.pages().stats().generation;
    let looked = look(&mut db, run);
    kept(db, looked)
}

/// A last flush, which is not refused.
pub fn flush_all(db: &mut Files, run: &mut Run) -> Result<()> {
    flush(db, run)?;
    expect(!run.is_over, "a flush was refused")
}
