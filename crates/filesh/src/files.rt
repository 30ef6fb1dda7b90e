//! A shell's database in two files.

use crate::place::{Folder, Memory, Place};
use line_words::print::Piece::Text;
use shell_answers::home::Home;
use shell_words::arguments::Arguments;
use shell_words::choices::Drawing;
use shell_words::operators::Operator;
use shell_words::table::Verb;
use shell_words::tell::{Result, Told, answered, tell, tell_numbered, tell_refused};
use sled::Db;
use sled_disk::MemoryDisk;
use sled_files::{FilePages, FileStats};
use sled_host::HostFile;
use sled_nodes::Error;
use sled_pages::MemPages;
use sled_store::Pages;
use std::alloc::Global;

const IN_MEMORY: &str = "is for a store in memory";

const LINKS: &str = "with links is for a store in memory";

const REFUSALS: &str = "with refusals is for a store in memory";

const FOUND: &str = "does not empty a database that was there; name another folder for a new one";

// What is printed of an opening.
#[derive(Clone, Copy)]
enum Behind {
    // The first one prints only a database that was found.
    Nothing,
    Crash,
    Compaction,
    // Why the log is not begun anew is printed already.
    Refusal,
    Another,
}

/// A home in the files of a place.
#[derive(Drop)]
pub struct Files<W> {
    alloc: Global,
    place: W,
    // Whether a database was there at first.
    is_found: bool,
    mark: u64,
    // What the next opening follows; and why the store cannot be opened then.
    behind: Behind,
    refused: Option<Error>,
}

// Sets ids aside; a mark that is higher stays.
fn set_aside<P: Pages>(store: &mut P, upto: u64) -> sled_nodes::Result<()> {
    if upto < store.mark() {
        Ok(())
    } else {
        store.set_aside(upto)
    }
}

// Makes all durable, if no group is open.
fn flush<P: Pages>(store: &mut P) -> sled_nodes::Result<()> {
    if store.in_group() {
        Ok(())
    } else {
        store.flush().map(|_| ())
    }
}

impl<W> Files<W> {
    /// The files of a place, in which nothing was looked at so far.
    pub fn new(alloc: Global, place: W) -> Files<W> {
        Files {
            alloc,
            place,
            is_found: false,
            mark: 0,
            behind: Behind::Nothing,
            refused: None,
        }
    }

    // The store at first.
    fn open_first<P: Pages>(&mut self, out: &mut Told) -> Result<P>
    where
        W: Place<P>,
    {
        let store = self.place.first(out)?;
        self.is_found = store.was_recovered();
        Ok(store)
    }

    // A store with nothing in it, in place of the one before.
    fn emptied<P>(&mut self, store: P, out: &mut Told) -> Result<P>
    where
        W: Place<P>,
    {
        self.mark = 0;
        self.place.empty(store, out)
    }

    // Notes the outcome of a call, and returns whether it was done; if it was refused, the store is not opened.
    fn note(&mut self, done: sled_nodes::Result<()>) -> bool {
        match done {
            Ok(()) => true,
            Err(error) => {
                let old = std::mem::replace(&mut self.refused, Some(error));
                drop(old);
                false
            }
        }
    }

    // A store in which ids are set aside.
    fn marked<P: Pages>(&mut self, store: P, upto: u64) -> P {
        let mut store = store;
        let done = set_aside(&mut store, upto);
        if self.note(done) {
            self.mark = upto;
        }
        store
    }

    // What a crash leaves that keeps all actions; but for those of a group that is open, and of what was done beside it.
    fn recovered<P: Pages>(&mut self, store: P, out: &mut Told) -> Result<P>
    where
        W: Place<P>,
    {
        let mut store = store;
        let done = flush(&mut store);
        if self.note(done) {
            self.place.crash(store, out)
        } else {
            Ok(store)
        }
    }

    // Makes all durable in a log that is begun anew. If that is refused, adds why, and the store stays as it is.
    fn compacted<P: Pages>(&mut self, store: P, out: &mut Told) -> Result<P>
    where
        W: Place<P>,
    {
        let mut store = store;
        let Err(error) = W::compact(&mut store) else {
            return Ok(store);
        };
        self.behind = Behind::Refusal;
        match tell_refused(out, error) {
            Ok(()) => Ok(store),
            Err(stopped) => {
                drop(store);
                Err(stopped)
            }
        }
    }

    // What a line makes of the store.
    fn changed<P: Pages>(
        &mut self,
        store: P,
        verb: Verb,
        arguments: &Arguments,
        out: &mut Told,
    ) -> Result<P>
    where
        W: Place<P>,
    {
        self.behind = behind_of(verb);
        match verb {
            Verb::Crash => self.place.crash(store, out),
            Verb::Recover => self.recovered(store, out),
            Verb::New => self.emptied(store, out),
            Verb::Mark => Ok(self.marked(store, arguments.number())),
            Verb::Compact => self.compacted(store, out),
            _ => Ok(store),
        }
    }

    // Opens a store, unless a call of it was refused.
    fn opened<P: Pages>(
        &mut self,
        store: P,
        name: &[u8],
    ) -> std::result::Result<Db<P, Operator>, (P, Error)> {
        if let Some(error) = self.refused.take() {
            return Err((store, error));
        }
        match Db::open_checked(self.alloc, store, name) {
            Ok(db) => Ok(db.with_operators()),
            Err(refused) => Err(refused),
        }
    }

    // Adds what there is to say of an opening.
    fn told<P: Pages>(&self, db: &Db<P, Operator>, out: &mut Told) -> Result<bool> {
        let opening: &[u8] = match self.behind {
            Behind::Nothing => return tell_found(db, out),
            Behind::Refusal => return Ok(false),
            Behind::Crash => b"recovered",
            Behind::Compaction => b"compacted",
            Behind::Another => b"opened",
        };
        tell(out, &[Text(opening)]).map(|()| true)
    }
}

// What an opening follows that a line asks for.
fn behind_of(verb: Verb) -> Behind {
    match verb {
        Verb::Crash => Behind::Crash,
        Verb::Compact => Behind::Compaction,
        _ => Behind::Another,
    }
}

// Why a line is not for files, if it is not.
fn refuses(verb: Verb, arguments: &Arguments, is_found: bool) -> Option<&'static str> {
    match verb {
        Verb::Unreadable | Verb::Image(_) | Verb::Page | Verb::Root | Verb::Parts => Some(
            IN_MEMORY,
        ),
        Verb::Draw(Drawing::Links) => Some(LINKS),
        Verb::Refuse => Some(REFUSALS),
        Verb::New | Verb::Recover if !arguments.numbers().is_empty() => Some(REFUSALS),
        Verb::New if is_found => Some(FOUND),
        _ => None,
    }
}

// Adds how large the files are.
fn tell_stats(stats: FileStats, out: &mut Told) -> Result<()> {
    tell_numbered(out, b"log bytes ", stats.bytes as u64, b" snapshot ")?;
    tell_numbered(out, b"", stats.snapshot as u64, b" generation ")?;
    tell_numbered(out, b"", stats.generation, b"\n")
}

// Adds that a database was found, with the number of its pages.
fn tell_found<P: Pages>(db: &Db<P, Operator>, out: &mut Told) -> Result<bool> {
    if !db.was_recovered() {
        return Ok(false);
    }
    let stats = answered(db.stats())?;
    tell_numbered(out, b"recovered, pages ", stats.pages, b"")?;
    Ok(true)
}

// The homes in a folder and in memory are two blocks of the same lines: one block that is generic over its store, which is `Send`, cannot
// be proved yet.

type InFiles = FilePages<HostFile>;

impl Home for Files<Folder<'_>> {
    type Store = InFiles;

    type Held = InFiles;

    type Opened = Db<InFiles, Operator>;

    fn first(&mut self, out: &mut Told) -> Result<InFiles> {
        self.open_first(out)
    }

    fn held_of(db: Db<InFiles, Operator>) -> InFiles {
        db.into_pages()
    }

    fn store(held: &InFiles) -> &InFiles {
        held
    }

    fn kept(_store: &InFiles) -> Option<&MemPages> {
        None
    }

    fn refuses(&self, verb: Verb, arguments: &Arguments) -> Option<&'static str> {
        refuses(verb, arguments, self.is_found)
    }

    fn mark(&self) -> u64 {
        self.mark
    }

    fn note_page(&mut self, _words: &[u8], _out: &mut Told) -> Result<()> {
        Ok(())
    }

    fn note_root(&mut self, _words: &[u8], _out: &mut Told) -> Result<()> {
        Ok(())
    }

    fn change(
        &mut self,
        held: InFiles,
        verb: Verb,
        arguments: &Arguments,
        out: &mut Told,
    ) -> Result<InFiles> {
        self.changed(held, verb, arguments, out)
    }

    fn open(
        &mut self,
        held: InFiles,
        name: &[u8],
    ) -> std::result::Result<Db<InFiles, Operator>, (InFiles, Error)> {
        self.opened(held, name)
    }

    fn tell_opening(&self, db: &Db<InFiles, Operator>, out: &mut Told) -> Result<bool> {
        self.told(db, out)
    }

    fn tell_files(store: &InFiles, out: &mut Told) -> Result<()> {
        tell_stats(store.stats(), out)
    }

    fn lasts() -> bool {
        true
    }
}

type InMemory = FilePages<MemoryDisk>;

impl Home for Files<Memory> {
    type Store = InMemory;

    type Held = InMemory;

    type Opened = Db<InMemory, Operator>;

    fn first(&mut self, out: &mut Told) -> Result<InMemory> {
        self.open_first(out)
    }

    fn held_of(db: Db<InMemory, Operator>) -> InMemory {
        db.into_pages()
    }

    fn store(held: &InMemory) -> &InMemory {
        held
    }

    fn kept(_store: &InMemory) -> Option<&MemPages> {
        None
    }

    fn refuses(&self, verb: Verb, arguments: &Arguments) -> Option<&'static str> {
        refuses(verb, arguments, self.is_found)
    }

    fn mark(&self) -> u64 {
        self.mark
    }

    fn note_page(&mut self, _words: &[u8], _out: &mut Told) -> Result<()> {
        Ok(())
    }

    fn note_root(&mut self, _words: &[u8], _out: &mut Told) -> Result<()> {
        Ok(())
    }

    fn change(
        &mut self,
        held: InMemory,
        verb: Verb,
        arguments: &Arguments,
        out: &mut Told,
    ) -> Result<InMemory> {
        self.changed(held, verb, arguments, out)
    }

    fn open(
        &mut self,
        held: InMemory,
        name: &[u8],
    ) -> std::result::Result<Db<InMemory, Operator>, (InMemory, Error)> {
        self.opened(held, name)
    }

    fn tell_opening(&self, db: &Db<InMemory, Operator>, out: &mut Told) -> Result<bool> {
        self.told(db, out)
    }

    fn tell_files(store: &InMemory, out: &mut Told) -> Result<()> {
        tell_stats(store.stats(), out)
    }

    fn lasts() -> bool {
        true
    }
}
