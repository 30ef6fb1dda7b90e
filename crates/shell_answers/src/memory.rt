//! A shell's database in memory: what lines make of its pages between two openings.

use crate::held::Held;
use crate::home::Home;
use crate::store::Kept;
use line_words::input::Stopped;
use line_words::print::Piece::Text;
use shell_words::arguments::Arguments;
use shell_words::image::Image;
use shell_words::images::Noted;
use shell_words::operators::Operator;
use shell_words::table::Verb;
use shell_words::tell::{Told, tell};
use sled::Db;
use sled_nodes::Error;
use sled_pages::MemPages;
use sled_store::Pages;
use std::alloc::Global;

/// A home in memory: what lines said of the pages that are opened next.
#[derive(Drop)]
pub struct Memory {
    alloc: Global,
    // What was noted since the last image.
    noted: Noted,
    mark: u64,
    // The command that changed the store last, or ended; and why the pages cannot be opened after it.
    last: Verb,
    refused: Option<Error>,
}

impl Memory {
    /// Nothing so far.
    pub fn nothing(alloc: Global) -> Memory {
        Memory {
            alloc,
            noted: Noted::nothing(alloc),
            mark: 0,
            last: Verb::Quit,
            refused: None,
        }
    }

    // Sets ids aside; if that is refused the pages are not opened.
    fn set_aside(&mut self, held: Held, upto: u64) -> Held {
        let (held, done) = held.set_aside(upto);
        match done {
            Ok(()) => self.mark = upto,
            Err(error) => {
                let old = std::mem::replace(&mut self.refused, Some(error));
                drop(old);
            }
        }
        held
    }

    // A store of what was noted, in place of the one before.
    fn image(&mut self, held: Held, image: Image, mark: u64) -> Result<Held, Stopped> {
        drop(held);
        let pages = self.noted.make(self.alloc, image, mark)?;
        self.mark = pages.mark();
        Ok(Held::Foreign(pages))
    }

    // An empty store, in place of the one before.
    fn empty(&mut self, held: Held) -> Held {
        drop(held);
        self.mark = 0;
        Held::Kept(Kept::empty(self.alloc))
    }
}

impl Home for Memory {
    type Store = MemPages;

    type Held = Held;

    type Opened = Db<MemPages, Operator>;

    fn first(&mut self, _out: &mut Told) -> Result<Held, Stopped> {
        Ok(Held::Kept(Kept::empty(self.alloc)))
    }

    fn held_of(db: Db<MemPages, Operator>) -> Held {
        Held::Kept(Kept::of(db))
    }

    fn store(held: &Held) -> &MemPages {
        held.pages()
    }

    fn kept(store: &MemPages) -> Option<&MemPages> {
        Some(store)
    }

    fn refuses(&self, verb: Verb, _arguments: &Arguments) -> Option<&'static str> {
        match verb {
            Verb::Compact => Some("is for a store in files"),
            _ => None,
        }
    }

    fn mark(&self) -> u64 {
        self.mark
    }

    fn note_page(&mut self, words: &[u8], out: &mut Told) -> Result<(), Stopped> {
        self.noted.note_page(self.alloc, words, out)
    }

    fn note_root(&mut self, words: &[u8], out: &mut Told) -> Result<(), Stopped> {
        self.noted.note_root(self.alloc, words, out)
    }

    fn change(
        &mut self,
        held: Held,
        verb: Verb,
        arguments: &Arguments,
        _out: &mut Told,
    ) -> Result<Held, Stopped> {
        self.last = verb;
        let first = arguments.number();
        match verb {
            Verb::Crash => held.crash(self.alloc, first),
            Verb::Recover => {
                let left = held.crash(self.alloc, u64::MAX)?;
                left.refuse(arguments.numbers())
            }
            Verb::New => self.empty(held).refuse(arguments.numbers()),
            Verb::Refuse => held.refuse(arguments.numbers()),
            Verb::Unreadable => held.unreadable(arguments.numbers()),
            Verb::Mark => Ok(self.set_aside(held, first)),
            Verb::Image(image) => self.image(held, image, first),
            _ => Ok(held),
        }
    }

    fn open(&mut self, held: Held, name: &[u8]) -> Result<Db<MemPages, Operator>, (Held, Error)> {
        match self.refused.take() {
            Some(error) => Err((held, error)),
            None => held.open(self.alloc, name),
        }
    }

    // Nothing is printed of the first opening.
    fn tell_opening(&self, _db: &Db<MemPages, Operator>, out: &mut Told) -> Result<bool, Stopped> {
        match self.last {
            Verb::Quit => Ok(false),
            Verb::Crash => tell(out, &[Text(b"recovered")]).map(|()| true),
            _ => tell(out, &[Text(b"opened")]).map(|()| true),
        }
    }

    fn tell_files(_store: &MemPages, _out: &mut Told) -> Result<(), Stopped> {
        Ok(())
    }

    fn lasts() -> bool {
        false
    }
}
