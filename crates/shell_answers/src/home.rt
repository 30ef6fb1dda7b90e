//! What the database of a shell lives in: pages in memory, or files.

use shell_words::arguments::Arguments;
use shell_words::table::Verb;
use shell_words::tell::{Result, Told};
use sled_nodes::Error;
use sled_pages::MemPages;

/// What the database of a shell lives in: how its store is made and opened, what lines make of it between two openings, and what is printed
/// of it.
pub trait Home: Drop {
    /// The database's store. A function that takes a home says that it is one of pages: no block could be proved whose store is generic.
    type Store: Drop;

    /// The store between two openings.
    type Held: Drop;

    /// The database over it. A function that takes a home names its type, since a block cannot be proved whose methods name it.
    type Opened: Drop;

    /// The store as it is at first. If there is none, adds why not.
    fn first(&mut self, out: &mut Told) -> Result<Self::Held>;

    /// The store of a database that ends.
    fn held_of(db: Self::Opened) -> Self::Held;

    /// The store between two openings, to be looked at.
    fn store(held: &Self::Held) -> &Self::Store;

    /// The pages of a store, if they are in memory and so say as what each of them is kept.
    fn kept(store: &Self::Store) -> Option<&MemPages>;

    /// Why a line is not for this store, if it is not.
    fn refuses(&self, verb: Verb, arguments: &Arguments) -> Option<&'static str>;

    /// Below which mark no line sets ids aside.
    fn mark(&self) -> u64;

    /// Notes a page of an image, which the words after a line's first spell.
    fn note_page(&mut self, words: &[u8], out: &mut Told) -> Result<()>;

    /// Notes a root of an image, which the words after a line's first spell.
    fn note_root(&mut self, words: &[u8], out: &mut Told) -> Result<()>;

    /// What is made of the store by a line that changes it, which is opened then.
    fn change(
        &mut self,
        held: Self::Held,
        verb: Verb,
        arguments: &Arguments,
        out: &mut Told,
    ) -> Result<Self::Held>;

    /// Opens the store under a name. If that is refused it returns the store.
    fn open(
        &mut self,
        held: Self::Held,
        name: &[u8],
    ) -> std::result::Result<Self::Opened, (Self::Held, Error)>;

    /// Adds what there is to say of the opening after the last change, without the end of its line: whether there is something.
    fn tell_opening(&self, db: &Self::Opened, out: &mut Told) -> Result<bool>;

    /// Adds how large the files are, if there are some.
    fn tell_files(store: &Self::Store, out: &mut Told) -> Result<()>;

    /// Whether what was done lasts after the end of the lines.
    fn lasts() -> bool;
}
