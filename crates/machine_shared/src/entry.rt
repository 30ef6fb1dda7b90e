//! What callers made.
use crate::read::Read;
use sled_batch::Batch;
use sled_model::{Call, Reply, Tree, Whole};
use sled_nodes::IVec;

/// What a caller made: a call that was decided, with its reply, parts of one that was refused after them, a read, with what it returned, or
/// a transaction. Two are equal if they are the same call with the same reply, or as many parts of it.
#[derive(Drop, PartialEq, Eq)]
pub enum Made {
    /// A call on a key of a tree.
    Point(Tree, Call, Reply),
    /// A whole call. Of `Next` the reply is noted as `Done`, since a subscriber gets each event once.
    Whole(Whole, Reply),
    /// So many parts, at least one, of a `Clear` or an `Import` that was refused after them: keys that it took out, or trees that it opened
    /// and pairs that it put in. `u64::MAX` means as many or more.
    Parts(Whole, u64),
    /// A read under one lock, which changed nothing.
    Read(Read),
    /// The writes of a transaction, made as a group, and what was before at the key of each of them, in their order.
    Transaction(Vec<(Tree, Batch)>, Vec<Option<IVec>>),
}

/// What was made, and by which caller.
#[derive(Drop, PartialEq, Eq)]
pub struct Entry {
    /// The number of the caller whose step decided the call.
    pub by: u64,
    /// What was made.
    pub made: Made,
}
