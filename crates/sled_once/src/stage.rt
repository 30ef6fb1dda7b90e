//! How far a block has come that is brought to the disk in one sync.

/// What is known of where the log of a file ends.
#[derive(Clone, Copy)]
pub enum End {
    /// Nothing.
    Unknown,
    /// Its closed gate is at this place.
    Closed(usize),
    /// The same, and behind the gate a block of so many bytes was written.
    Staged(usize, usize),
}

/// How far the block under way has come.
#[derive(Drop)]
pub enum Stage {
    /// There is none. What is known of the file's log, and whether all is on the disk.
    Through(End, bool),
    /// It is held back, to be written behind the closed gate at this place.
    Held(usize, Vec<u8>),
    /// It was written, and its gate is open, and no sync followed.
    Opened(usize, Vec<u8>),
    /// It was to be written or synced, and that was refused. No more calls are made.
    Torn(usize, Vec<u8>),
    /// Another call was refused. No more calls are made.
    Stopped,
}
