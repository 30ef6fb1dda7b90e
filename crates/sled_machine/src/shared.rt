//! One database for several threads, with the history of what their calls made.

pub use machine_shared::{
    Answer, Blank, CallError, CallResult, Caller, Collections, Db, Entry, Gate, Handle, Made,
    Names, NoGate, Pairs, Question, RangePages, Read, ScanNote, Scanned, State, reply_of,
};
