//! A file of the operating system as a store sees it (`HostFile`), and the two files of a store in its folder (`open_pair`).
//!
//! A `HostFile` keeps a record of its calls and of what the system answered. The record takes no memory: clauses alone read it. What a
//! read returns and what a crash may leave are read off that record (specs/Outcomes.antt), so `HostFile` meets all clauses of `Disk`,
//! whatever the system answers. A read is answered from memory, with what the opening read; so no answer of a read is taken on trust
//! after it, and a file is read until its first change. What has to be believed for the clauses to speak of a real disk:
//!
//! 1. Each method of `SystemFile` (src/system.rt) makes the call that it notes. A body that notes a sync and makes none would be proved
//!    too, so these few lines have to be read.
//! 2. The opening says whether it made the file, and reads what the disk has: a sync of the file goes before the read. If a sync failed in
//!    an earlier process, the system may still show bytes in its memory that the disk does not have; std has no call that drops them.
//! 3. The disk is honest (`IsHonest` in specs/Host.antt): what the next opening reads is what the calls of this one may have left. So a
//!    sync that was answered keeps all, and the disk does not decay. A write changes no byte outside of its range, a write of one byte
//!    within the file leaves the old byte or the new one, and a cut leaves a beginning. A call under way when the machine stops counts
//!    as one that failed.
//! 4. No one else changes the files: the lock keeps out programs that ask for it, and no others.
//!
//! Of the opening little is proved. A file has what was read. None is made if that is not wanted. It is locked, unless the system answered
//! that it cannot lock it, and that is refused only if a lock is needed. That the files are locked and regular, and that the folder is
//! synced, is tested or read from the code alone.
#![tactic(auto)]

mod host;
mod laws;
mod pair;
mod record;
mod system;

pub use host::HostFile;
pub use laws::law_honest;
pub use pair::{HostError, Opening, Pair, open_pair};
pub use record::{Call, Record};
