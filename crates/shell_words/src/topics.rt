//! What help says of more than one line.

// If a text has several lines each of them ends in a line feed.
const BYTES: &str =
    "There is one space between two words. `!` to `~` but for `%` stand for themselves, any other byte as % and two lower-case hexadecimal digits.\nSo %20 is a space inside a word, % alone is the empty string, and - is no value; the string - is %2d. For example:\n    insert Bad%20Ems hello%20world\n    get Bad%20Ems\n";

const BOUNDS: &str =
    "A bound is .. for none, [K for K itself on, or up to it, and (K for the same without K. For example, the pairs from a on and before c, and all from b on:\n    range [a (c\n    range [b ..\n";

const CRASH: &str =
    "An action is a change of the store. A write is one, and a write that splits or merges pages on its way some more; a new tree is two.\nA batch, a group and a transaction have two beside their writes, their begin and their end; a crash that does not keep the end keeps nothing of them.\n`flush` prints how many there were. For example, of these five the crash keeps four, and so the insert alone:\n    new\n    insert a 1\n    batch b 2 c 3\n    crash 4\n    dump\n";

/// What is said of a word, if there is something.
pub fn topic(word: &[u8]) -> Option<&'static str> {
    if word == b"bytes".as_slice() {
        Some(BYTES)
    } else if word == b"bounds".as_slice() {
        Some(BOUNDS)
    } else if word == b"crash".as_slice() {
        Some(CRASH)
    } else {
        None
    }
}
