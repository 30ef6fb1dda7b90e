//! Where sessions have their lines from.

use line_words::input::Stopped;
use std::io::Write;

/// Where a session has its lines from, and what becomes of what they print.
pub trait Source<W: Write> {
    /// Does with what was printed what is to be done with it, and takes it away; then puts the next line in place of the last one:
    /// whether there is one.
    fn next(
        &mut self,
        printed: &mut Vec<u8>,
        output: &mut W,
        line: &mut Vec<u8>,
    ) -> Result<bool, Stopped>;
}
