//! What is printed of pages that were checked.

use crate::tell::{Result, Told, tell_numbered, tell_refused};
use line_words::input::Stopped;
use sled_nodes::Error;
use std::io::Write;

/// Adds why pages were not opened after a check, or did not pass one. What was found in pages that are not well formed has a number.
pub fn tell_verdict(out: &mut Told, error: Error) -> Result<()> {
    let Error::Corruption(fault) = &error else {
        return tell_refused(out, error);
    };
    let number = u64::from(fault.0);
    out.why.clear();
    let is_told = write!(&mut out.why, "{error}").is_ok();
    drop(error);
    if !is_told {
        return Err(Stopped);
    }
    tell_numbered(out, b"corrupt ", number, b"\n")
}
