//! What a session reads its lines from.

use line_sessions::session::write;
use line_words::input::{Stopped, read_line};
use line_words::print::push_text;
use shell_words::source::Source;
use shell_words::tell::answered;
use std::fs;
use std::io::{BufRead, Write};

/// Lines that are read from an input, with a prompt for each of them or without.
#[derive(Drop)]
pub struct Input<R: BufRead + Drop> {
    input: R,
    left: usize,
    prompts: bool,
}

impl<R: BufRead + Drop> Input<R> {
    /// All lines of an input.
    pub fn new(input: R, prompts: bool) -> Input<R> {
        Input {
            input,
            left: 0,
            prompts,
        }
    }
}

impl<R: BufRead + Drop, W: Write> Source<W> for Input<R> {
    fn next(
        &mut self,
        printed: &mut Vec<u8>,
        output: &mut W,
        line: &mut Vec<u8>,
    ) -> Result<bool, Stopped> {
        if self.prompts {
            answered(push_text(printed, b"> "))?;
        }
        write(output, printed)?;
        let length = read_line(&mut self.input, output, line, &mut self.left)?;
        Ok(length > 0)
    }
}

/// The bytes of the file of this name, if it can be read.
pub fn read_file(rt: &HostRuntime, name: &[u8]) -> Option<Vec<u8>> {
    let Ok(path) = std::str::from_utf8(name) else {
        return None;
    };
    match fs::read(rt, path) {
        Ok(bytes) => Some(bytes),
        Err(error) => {
            drop(error);
            None
        }
    }
}
