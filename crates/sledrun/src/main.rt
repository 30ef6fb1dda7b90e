//! Runs commands on a database over pages in memory: reads them line by line, and prints how each came out.
#![tactic(auto)]

use line_sessions::serve::serve;
use std::io::{BufReader, BufWriter};
use std::process::ExitCode;

fn main(rt: HostRuntime) -> ExitCode {
    let alloc = rt.alloc();
    let (Ok(mut input), Ok(mut output)) = (
        BufReader::new(alloc, rt.reader()),
        BufWriter::new(alloc, std::io::writer(&rt)),
    ) else {
        return ExitCode::from(2);
    };
    ExitCode::from(serve(alloc, &mut input, &mut output))
}
