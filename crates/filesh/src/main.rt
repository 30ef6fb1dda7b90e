//! The shell over a database in files. Its argument is the folder of the database, which is made if it is not there. Without an argument
//! the files are in memory, and last as long as the program. What it prints is not proved: it is safe, and it ends.
#![tactic(auto)]

mod files;
mod place;

use files::Files;
use line_words::input::Stopped;
use place::{Folder, Memory};
use shell_answers::shell::run;
use std::env;
use std::io::{BufReader, BufWriter, IsTerminal, Write};
use std::process::ExitCode;

// Runs standard input on the files of a folder: whether each line could be read.
fn run_in_folder(rt: &HostRuntime, path: &str, output: &mut impl Write) -> Result<bool, Stopped> {
    let input = BufReader::new(rt.alloc(), rt.reader())?;
    let prompts = rt.stdin().is_terminal();
    let home = Files::new(rt.alloc(), Folder { rt, path });
    run(rt, home, input, output, prompts)
}

// Runs standard input on files in memory: whether each line could be read.
fn run_in_memory(rt: &HostRuntime, output: &mut impl Write) -> Result<bool, Stopped> {
    let input = BufReader::new(rt.alloc(), rt.reader())?;
    let prompts = rt.stdin().is_terminal();
    let home = Files::new(rt.alloc(), Memory::new(rt.alloc()));
    run(rt, home, input, output, prompts)
}

fn run_names(rt: &HostRuntime, names: &[String], output: &mut impl Write) -> Result<bool, Stopped> {
    match names {
        [] => run_in_memory(rt, output),
        [path] => run_in_folder(rt, path.as_str(), output),
        _ => {
            writeln!(output, "usage: filesh [FOLDER]")?;
            Err(Stopped)
        }
    }
}

fn run_all(rt: &HostRuntime) -> Result<bool, Stopped> {
    let names: Vec<String> = env::args(rt)?.skip(1).collect(rt.alloc())?;
    let mut output = BufWriter::new(rt.alloc(), std::io::writer(rt))?;
    let ran = run_names(rt, names.as_slice(), &mut output);
    // Also if it stopped: it may have said why.
    output.flush()?;
    ran
}

fn main(rt: HostRuntime) -> ExitCode {
    match run_all(&rt) {
        Ok(true) => ExitCode::from(0),
        Ok(false) => ExitCode::from(1),
        Err(_) => ExitCode::from(2),
    }
}
