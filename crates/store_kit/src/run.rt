//! Texts of lines, and what they print.
use crate::line::Line;
use crate::store::Store;
use crate::text::Text;
use crate::trial::Trial;
use crate::values::{compare_values, kind_of};
use sled_store::Pages;
use std::alloc::Global;

/// The outcome of lines.
#[derive(Drop)]
pub struct Ran<'t> {
    /// What they printed. A line that was left out printed an empty line.
    pub printed: Text,
    /// The first line that asked for what the store does not have. It is left out, and so are those behind it up to a `new`.
    pub lacked: Option<&'t str>,
}

/// What the lines of a text print, from an empty store on.
pub fn run_lines<'t, P: Pages, T: Trial<P>>(alloc: Global, trial: &T, text: &'t str) -> Ran<'t> {
    let mut ran = Ran {
        printed: Text::new(alloc),
        lacked: None,
    };
    match Store::new(alloc, trial) {
        Ok(mut store) => {
            run_all(&mut store, text, &mut ran);
            drop(store);
        }
        Err(error) => {
            drop(error);
            ran.printed.is_cut = true;
        }
    }
    ran
}

fn run_all<'t, P: Pages, T: Trial<P>>(
    store: &mut Store<'_, P, T>,
    text: &'t str,
    ran: &mut Ran<'t>,
) {
    let (mut number, mut is_left_out) = (0u64, false);
    for line in text.split('\n') {
        number = number.saturating_add(1);
        if line.is_empty() || line.starts_with('#') {
            continue;
        }
        if is_left_out && line != "new" {
            ran.printed.push("\n");
            continue;
        }
        is_left_out = run_line(store, number, line, &mut ran.printed);
        if is_left_out && ran.lacked.is_none() {
            ran.lacked = Some(line);
        }
    }
}

// Adds the outcome of the line of this number. Whether it asks for what the store does not have.
fn run_line<P: Pages, T: Trial<P>>(
    store: &mut Store<'_, P, T>,
    number: u64,
    text: &str,
    out: &mut Text,
) -> bool {
    let mut line = Line::new(out.alloc);
    match kind_of(text) {
        Some((kind, items)) => compare_values(kind, items, &mut line),
        None => {
            line.start(text);
            run_command(store, &mut line);
        }
    }
    if line.is_bad {
        line.out.clear();
        line.out.push_numbered("bad line", number);
    }
    let lacks = line.lacks;
    if lacks {
        line.out.clear();
    }
    out.push_line(&line.out);
    drop(line);
    lacks
}

// Runs a command; of `repeat N COMMAND` what counts is the outcome of the last of N times.
fn run_command<P: Pages, T: Trial<P>>(store: &mut Store<'_, P, T>, line: &mut Line) {
    if !line.takes("repeat") {
        return store.run(line);
    }
    let count = line.number();
    let place = line.at;
    for _ in 0..count {
        if line.is_bad {
            break;
        }
        line.out.clear();
        line.at = place;
        store.run(line);
    }
}
