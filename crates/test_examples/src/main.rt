//! Runs the callers in `example_databases`, `example_machines`, `example_progress`, `example_transactions` and `example_files` if there is memory,
//! and a database over the store in `example_stores`: no contract says that they do not fail. It prints the outcome of each; `stdout` has
//! the expected ones.
#![tactic(auto)]

mod batches;
mod callers;
mod cases;
mod copies;
mod counters;
mod crashes;
mod endings;
mod events;
mod files;
mod flights;
mod fresh;
mod index;
mod jobs;
mod pairs;
mod ranges;
mod seen;
mod stock;
mod stores;
mod transfers;
mod trial;
mod turns;
mod typed;
mod users;

use callers::{is_read, survives};
use cases::{Case, seen_of};
use crashes::{
    Example, JOBS, ONE_TRANSFER, STOCK, TRANSFERS, USERS, after_crashes, leaves_batches, throughout,
};
use files::survives_in_files;
use flights::{Flight, answers};
use seen::Seen;
use std::process::ExitCode;
use stores::small_store_works;
use turns::tells_in_turn;

// Where the lines are printed, and whether all were.
#[derive(Drop)]
struct Lines<'a> {
    rt: &'a HostRuntime,
    are_printed: bool,
}

impl Lines<'_> {
    // Prints what was seen.
    fn tell(&mut self, what: &str, seen: Seen) {
        if let Err(e) = println!(self.rt; "{what}: {}", seen.word()) {
            drop(e);
            self.are_printed = false;
        }
    }

    // Prints what is seen of a case in a new database.
    fn tell_case(&mut self, what: &str, case: Case) {
        let seen = seen_of(self.rt.alloc(), case);
        self.tell(what, seen);
    }

    // Prints what is seen of an example after each crash and each refusal.
    fn tell_throughout(&mut self, what: &str, example: Example) {
        let seen = throughout(self.rt.alloc(), example);
        self.tell(what, seen);
    }
}

// The callers in `example_databases` and `example_machines`, and the database over the small store.
fn run(lines: &mut Lines) {
    let alloc = lines.rt.alloc();
    lines.tell("what was inserted is read", Seen::of(is_read(alloc)));
    let what = "a get of a borrowed key reads what was inserted";
    lines.tell(what, Seen::of(answers(alloc, Flight::Gets)));
    let what = "a scan in flight gives each pair of its range";
    lines.tell(what, Seen::of(answers(alloc, Flight::Scans)));
    let what = "of two gets that are stepped in turn one finds what was inserted";
    lines.tell(what, Seen::of(tells_in_turn(alloc)));
    let what = "a new database survives a crash";
    lines.tell(what, Seen::of(survives(alloc)));
    let what = "a crash leaves of a database in two files what was flushed";
    lines.tell(what, survives_in_files(alloc));
    let what = "the entries of an index under a number are found";
    lines.tell_case(what, Case::FindsEntries);
    let what = "readings of a user's own type are read in their order";
    lines.tell_case(what, Case::ReadsReadings);
    let what = "a database over the small store reads what it wrote and keeps what it flushed";
    lines.tell(what, small_store_works(alloc));
    lines.tell_case("counters count and tickets rise", Case::Counts);
    let what = "all trees of a database are copied into a new one";
    lines.tell_case(what, Case::CopiesAll);
}

// .. and those of them that came later.
fn run_more(lines: &mut Lines) {
    let what = "events of a stream are read from an id on";
    lines.tell_case(what, Case::ReadsEvents);
    let what = "an index by endings follows its tree";
    lines.tell_case(what, Case::Follows);
    let what = "an index that missed events begins anew";
    lines.tell_case(what, Case::BeginsAnew);
    let what = "items lie where they were put last";
    lines.tell_case(what, Case::Moves);
    let what = "the pairs outside two bounds are left";
    lines.tell_case(what, Case::KeepsOutside);
    let what = "an index agrees with its table after each crash and each refusal";
    lines.tell_throughout(what, STOCK);
    let what = "a crash leaves whole batches of a load";
    lines.tell(what, leaves_batches(lines.rt.alloc()));
}

// .. and those of transactions.
fn run_transactions(lines: &mut Lines) {
    let what = "an amount goes from one counter to another, or nothing changes";
    lines.tell_case(what, Case::Pays);
    let what = "two counters come to the same after each crash and each refusal";
    let alloc = lines.rt.alloc();
    let seen = throughout(alloc, TRANSFERS);
    lines.tell(what, seen.and(after_crashes(alloc, ONE_TRANSFER)));
    let what = "a job is taken once, with its value";
    lines.tell_case(what, Case::Takes);
    let what = "no job is lost or in both trees after each crash and each refusal";
    lines.tell_throughout(what, JOBS);
    let what = "users have the addresses that they were given last";
    lines.tell_case(what, Case::Gives);
    let what = "an index of addresses agrees with its table after each crash and each refusal";
    lines.tell_throughout(what, USERS);
}

fn main(rt: HostRuntime) -> ExitCode {
    let mut lines = Lines {
        rt: &rt,
        are_printed: true,
    };
    run(&mut lines);
    run_more(&mut lines);
    run_transactions(&mut lines);
    if lines.are_printed {
        ExitCode::SUCCESS
    } else {
        ExitCode::FAILURE
    }
}
