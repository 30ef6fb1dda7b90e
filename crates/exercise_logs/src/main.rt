//! What an author of a store writes to have lines run over it: here over the store of `example_stores`, of which a crash is known too.
#![tactic(auto)]

use example_stores::LogPages;
use sled_nodes::Result;
use std::alloc::Global;
use std::process::ExitCode;
use store_kit::{Trial, exercise};

struct Logs;

impl Trial<LogPages> for Logs {
    fn empty(&self, alloc: Global) -> Result<LogPages> {
        Ok(LogPages::new(alloc))
    }

    fn crash(&self, _alloc: Global, store: LogPages, keep: usize) -> Option<Result<LogPages>> {
        Some(Ok(store.crash(keep)))
    }
}

fn main(rt: HostRuntime) -> ExitCode {
    exercise(&rt, &Logs)
}
