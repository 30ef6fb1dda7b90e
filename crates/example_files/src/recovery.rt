//! What a crash leaves of a run over a store in files.
ghost use Rattle.std.specs.Prelude.{IfOk, IfErr};
ghost use Rattle.sled_disk.specs.Memory.{bytes_of, outcomes_of};
ghost use Rattle.example_files.specs.Survive.{Survives, is_no_loss};

use crate::lost::Lost;
use crate::reopening::reopen;
use machine_alone::Machine;
use sled::Db;
use sled_disk::{Choices, MemoryDisk};
use sled_files::FilePages;
use sled_model::{MergeOperator, Outcome, Step};
use std::alloc::Global;

// What a crash leaves of both disks of a store.
fn crashed(
    pages: &FilePages<MemoryDisk>,
    choices: &mut Choices,
) -> Result<(MemoryDisk, MemoryDisk), Lost>
    ensures first { IfOk result (λ left. outcomes_of pages.now.files.first (bytes_of left.0)) }
    ensures second { IfOk result (λ left. outcomes_of pages.now.files.second (bytes_of left.1)) }
    ensures err { IfErr result is_no_loss }
{
    let (first, second) = pages.disks();
    let left = match first.crash(choices) {
        Ok(left) => left,
        Err(e) => return Err(Lost::Crash(e)),
    };
    match second.crash(choices) {
        Ok(other) => Ok((left, other)),
        Err(e) => {
            drop(left);
            Err(Lost::Crash(e))
        }
    }
}

/// Makes steps on a machine over a store in two files, crashes both disks, and opens what is left. The numbers choose what each disk
/// leaves, among outcomes that it may leave. Returns the outcomes of the steps and the database that was found.
pub fn survive<M: MergeOperator>(
    alloc: Global,
    machine: &mut Machine<FilePages<MemoryDisk>, M>,
    steps: &[Step],
    choices: &mut Choices,
    name: &[u8],
) -> Result<(Vec<Outcome>, Db<FilePages<MemoryDisk>, M>), Lost>
    ensures ok { IfOk result (λ r. Survives M.meant name.now machine.old steps.now r.0.items machine.new r.1) }
    ensures err { IfErr result is_no_loss }
{
    let outcomes = match machine.run(steps) {
        Ok(outcomes) => outcomes,
        Err(e) => return Err(Lost::Steps(e)),
    };
    let (first, second) = match crashed(machine.db().pages(), choices) {
        Ok(disks) => disks,
        Err(e) => {
            drop(outcomes);
            return Err(e);
        }
    };
    match reopen(alloc, machine, first, second, name) {
        Ok(db) => Ok((outcomes, db)),
        Err(e) => {
            drop(outcomes);
            Err(e)
        }
    }
}
