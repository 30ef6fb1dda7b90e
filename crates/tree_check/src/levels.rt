//! On which level each page was found.
ghost use Rattle.std.specs.Prelude.{Some, None, IfErr, OnOk};
ghost use Rattle.tree_check.specs.theory.Walk.{RefusesPage, SetsLevel};

use crate::findings::{FOUND_TWICE, MIXED_PAGES, corruption};
use sled_nodes::{Error, Pid, Result};
use std::collections::BTreeMap;

/// A level: the position of its tree among the roots, and its height above the leaves.
#[derive(Clone, Copy)]
pub struct Level {
    pub tree: u64,
    pub height: u64,
}

/// Notes on which level a page was found. Refused if it was found before.
pub fn set_level(levels: &mut BTreeMap<u64, Level>, pid: Pid, level: Level) -> Result<()>
    ensures ok { OnOk result (SetsLevel pid level levels.old levels.new) }
    ensures err { IfErr result RefusesPage }
{
    match levels.insert(pid.0, level) {
        Ok(None) => Ok(()),
        Ok(Some(old)) => Err(found_twice(old, level)),
        Err(_) => Err(Error::NoMemory),
    }
}

/// The error for a page that was found on a level before, and now on another.
pub fn found_twice(old: Level, level: Level) -> Error
    ensures { RefusesPage result }
{
    if old.tree == level.tree {
        corruption(FOUND_TWICE)
    } else {
        corruption(MIXED_PAGES)
    }
}
