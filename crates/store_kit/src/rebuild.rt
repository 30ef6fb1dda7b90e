//! A store in the making, to which each line makes one call.
ghost use Rattle.std.specs.Prelude.{◌≡◌, ◌-◌, ◌^◌, ◌&&◌, nat_lt};

use crate::line::{Line, Word};
use crate::nodes::{Nodes, read_link};
use sled_nodes::{IVec, Pid, Result, Version};
use sled_pages::Rebuild;
use std::alloc::Global;

/// A call of a store in the making.
#[derive(Clone, Copy)]
pub enum Act {
    Put,
    Link,
    Free,
    Root,
}

/// A store in the making, which begins anew once one was finished.
#[derive(Drop)]
pub struct Making {
    alloc: Global,
    rebuild: Rebuild,
}

/// What was made, how many page numbers and versions count as given, and the mark.
#[derive(Drop)]
pub struct Finished {
    pub rebuild: Rebuild,
    pub pids: u64,
    pub versions: u64,
    pub mark: u64,
}

// Whether a page can have this number and this version.
fn can_be(pid: Pid, version: Version) -> bool
    ensures { result ≡ (nat_lt 0 pid && nat_lt version (2 ^ 64 - 1)) }
{
    0 < pid.0 && version.0 < u64::MAX
}

impl Making {
    pub fn new(alloc: Global) -> Making {
        Making {
            alloc,
            rebuild: Rebuild::new(alloc),
        }
    }

    /// Does what a line says.
    pub fn run(&mut self, act: Act, nodes: &mut Nodes, line: &mut Line) -> Result<()> {
        match act {
            Act::Put => self.put(nodes, line),
            Act::Link => self.link(line),
            Act::Free => {
                self.free(line);
                Ok(())
            }
            Act::Root => self.root(line),
        }
    }

    fn put(&mut self, nodes: &mut Nodes, line: &mut Line) -> Result<()> {
        let (pid, version) = (Pid(line.number()), Version(line.number()));
        let Some(node) = nodes.last(line) else {
            return Ok(());
        };
        if can_be(pid, version) {
            self.rebuild.put(pid, version, node)
        } else {
            drop(node);
            line.out.push("barred");
            Ok(())
        }
    }

    fn link(&mut self, line: &mut Line) -> Result<()> {
        let (pid, version) = (Pid(line.number()), Version(line.number()));
        let Some(link) = read_link(line) else {
            return Ok(());
        };
        if can_be(pid, version) {
            self.rebuild.link(pid, version, link)
        } else {
            drop(link);
            line.out.push("barred");
            Ok(())
        }
    }

    fn free(&mut self, line: &mut Line) {
        let pid = Pid(line.number());
        if !line.is_read() {
            return;
        }
        if 0 < pid.0 {
            self.rebuild.free(pid);
        } else {
            line.out.push("barred");
        }
    }

    fn root(&mut self, line: &mut Line) -> Result<()> {
        let name = line.string();
        let root: Option<Option<Pid>> = Word::read(line);
        match line.whole(both(name, root)) {
            Some((name, root)) => self.rebuild.set_root(name, root),
            None => Ok(()),
        }
    }

    /// What was made, if the line that finishes it can be read.
    pub fn finish(&mut self, line: &mut Line) -> Option<Finished> {
        let (pids, versions, mark) = (line.number(), line.number(), line.number());
        if !line.is_read() {
            return None;
        }
        let rebuild = std::mem::replace(&mut self.rebuild, Rebuild::new(self.alloc));
        Some(Finished {
            rebuild,
            pids,
            versions,
            mark,
        })
    }
}

// Both, if both were read.
fn both(name: Option<IVec>, root: Option<Option<Pid>>) -> Option<(IVec, Option<Pid>)> {
    match (name, root) {
        (Some(name), Some(root)) => Some((name, root)),
        (name, _) => {
            drop(name);
            None
        }
    }
}
