//! Trees by name.

use crate::names::TreeNames;
use crate::tell::{Result, answered};
use sled_model::Tree;
use std::alloc::Global;

/// What the lines `tree` got since the opening, one after the other. The default tree comes first and second, as if two lines had
/// named it, and behind it a tree that is current again after a crash.
#[derive(Drop)]
pub struct Names {
    trees: Vec<Tree>,
}

impl Names {
    /// None so far.
    pub fn empty(alloc: Global) -> Names {
        Names {
            trees: Vec::new(alloc),
        }
    }

    /// Takes down what a line `tree` got.
    pub fn push(&mut self, tree: &Tree) -> Result<()> {
        Ok(self.trees.push(answered(tree.clone())?)?)
    }

    /// The names after an opening.
    pub fn begin(&mut self, default: &Tree) -> Result<()> {
        self.trees.clear();
        self.push(default)?;
        self.push(default)
    }

    /// A tree that is current again after a crash.
    pub fn begin_with(&mut self, current: &Tree) -> Result<()> {
        self.push(current)?;
        self.push(current)
    }

    /// What a name was before so many of the last lines `tree` with it.
    pub fn before(&self, name: &[u8], lines: u64) -> Option<&Tree> {
        let mut left = lines;
        for place in 0..self.trees.len() {
            let tree = &self.trees[self.trees.len() - 1 - place];
            if tree.name.as_ref() != name {
                continue;
            }
            if left == 0 {
                return Some(tree);
            }
            left -= 1;
        }
        None
    }
}

impl TreeNames for Names {
    fn tree(&self, name: &[u8]) -> Option<&Tree> {
        self.before(name, 0)
    }
}
