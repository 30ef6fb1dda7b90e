//! Numbers by which a test chooses.
ghost use Rattle.std.specs.Prelude.{◌≡◌, ◌≤◌, drop, IfOk, IfErr};
ghost use Rattle.sled_disk.specs.Choices.{left_of, chosen_of};
ghost use Rattle.sled_disk.specs.declared.disk.DiskError.TheVariants.{NoMemory};

use crate::Result;
use std::alloc::Global;

/// Numbers, each of which chooses once, the first of them first. If they are used up, 0 chooses.
#[derive(Drop)]
pub struct Choices {
    numbers: Vec<u64>,
    used: usize,
}

impl Choices {
    /// Choices by these numbers.
    ///
    /// ```
    /// let mut choices = Choices::new(vec![in alloc; 0, 1]?);
    /// let left = disk.crash(&mut choices)?;
    /// ```
    pub fn new(numbers: Vec<u64>) -> Choices
        ensures { left_of result ≡ numbers.items }
    {
        Choices { numbers, used: 0 }
    }

    // The numbers that have not chosen yet, as choices of their own.
    pub(crate) fn copied(&self, alloc: Global) -> Result<Choices>
        ensures ok { IfOk result (λ copy. left_of copy ≡ left_of self.now) }
        ensures err { IfErr result (λ e. e ≡ NoMemory) }
    {
        match self.numbers.get(self.used..) {
            Some(left) => Ok(Choices::new(left.to_vec(alloc)?)),
            None => Ok(Choices::new(Vec::new(alloc))),
        }
    }

    /// A number up to this one: the next of the numbers, modulo what there is to choose from.
    ///
    /// ```
    /// let number = choices.up_to(2); // 0, 1 or 2.
    /// ```
    pub fn up_to(&mut self, most: usize) -> usize
        ensures within { result ≤ most }
        ensures chosen { result ≡ chosen_of most (left_of self.old) }
        ensures left { left_of self.new ≡ drop 1 (left_of self.old) }
    {
        let number = match self.numbers.get(self.used) {
            Some(number) => *number,
            None => return 0,
        };
        self.used += 1;
        if most == usize::MAX {
            number as usize
        } else {
            (number % (most as u64 + 1)) as usize
        }
    }
}
