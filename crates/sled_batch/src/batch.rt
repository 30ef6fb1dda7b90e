//! Batches of writes.
ghost use Rattle.std.specs.Option.{option_eq};
ghost use Rattle.std.specs.Prelude.{◌≡◌, ◌&&◌, [], Some, None, length, IsTrue, ◌↔◌, OnOk, OnErr, IfOk, IfErr};
ghost use Rattle.std.specs.FinMap.Entries.{put};
ghost use Rattle.std.specs.Cmp.Lexicographic.{pointwise, lists_equiv, options_equiv, nat_list_eq_equiv};
ghost use Rattle.std.specs.Cmp.{partial_equiv_from_equiv, and_equiv, on_equiv};
ghost use Rattle.std.specs.Str.{bytes_eq};
ghost use Rattle.sled_nodes.specs.Order.{key_cmp};
ghost use Rattle.sled_batch.specs.Batch.{Rises};
ghost use Rattle.sled_nodes.specs.declared.error.Error.TheVariants.{NoMemory};

use sled_nodes::{Error, IVec, Result, clone_value};
use std::alloc::Global;
use std::collections::BTreeMap;
use std::marker::Model;

/// Writes of several keys that are to be made together: of each key the last one alone, in the order of the keys.
#[derive(Debug)]
pub struct Batch {
    // What each key is to have: a value, or none.
    writes: BTreeMap<IVec, Option<IVec>>,
}

// By hand, so that each function that drops a batch cites this, and does not prove again how its parts are dropped.
impl Drop for Batch {
    fn drop(self) {
        let Batch { writes } = self;
        drop(writes);
    }
}

impl Model for Batch {
    ghost use Rattle.sled_batch.specs.Batch.{Writes, Rises};

    ghost Value = { Writes };

    ghost view = { λ b. b.writes.entries };

    ghost invariant = { λ b. Rises b.writes.entries };
}

impl Batch {
    /// No writes. It takes no memory.
    ///
    /// ```
    /// let mut batch = Batch::default(alloc);
    /// ```
    pub fn default(alloc: Global) -> Batch
        ensures { result ≡ [] }
    {
        Batch {
            writes: BTreeMap::new(alloc),
        }
    }

    /// The key is to have this value, whatever was written of it before. Refused with `NoMemory` alone, and then nothing
    /// changes.
    ///
    /// ```
    /// batch.insert(alloc, b"ulm", b"21")?;
    /// batch.insert(alloc, b"ulm", b"22")?; // One write: `ulm` at 22.
    /// ```
    pub fn insert(&mut self, alloc: Global, key: &[u8], value: &[u8]) -> Result<()>
        ensures ok { OnOk result (self.new ≡ put key_cmp key.now (Some value.now) self.old) }
        ensures err { OnErr result (self.new ≡ self.old) }
        ensures cause { IfErr result (λ e. e ≡ NoMemory) }
    {
        let key = IVec::from_slice(alloc, key)?;
        match IVec::from_slice(alloc, value) {
            Ok(value) => self.write(key, Some(value)),
            Err(e) => {
                drop(key);
                Err(e)
            }
        }
    }

    /// The key is to have no value, whatever was written of it before. Refused with `NoMemory` alone, and then nothing
    /// changes.
    ///
    /// ```
    /// batch.remove(alloc, b"ulm")?;
    /// ```
    pub fn remove(&mut self, alloc: Global, key: &[u8]) -> Result<()>
        ensures ok { OnOk result (self.new ≡ put key_cmp key.now None self.old) }
        ensures err { OnErr result (self.new ≡ self.old) }
        ensures cause { IfErr result (λ e. e ≡ NoMemory) }
    {
        self.write(IVec::from_slice(alloc, key)?, None)
    }

    // The write of a key.
    fn write(&mut self, key: IVec, value: Option<IVec>) -> Result<()>
        ensures ok { OnOk result (self.new ≡ put key_cmp key value self.old) }
        ensures err { OnErr result (self.new ≡ self.old) }
        ensures cause { IfErr result (λ e. e ≡ NoMemory) }
    {
        match self.writes.insert(key, value) {
            Ok(before) => {
                drop(before);
                Ok(())
            }
            Err(failed) => {
                drop(failed);
                Err(Error::NoMemory)
            }
        }
    }

    /// The same writes. Refused with `NoMemory` alone.
    ///
    /// ```
    /// let again = batch.clone(alloc)?; // To be made once more, on another tree.
    /// ```
    pub fn clone(&self, alloc: Global) -> Result<Batch>
        ensures ok { IfOk result (λ copy. copy ≡ self.now) }
        ensures err { IfErr result (λ e. e ≡ NoMemory) }
    {
        let mut copy = Batch::default(alloc);
        for (key, value) in self.writes.iter() {
            if let Err(e) = copy.copy_write(key, value) {
                drop(copy);
                return Err(e);
            }
        }
        Ok(copy)
    }

    // The write of a key once more, here.
    fn copy_write(&mut self, key: &IVec, value: &Option<IVec>) -> Result<()>
        ensures ok { OnOk result (self.new ≡ put key_cmp key.now value.now self.old) }
        ensures cause { IfErr result (λ e. e ≡ NoMemory) }
    {
        let value = clone_value(value)?;
        match key.clone() {
            Ok(key) => self.write(key, value),
            Err(e) => {
                drop(value);
                Err(e)
            }
        }
    }

    /// The writes, in the order of their keys: each key with the value that it is to have, or with none.
    ///
    /// ```
    /// for (key, value) in batch.writes() {
    ///     let is_removed = value.is_none();
    /// }
    /// ```
    pub fn writes(&self) -> &BTreeMap<IVec, Option<IVec>>
        ensures entries { result.now.entries ≡ self.now }
        ensures rise { Rises self.now }
    {
        &self.writes
    }

    /// How many keys are written.
    ///
    /// ```
    /// let keys = batch.len(); // 1 after two writes of `ulm`.
    /// ```
    pub fn len(&self) -> usize
        ensures { result ≡ length self.now }
    {
        self.writes.len()
    }

    /// Whether no key is written.
    ///
    /// ```
    /// if batch.is_empty() {
    ///     // There is nothing to do.
    /// }
    /// ```
    pub fn is_empty(&self) -> bool
        ensures { IsTrue result ↔ self.now ≡ [] }
    {
        self.writes.is_empty()
    }
}

impl PartialEq for Batch {
    ghost eq = { pointwise (λ p q. bytes_eq p.0 q.0 && option_eq bytes_eq p.1 q.1) };

    ghost laws = { partial_equiv_from_equiv (lists_equiv (and_equiv (on_equiv (λ p. p.0) nat_list_eq_equiv) (on_equiv (λ p. p.1) (options_equiv nat_list_eq_equiv)))) };

    fn eq(&self, other: &Batch) -> bool {
        self.writes == other.writes
    }
}

impl Eq for Batch {
    ghost laws = { lists_equiv (and_equiv (on_equiv (λ p. p.0) nat_list_eq_equiv) (on_equiv (λ p. p.1) (options_equiv nat_list_eq_equiv))) };
}
