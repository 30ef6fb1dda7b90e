//! What a database had when it was shared.
ghost use Rattle.std.specs.Prelude.{◌≡◌, true, IfOk, IfErr};
ghost use Rattle.sled_model.specs.Collections.{contents_of};
ghost use Rattle.sled_nodes.specs.declared.error.Error.TheVariants.{NoMemory};

use crate::compare::are_same_collections;
use crate::told::Collections;
use sled_model::Collection;
use sled_nodes::Result;
use std::alloc::Global;
use std::marker::Model;

// The collections of a database when it was shared, and whether they were flushed, so that a crash would have left them alone. It has several
// owners: the state under the lock, and the database, which compares at the end.
pub(crate) struct Opening {
    collections: Collections,
    flushed: bool,
}

impl Model for Opening {
    ghost use Rattle.machine_shared.specs.Values.{OpeningValue};

    ghost Value = { OpeningValue };

    ghost view = { λ o. record { contents = o.collections; flushed = o.flushed } };
}

impl Opening {
    // These collections, flushed or not. Refused with `NoMemory` alone.
    pub(crate) fn new(alloc: Global, collections: Vec<Collection>, flushed: bool) -> Result<Opening>
        ensures ok { IfOk result (λ opening. opening ≡ record { contents = contents_of collections.items; flushed = flushed }) }
        ensures err { IfErr result (λ e. e ≡ NoMemory) }
    {
        let collections = Collections::new(alloc, collections)?;
        Ok(Opening {
            collections,
            flushed,
        })
    }

    // The same, for one owner more. Refused with `NoMemory` alone.
    pub(crate) fn again(&self) -> Result<Opening>
        ensures ok { IfOk result (λ opening. opening ≡ self.now) }
        ensures err { IfErr result (λ e. e ≡ NoMemory) }
    {
        Ok(Opening {
            collections: self.collections.clone()?,
            flushed: self.flushed,
        })
    }

    // The collections.
    pub(crate) fn collections(&self) -> &[Collection]
        ensures { contents_of result.now ≡ self.now.contents }
    {
        self.collections.as_slice()
    }

    // Whether both are the same.
    pub(crate) fn is(&self, other: &Opening) -> bool
        ensures { result ≡ true → self.now ≡ other.now }
    {
        self.flushed == other.flushed
            && are_same_collections(self.collections(), other.collections())
    }
}

// By hand, so that code that drops it cites this, and need not prove again how its parts are dropped.
impl Drop for Opening {
    fn drop(self) {
        let Opening {
            collections,
            flushed: _,
        } = self;
        drop(collections);
    }
}
