//! Callers that are counted.
use crate::entry::Made;
use std::marker::Model;
use std::sync::ledger::{Ledger, Share};

/// A caller: its number, what it made, and its share of the ledger, which counts that. The list grows only with the history, whose
/// length is the ledger's total.
pub struct Caller<L: Ledger> {
    pub(crate) number: u64,
    pub(crate) made: Vec<Made>,
    pub(crate) share: Share<L>,
}

impl<L: Ledger> Model for Caller<L> {
    ghost use Rattle.machine_shared.specs.Values.{CallerValue};

    ghost Value = { CallerValue };

    ghost use Rattle.std.specs.Prelude.{◌≡◌, length};
    ghost use Rattle.machine_shared.specs.Made.{made_values};

    ghost view = { λ c. record { number = c.number; made = made_values c.made.items } };

    ghost invariant = { λ c. (c.share.parts ≡ 1) × (c.share.amount ≡ length c.made.items) };
}

impl<L: Ledger> Caller<L> {
    ghost use Rattle.std.specs.Prelude.{◌≡◌, []};

    // A caller that made nothing yet.
    pub(crate) fn new(made: Vec<Made>, number: u64, share: Share<L>) -> Caller<L>
        requires part { share.parts ≡ 1 }
        requires none { share.amount ≡ 0 }
        requires empty { made.items ≡ [] }
        ensures number { result.number ≡ number }
        ensures made { result.made ≡ [] }
    {
        Caller {
            number,
            made,
            share,
        }
    }
}

// By hand, as a state's.
impl<L: Ledger> Drop for Caller<L> {
    fn drop(self) {
        let Caller {
            number: _,
            made,
            share,
        } = self;
        drop(made);
        drop(share);
    }
}
