//! The removal of keys by their bounds in `example_databases`.
use crate::trial::Trial;
use example_databases::keep_outside;
use std::ops::Bound;

/// Whether just the pairs outside two bounds are left of the first tree, and the second is as before.
pub fn keeps_outside(trial: &mut Trial) {
    for key in [b"a", b"b", b"c", b"d"] {
        trial.insert(key, b"1");
    }
    let stood = trial.db.insert(&trial.second, b"b", b"2");
    trial.seen.made(stood);
    let (lo, hi) = (Bound::Excluded(&b"a"[..]), Bound::Included(&b"c"[..]));
    let count = keep_outside(&mut trial.db, &trial.first, lo, hi);
    trial.seen.told(count, 2);
    trial.holds(&[("a", "1"), ("d", "1")], &[("b", "2")]);
}
