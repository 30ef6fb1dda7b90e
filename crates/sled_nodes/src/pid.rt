//! The numbers of pages and of their versions. Contracts see both as numbers.
use std::marker::Model;

/// The number of a page, from 1. A store never gives one twice, not after a crash either.
#[derive(Clone, Copy, PartialEq, Eq)]
pub struct Pid(pub u64);

impl Model for Pid {
    ghost use Rattle.std.specs.Prelude.{ℕ};

    ghost Value = { ℕ };

    ghost view = { λ p. p.0 };

    ghost inverse = { λ n. record { 0 = n } };
}

/// The version of a page. Every change of a page gives it one that the store never gave before.
#[derive(Clone, Copy, PartialEq, Eq)]
pub struct Version(pub u64);

impl Model for Version {
    ghost use Rattle.std.specs.Prelude.{ℕ};

    ghost Value = { ℕ };

    ghost view = { λ p. p.0 };

    ghost inverse = { λ n. record { 0 = n } };
}
