//! What lines choose: as what a tree is drawn, and what lines are run again for.

/// As what a tree is drawn.
#[derive(Clone, Copy)]
pub enum Drawing {
    Text,
    /// With how many entries the base of each page has, and how many links it has.
    Links,
    /// For the program `dot`.
    Dot,
}

/// What lines are run again for.
#[derive(Clone, Copy)]
pub enum Sweep {
    /// Each call of the store is refused in turn.
    Refusals,
    /// A crash keeps each number of their actions in turn.
    Crashes,
}
