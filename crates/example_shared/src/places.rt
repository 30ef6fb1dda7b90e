//! What leaves a key of a tree as it is.
ghost use Rattle.example_shared.specs.Places.{LeavesLaw};

/// A read leaves what is at a key, whatever it reads, and so does a call on another key or of another tree, a flush, an id that is given, a
/// tree that is opened, and what is about subscribers.
///
/// ```
/// law_leaves(); // From here on a proof knows it.
/// ```
pub fn law_leaves()
    ensures { LeavesLaw }
{}
