//! The laws of queues.
ghost use Rattle.sled_queues.specs.Laws.{DeliversLaw, CancelsLaw, DeliversGroupLaw, CalmLaw, ServesLaw};
ghost use Rattle.sled_queues.specs.Hears.{HearsLaw, HearsAllLaw, CountsLaw};
ghost use Rattle.sled_queues.specs.Copies.{ChangesLaw, CopyLaw, FollowsLaw};
ghost use Rattle.sled_queues.specs.Turns.{TurnsLaw, HeardLaw};
ghost use Rattle.sled_queues.specs.Trees.{TreesLaw};

/// An event that is prepared and committed is delivered, if nothing was prepared before.
pub fn law_delivers()
    ensures { DeliversLaw }
{}

/// An event that is prepared and cancelled leaves all as it was, if nothing was prepared before.
pub fn law_cancels()
    ensures { CancelsLaw }
{}

/// Events of several trees that are prepared one after the other are delivered in that order once they are committed, and
/// are gone once they are cancelled, if nothing was prepared before.
pub fn law_delivers_all()
    ensures { DeliversGroupLaw }
{}

/// If nothing is prepared, nothing is after the calls that prepare nothing.
pub fn law_stays_calm()
    ensures { CalmLaw }
{}

/// A new subscriber, what a subscriber gets next and the end of a subscriber are those of the model.
pub fn law_serves()
    ensures { ServesLaw }
{}

/// A subscriber gets each event that comes for it once and in order, or gets the number of those that it missed.
pub fn law_hears()
    ensures { HearsLaw }
{}

/// .. from the moment on at which it watched.
pub fn law_hears_all()
    ensures { HearsAllLaw }
{}

/// All that a subscriber missed was counted, if fewer events came than can be counted.
pub fn law_counts()
    ensures { CountsLaw }
{}

/// The event of a call describes all that the call changes in the map of its tree.
pub fn law_changes()
    ensures { ChangesLaw }
{}

/// A copy that is changed by the events under its prefix stays a copy of the map.
pub fn law_copy()
    ensures { CopyLaw }
{}

/// A subscriber that missed none and changes a copy by each event that it takes has a copy of its tree's map if nothing waits
/// for it.
pub fn law_follows()
    ensures { FollowsLaw }
{}

/// What a step of a machine does to queues is what its turns do.
pub fn law_turns()
    ensures { TurnsLaw }
{}

/// What a subscriber takes at a step of a machine is what the step's reply gives it.
pub fn law_heard()
    ensures { HeardLaw }
{}

/// The events that come to a tree at a step describe all that the step changes in its map, while the database is open.
pub fn law_trees()
    ensures { TreesLaw }
{}
