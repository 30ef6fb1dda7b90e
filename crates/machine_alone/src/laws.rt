//! The laws of a machine: of lists of steps, of the maps that a crash may leave, of subscribers, and of scans.
ghost use Rattle.machine_alone.specs.CrashMaps.{ExtendedLaw, FlushedLaw};
ghost use Rattle.machine_alone.specs.Hears.{Hears};
ghost use Rattle.machine_alone.specs.Run.{StepsLaw, GroupLaw};
ghost use Rattle.machine_alone.specs.Scans.{Scans};

use sled_model::MergeOperator;
use sled_store::Pages;

/// Steps of which all holds that is said of one step are steps, as `law_hears` asks for them.
pub fn law_steps<P: Pages, M: MergeOperator>()
    ensures { StepsLaw P.store P.flush_number M.meant }
{}

/// A group of a database, as that of a transaction is, is a step of the machine that has the database. So what is said of lists of steps
/// is said of the list of this one step.
pub fn law_group<P: Pages, M: MergeOperator>()
    ensures { GroupLaw P.store P.flush_number M.meant }
{}

/// What adds maps to those that a crash may leave, as each call of a database does but a flush, makes their list go on by these.
pub fn law_extended()
    ensures { ExtendedLaw }
{}

/// After a flush a crash leaves the maps as they are.
pub fn law_flushed()
    ensures { FlushedLaw }
{}

/// Over every list of steps a subscriber gets each event under its prefix of its tree once, in the order of the decisions, or learns how
/// many it missed, if fewer come than the greatest `u64`. While it misses none, the database is open, and no tree is dropped, a copy that it
/// changes by them follows the map of its tree.
pub fn law_hears<P: Pages, M: MergeOperator>()
    ensures { Hears P.store P.flush_number M.meant }
{}

/// Over every list of steps that follows its begin, whatever other calls do between its own, a scan gives pairs whose keys are within
/// its bounds and strictly rise or, backwards, fall. Each of them was in the map of its tree at some moment since the begin. When the scan
/// ends, it has given each key within its bounds that was in the map at each of its steps. Beside the steps there may be calls that are
/// none, as `update_and_fetch` or a transaction.
pub fn law_scans<P: Pages, M: MergeOperator>()
    ensures { Scans P.store P.flush_number M.meant }
{}
