//! The law of scans: what a scan gives over a run of the model, whatever other calls do between its steps.
//!
//! A scan is no snapshot. It reads one part of its range after the other, each as it is at that moment, and gives the pairs one at a
//! step. So a pair that is put in or taken out meanwhile may be given or not; a pair that is there all the time is given, and a pair
//! that is given was there once since the scan began. Beside the steps of the run the database may be changed in other ways, if the
//! calls in flight stay as they are and maps still ascend.
//!
//! Nothing is done here. The law is in `specs/Scanned`, and its proof goes by what the scan in its slot knows (`Holds` in
//! `proofs/Scanning`), which each step keeps. It asks that maps ascend as the scan begins. Each step keeps this too, until a group that
//! is refused midway closes the database (`proofs/Staying`), and from then on no scan gives anything.
#![tactic(auto)]

ghost use Rattle.scan_laws.specs.Scanned.{ScanLaw, ScanLawAlone};

/// Does nothing. Over every run of the model that follows its begin, whatever changes there are beside it, a scan gives pairs whose keys
/// are within its bounds and strictly rise or, backwards, fall. Each of them was in the map of its tree at some moment since the begin.
/// When the scan ends, it has given each key within its bounds that was in the map at each of its steps.
///
/// ```
/// law_scans(); // From here on a proof knows what every scan gives.
/// ```
pub fn law_scans()
    ensures scans { ScanLaw }
    ensures alone { ScanLawAlone }
{}
