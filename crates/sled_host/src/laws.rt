//! A law of files of the operating system.
ghost use Rattle.std.specs.Prelude.{◌≤◌, ℕ, List, length};
ghost use Rattle.sled_host.specs.Host.{calls_of, outcomes_since, IsHonest};

use crate::host::HostFile;

/// Does nothing. It says what an honest disk ensures: what the next opening finds is what a crash since a moment might have left.
///
/// ```
/// law_honest(&pair.first); // From here on a proof knows what the next opening finds where the disk is honest.
/// ```
pub fn law_honest(_file: &HostFile)
    ensures { (t : ℕ) (found : List ℕ) → t ≤ length (calls_of _file.now) → IsHonest _file.now found → outcomes_since _file.now t found }
{}
