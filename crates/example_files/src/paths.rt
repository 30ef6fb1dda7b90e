//! What is found in a folder after a crash.
ghost use Rattle.example_files.specs.Survive.{FindsMaps, FindsMapsOnce};

use sled::Db;
use sled_files::FilePages;
use sled_host::HostFile;
use sled_model::MergeOperator;
use sled_once::OneSync;
use sled_path::{law_goes_on, law_once_goes_on};

/// Does nothing. It says which maps `open` finds in a folder after a crash or a drop: if the disks were honest meanwhile, of any list of maps
/// that a crash might have left of this database they are one.
pub fn law_found_maps<M: MergeOperator>(db: &Db<FilePages<HostFile>, M>)
    ensures { FindsMaps db.now }
{
    law_goes_on(db.pages());
}

/// The same of `open_once`, if the digest told what was left of the blocks under way too.
pub fn law_found_maps_once<M: MergeOperator>(db: &Db<FilePages<OneSync<HostFile>>, M>)
    ensures { FindsMapsOnce db.now }
{
    law_once_goes_on(db.pages());
}
