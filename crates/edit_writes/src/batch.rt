//! A write of a batch.
ghost use Rattle.std.specs.Prelude.{◌≡◌, Some, IfErr, OnOk, OnErr};
ghost use Rattle.std.specs.FinMap.Entries.{put};
ghost use Rattle.sled_nodes.specs.Order.{key_cmp};
ghost use Rattle.sled_nodes.specs.declared.error.Error.TheVariants.{NoMemory};

use sled_batch::Batch;
use sled_nodes::Result;
use std::alloc::Global;

/// The key is to have this value.
pub fn insert(batch: &mut Batch, alloc: Global, key: &[u8], value: &[u8]) -> Result<()>
    ensures ok { OnOk result (batch.new ≡ put key_cmp key.now (Some value.now) batch.old) }
    ensures err { OnErr result (batch.new ≡ batch.old) }
    ensures cause { IfErr result (λ e. e ≡ NoMemory) }
{
    batch.insert(alloc, key, value)
}
