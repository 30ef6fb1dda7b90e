//! An event store: a stream is a tree of a database, in which an event is at its id, which no other event has. Ids rise, and so
//! does their spelling, so a stream has its events in the order in which they came.
ghost use Rattle.std.specs.Prelude.{◌≡◌, IfOk, IfErr, OnErr, List};
ghost use Rattle.typed_map.specs.declared.typed.TypedError.TheVariants.{Foreign};
ghost use Rattle.example_machines.specs.Events.{Event, HasEvents, KeepsStreams, OpensStream, Appends, ReadsFrom};

use sled::Db;
use sled_model::{MergeOperator, Tree};
use sled_nodes::{IVec, Result};
use sled_store::Pages;
use std::alloc::Global;
use std::ops::Bound;
use typed_map::{Spelled, TypedResult, walk};

/// Opens the stream of a name, which has no events if the name is new. Refused, every stream is as before.
pub fn open_stream<P: Pages, M: MergeOperator>(db: &mut Db<P, M>, name: &[u8]) -> Result<Tree>
    ensures ok { IfOk result (λ stream. OpensStream P.store M.meant db.old name.now stream db.new) }
    ensures err { OnErr result (KeepsStreams P.store M.meant db.old db.new) }
{
    match db.open_tree(name) {
        Ok(stream) => Ok(stream),
        Err(e) => Err(e),
    }
}

/// Appends an event to a stream, and answers its id, which is above all that were given: the event follows all that the stream has.
/// Refused, every stream is as before; the id may be used up then.
pub fn append<P: Pages, M: MergeOperator>(
    db: &mut Db<P, M>,
    stream: &Tree,
    event: &[u8],
) -> Result<u64>
    ensures ok { IfOk result (λ id. Appends P.store M.meant db.old stream.now.name id event.now db.new) }
    ensures err { OnErr result (KeepsStreams P.store M.meant db.old db.new) }
{
    let id = match db.generate_id() {
        Ok(id) => id,
        Err(e) => return Err(e),
    };
    let key = match id.spell(db.allocator()) {
        Ok(key) => key,
        Err(e) => return Err(e),
    };
    match db.insert(stream, key.as_ref(), event) {
        Ok(stood) => {
            drop(stood);
            drop(key);
            Ok(id)
        }
        Err(e) => {
            drop(key);
            Err(e)
        }
    }
}

/// The events of a stream from an id on, each with its id, in order. The answer is that the tree is foreign only if it is no stream.
pub fn read_from<P: Pages, M: MergeOperator>(
    db: &Db<P, M>,
    stream: &Tree,
    from: u64,
) -> TypedResult<Vec<(u64, IVec)>>
    ensures ok { IfOk result (λ found. ReadsFrom P.store M.meant db.now stream.now.name from found.items) }
    ensures foreign { IfErr result (λ e. e ≡ Foreign → (events : List Event) → HasEvents P.store M.meant db.now stream.now.name events → ⊥) }
{
    match walk(db, stream, Bound::Included(&from), Bound::Unbounded) {
        Ok(found) => Ok(found),
        Err(e) => Err(e),
    }
}
