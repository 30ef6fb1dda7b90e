//! A map from keys of a type to values of a type, in a tree of a database. Both types are the user's own; each says how its values
//! are spelled as byte strings.
ghost use Rattle.std.specs.Prelude.{◌≡◌, ◌≢◌, OnOk, OnErr, IfOk, IfErr};
ghost use Rattle.sled_model.specs.State.{maps_of};
ghost use Rattle.sled_nodes.specs.declared.error.Error.TheVariants.{NoMemory};
ghost use Rattle.sled.specs.Values.{db_state};
ghost use Rattle.typed_map.specs.declared.typed.TypedError.TheVariants.{Foreign};
ghost use Rattle.typed_map.specs.theory.Typed.{bounds_value};
ghost use Rattle.typed_map.specs.Typed.{bound_at, bound_bytes, IsTyped, OneIsForeign, Puts, LooksUp, Walks, IsForeign, IsPut, HasBytes, SpellsNone, HasPairs, HasForeign, refused_as, RefusesPut, RefusesLookUp, RefusesListing};

use crate::pairs::all_of;
use crate::spelled::Spelled;
use sled::Db;
use sled_model::{MergeOperator, Tree};
use sled_nodes::{Error, IVec, Result, lend_bound};
use sled_store::Pages;
use std::alloc::Global;
use std::ops::Bound;

/// Why a typed read was refused.
#[derive(Drop)]
pub enum TypedError {
    /// Something in the tree spells no value of the types.
    Foreign,
    /// The database refused it.
    Refused(Error),
}

impl From<Error> for TypedError {
    ghost use Rattle.typed_map.specs.declared.typed.TypedError.TheVariants.{Refused};

    ghost from_gives = { λ e told. told ≡ Refused e };

    fn from(e: Error) -> Self {
        TypedError::Refused(e)
    }
}

/// What a typed read answers.
pub type TypedResult<T> = std::result::Result<T, TypedError>;

/// Sets the value at a key: the tree's entries are those of before, with this one in its place. Refused for want of memory to spell the
/// two, and then nothing changes, or as `Db::insert` of their bytes is. No map is changed then.
pub fn put<P: Pages, M: MergeOperator, K: Spelled, V: Spelled>(
    db: &mut Db<P, M>,
    tree: &Tree,
    key: &K,
    value: &V,
) -> Result<()>
    ensures ok { OnOk result (Puts K.spelling V.spelling (maps_of (db_state P.store M.meant db.old)) (maps_of (db_state P.store M.meant db.new)) tree.now.name key.now value.now) }
    ensures decided { OnOk result (IsPut P.store M.meant K.spelling V.spelling db.old tree.now key.now value.now db.new) }
    ensures stays { OnErr result (maps_of (db_state P.store M.meant db.new) ≡ maps_of (db_state P.store M.meant db.old)) }
    ensures err { IfErr result (λ e. RefusesPut P.store M.meant K.spelling V.spelling db.old tree.now key.now value.now e db.new) }
{
    let key = match key.spell(db.allocator()) {
        Ok(key) => key,
        Err(e) => return Err(e),
    };
    let value = match value.spell(db.allocator()) {
        Ok(value) => value,
        Err(e) => {
            drop(key);
            return Err(e);
        }
    };
    let stood = db.insert(tree, key.as_ref(), value.as_ref());
    drop(key);
    drop(value);
    match stood {
        Ok(stood) => {
            drop(stood);
            Ok(())
        }
        Err(e) => Err(e),
    }
}

// The value that bytes spell.
fn read_whole<A: Spelled>(alloc: Global, bytes: &[u8]) -> TypedResult<A>
    ensures ok { IfOk result (λ x. A.spelling.is_value x × (bytes.now ≡ A.spelling.bytes x)) }
    ensures foreign { IfErr result (λ e. e ≡ Foreign → (x : A) → A.spelling.is_value x → bytes.now ≢ A.spelling.bytes x) }
    ensures err { IfErr result (refused_as (λ e. e ≡ NoMemory)) }
{
    match A::read(alloc, bytes)? {
        Some(value) => Ok(value),
        None => Err(TypedError::Foreign),
    }
}

/// The value at a key, or `None` if it is absent. Refused as `Db::get` of the key's bytes is, for want of memory to spell the key or to
/// read the value, or as `Foreign` if what is there spells no value.
pub fn look_up<P: Pages, M: MergeOperator, K: Spelled, V: Spelled>(
    db: &Db<P, M>,
    tree: &Tree,
    key: &K,
) -> TypedResult<Option<V>>
    ensures ok { IfOk result (LooksUp K.spelling V.spelling (maps_of (db_state P.store M.meant db.now)) tree.now.name key.now) }
    ensures bytes { IfOk result (HasBytes P.store M.meant K.spelling V.spelling db.now tree.now key.now) }
    ensures foreign { IfErr result (λ e. e ≡ Foreign → IsForeign K.spelling V.spelling (maps_of (db_state P.store M.meant db.now)) tree.now.name) }
    ensures none { IfErr result (λ e. e ≡ Foreign → SpellsNone P.store M.meant K.spelling V.spelling db.now tree.now key.now) }
    ensures err { IfErr result (refused_as (RefusesLookUp P.store M.meant K.spelling db.now tree.now key.now)) }
{
    let key = match key.spell(db.allocator()) {
        Ok(key) => key,
        Err(e) => return Err(TypedError::Refused(e)),
    };
    let found = db.get(tree, key.as_ref());
    drop(key);
    let bytes = match found {
        Ok(Some(bytes)) => bytes,
        Ok(None) => return Ok(None),
        Err(e) => return Err(TypedError::Refused(e)),
    };
    let read = read_whole(db.allocator(), bytes.as_ref());
    drop(bytes);
    match read {
        Ok(value) => Ok(Some(value)),
        Err(e) => Err(e),
    }
}

// The entries that these pairs spell.
fn typed<K: Spelled, V: Spelled>(alloc: Global, pairs: &[(IVec, IVec)]) -> TypedResult<Vec<(K, V)>>
    ensures ok { IfOk result (λ found. IsTyped K.spelling V.spelling pairs.now found.items) }
    ensures foreign { IfErr result (λ e. e ≡ Foreign → OneIsForeign K.spelling V.spelling pairs.now) }
    ensures err { IfErr result (refused_as (λ e. e ≡ NoMemory)) }
{
    let mut found = Vec::new(alloc);
    'pairs: for pair in pairs {
        let key = match read_whole(alloc, pair.0.as_ref()) {
            Ok(key) => key,
            Err(e) => return Err(e),
        };
        let value = match read_whole(alloc, pair.1.as_ref()) {
            Ok(value) => value,
            Err(e) => return Err(e),
        };
        if let Err(e) = found.push((key, value)) {
            return Err(TypedError::Refused(e.into()));
        }
    }
    Ok(found)
}

// The bytes of a bound.
fn spelled_bound<K: Spelled>(alloc: Global, bound: Bound<&K>) -> Result<Bound<IVec>>
    ensures ok { IfOk result (λ made. made ≡ bound_bytes K.spelling (bound_at bound.entry)) }
    ensures err { IfErr result (λ e. e ≡ NoMemory) }
    ensures are_values { bounds_value K.spelling (bound_at bound.entry) }
{
    match bound {
        Bound::Included(key) => Ok(Bound::Included(key.spell(alloc)?)),
        Bound::Excluded(key) => Ok(Bound::Excluded(key.spell(alloc)?)),
        Bound::Unbounded => Ok(Bound::Unbounded),
    }
}

// The bytes of two bounds.
fn spelled_bounds<K: Spelled>(
    alloc: Global,
    lo: Bound<&K>,
    hi: Bound<&K>,
) -> Result<(Bound<IVec>, Bound<IVec>)>
    ensures lo { IfOk result (λ made. made.0 ≡ bound_bytes K.spelling (bound_at lo.entry)) }
    ensures hi { IfOk result (λ made. made.1 ≡ bound_bytes K.spelling (bound_at hi.entry)) }
    ensures err { IfErr result (λ e. e ≡ NoMemory) }
    ensures are_values { OnOk result (bounds_value K.spelling (bound_at lo.entry) × bounds_value K.spelling (bound_at hi.entry)) }
{
    let lo = match spelled_bound(alloc, lo) {
        Ok(lo) => lo,
        Err(e) => return Err(e),
    };
    match spelled_bound(alloc, hi) {
        Ok(hi) => Ok((lo, hi)),
        Err(e) => {
            drop(lo);
            Err(e)
        }
    }
}

/// The entries within two bounds, in the order of their keys. Refused as `Db::range` and what it gives are, for want of memory, or as
/// `Foreign` if a pair within the bounds spells no entry; what is outside them is not looked at.
pub fn walk<P: Pages, M: MergeOperator, K: Spelled, V: Spelled>(
    db: &Db<P, M>,
    tree: &Tree,
    lo: Bound<&K>,
    hi: Bound<&K>,
) -> TypedResult<Vec<(K, V)>>
    ensures ok { IfOk result (λ found. Walks K.spelling V.spelling (maps_of (db_state P.store M.meant db.now)) tree.now.name (bound_at lo.entry) (bound_at hi.entry) found.items) }
    ensures bytes { IfOk result (λ found. HasPairs P.store M.meant K.spelling V.spelling db.now tree.now (bound_at lo.entry) (bound_at hi.entry) found.items) }
    ensures foreign { IfErr result (λ e. e ≡ Foreign → IsForeign K.spelling V.spelling (maps_of (db_state P.store M.meant db.now)) tree.now.name) }
    ensures none { IfErr result (λ e. e ≡ Foreign → HasForeign P.store M.meant K.spelling V.spelling db.now tree.now (bound_at lo.entry) (bound_at hi.entry)) }
    ensures err { IfErr result (refused_as (RefusesListing P.store M.meant db.now tree.now)) }
{
    db.audit();
    let alloc = db.allocator();
    let (lo, hi) = match spelled_bounds(alloc, lo, hi) {
        Ok(bounds) => bounds,
        Err(e) => return Err(TypedError::Refused(e)),
    };
    let range = db.range(tree, lend_bound(&lo), lend_bound(&hi));
    drop(lo);
    drop(hi);
    let mut entries = match range {
        Ok(entries) => entries,
        Err(e) => return Err(TypedError::Refused(e)),
    };
    let pairs = all_of(alloc, &mut entries);
    drop(entries);
    let pairs = match pairs {
        Ok(pairs) => pairs,
        Err(e) => return Err(TypedError::Refused(e)),
    };
    let found = typed(alloc, pairs.as_slice());
    drop(pairs);
    found
}
