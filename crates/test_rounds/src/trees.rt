//! Calls of a caller on several trees.
use crate::caller::{Book, Way, name_of, outcome_of, tree_of, value_of};
use crate::scene::{Scene, scattered};
use sled::{
    Collection, IVec, Outcome, Pages, Reply, TransactionError, TransactionResult,
    TransactionalTrees, UnabortableTransactionResult,
};
use sled_nodes::Result;
use std::sync::Wait;
use std::sync::ledger::Ledger;

// So many pairs, as a number chooses.
fn pairs_of(scene: &Scene, choice: u64, count: u64) -> Result<Vec<(IVec, IVec)>> {
    let mut pairs = Vec::new(scene.plan.alloc);
    for turn in 0..count {
        let other = scattered(choice.wrapping_add(turn));
        let key = scene.bytes(&scene.plan.key(other))?;
        match scene.bytes(&value_of(other)) {
            Ok(value) => pairs.push((key, value))?,
            Err(e) => {
                drop(key);
                return Err(e);
            }
        }
    }
    Ok(pairs)
}

// A collection of up to three pairs for a tree, as a number chooses.
fn collection_of(scene: &Scene, choice: u64) -> Result<Collection> {
    let alloc = scene.plan.alloc;
    Ok((
        Vec::from_slice(alloc, b"tree")?,
        Vec::from_slice(alloc, name_of(choice))?,
        pairs_of(scene, choice, choice >> 40 & 3)?,
    ))
}

// One or two collections.
fn collections_of(scene: &Scene, choice: u64) -> Result<Vec<Collection>> {
    let mut collections = Vec::new(scene.plan.alloc);
    for turn in 0..1 + (choice >> 42 & 1) {
        let collection = collection_of(scene, scattered(choice.wrapping_add(turn)))?;
        collections.push(collection)?;
    }
    Ok(collections)
}

/// Imports trees.
pub fn import<L: Ledger, R: Wait>(
    rt: &R,
    scene: &Scene,
    way: &mut Way<L>,
    book: &mut Book,
    choice: u64,
) {
    let text = &mut book.text;
    match collections_of(scene, choice) {
        Ok(collections) => {
            scene.before(text);
            text.collections(b" import ", collections.as_slice());
            let answer = way.import(rt, collections);
            scene.ended(text, outcome_of(answer.map(|()| Reply::Done)));
        }
        Err(e) => {
            drop(e);
            text.cut();
        }
    }
}

/// The values at a key of two trees, each of which may be missing.
type Both = (Option<IVec>, Option<IVec>);

// Writes a value at a key of the tree at a position, or takes the key out.
fn put_at<P: Pages>(
    trees: &mut TransactionalTrees<'_, P>,
    position: usize,
    key: &[u8],
    value: &Option<IVec>,
) -> UnabortableTransactionResult<()> {
    match value {
        Some(value) => drop(trees.insert(position, key, value.as_ref())?),
        None => drop(trees.remove(position, key)?),
    }
    Ok(())
}

/// Gives each of two trees the value that the other has at a key, and flushes, if so.
pub fn exchange<L: Ledger, R: Wait>(
    rt: &R,
    scene: &Scene,
    way: &mut Way<L>,
    book: &mut Book,
    choice: u64,
) {
    let Book { text, side, .. } = book;
    let (one, other) = (&scene.tree, tree_of(scene, side, choice >> 2));
    let (key, flushes) = (scene.plan.key(choice >> 8), choice >> 40 & 3 == 0);
    scene.before(text);
    text.tree(b" exchange ", one);
    text.on(b" ", other, &key);
    text.text(if flushes { b" yes" } else { b" no" });
    let ended: TransactionResult<Both, u64> = way.transaction_all(rt, &[one, other], |both| {
        let first = both.get(0, &key)?;
        let second = both.get(1, &key)?;
        put_at(both, 0, &key, &second)?;
        put_at(both, 1, &key, &first)?;
        if flushes {
            both.flush();
        }
        Ok((first, second))
    });
    match ended {
        Ok(both) => {
            scene.after(text);
            text.both(&both.0, &both.1);
            drop(both);
        }
        Err(TransactionError::Abort(_)) => scene.ended(text, Outcome::Abandoned),
        Err(TransactionError::Storage(e)) => scene.ended(text, Outcome::Refused(e)),
    }
}

/// Takes an id inside a transaction, which writes it.
pub fn number_inside<L: Ledger, R: Wait>(
    rt: &R,
    scene: &Scene,
    way: &mut Way<L>,
    book: &mut Book,
    choice: u64,
) {
    let Book { text, side, .. } = book;
    let tree = tree_of(scene, side, choice);
    let key = scene.plan.key(choice >> 8);
    scene.before(text);
    text.on(b" id_inside ", tree, &key);
    let ended: TransactionResult<u64, u64> = way.transaction(rt, tree, |inside| {
        let id = inside.generate_id()?;
        inside.insert(&key, &id.to_be_bytes())?;
        Ok(id)
    });
    match ended {
        Ok(id) => scene.ended(text, Outcome::Decided(Reply::Number(id))),
        Err(TransactionError::Abort(_)) => scene.ended(text, Outcome::Abandoned),
        Err(TransactionError::Storage(e)) => scene.ended(text, Outcome::Refused(e)),
    }
}
