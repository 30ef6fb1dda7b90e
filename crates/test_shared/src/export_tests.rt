//! What a handle exports, imported into another database, is there again.
ghost use Rattle.std.specs.Prelude.{◌≡◌};

use crate::beside::{Fresh, gathered, is_done, new_database, require, share};
use sled_machine::shared::Blank;
use std::alloc::Global;
use std::marker::Brand;
use std::process::Abort;
use std::sync::Wait;
use std::sync::ledger::Ledger;

// Puts two pairs into a tree of its own, and one into the tree that is there from the beginning.
fn fill<R: Abort>(rt: &R, db: &mut Fresh) {
    let tree = db.open_tree(b"t").expect(rt, "a tree");
    let both = is_done(db.insert(&tree, b"a", b"1")) && is_done(db.insert(&tree, b"b", b"2"));
    drop(tree);
    let tree = db.default_tree().expect(rt, "a tree");
    let last = is_done(db.insert(&tree, b"a", b"3"));
    drop(tree);
    require(rt, both && last, "memory");
}

fn export_and_import<L: Ledger, R: Wait + Abort>(rt: &R, alloc: Global, db: Fresh, blank: Blank)
where
    requires name { blank.name ≡ L.name }
    requires parts { blank.parts ≡ L.parts }
    requires each { blank.parts ≡ 2 }
{
    let mut shared = share::<L, R>(rt, alloc, db, blank, 1, false, false);
    let mut one = shared.handle(alloc).expect(rt, "a handle");
    let all = one.export(rt).expect(rt, "all pairs");
    let mut other = new_database(rt, alloc);
    require(rt, is_done(other.import(all.as_slice())), "an import");
    let again = other.export().expect(rt, "memory");
    let same = again.len() == 2 && again.as_slice() == all.as_slice();
    require(rt, same, "the same trees with the same pairs");
    drop(again);
    drop(other.into_pages());
    drop(all);
    let handles = vec![in alloc; one].expect(rt, "memory");
    drop(gathered(rt, shared, handles));
}

// From a new database.
fn export_all<R: Wait + Abort>(rt: &R, alloc: Global) {
    let mut db = new_database(rt, alloc);
    fill(rt, &mut db);
    export_and_import::<Brand, R>(rt, alloc, db, Blank::new(2));
}

#[test]
fn what_is_exported_is_imported(rt: HostRuntime) {
    export_all(&rt, rt.alloc());
}
