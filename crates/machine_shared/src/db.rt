//! A database that is shared.
ghost use Rattle.std.specs.Prelude.{◌≡◌, ◌+◌, ◌<◌, true, false, [], ◌∷◌, IfOk, IfErr, IfSome, OnOk, OnErr};
ghost use Rattle.sled_store.specs.Crash.{crash_states};
ghost use Rattle.sled_store.specs.Store.{now};
ghost use Rattle.tree_laws.specs.Contents.{trees_of};
ghost use Rattle.tree_pages.specs.Export.{collections};
ghost use Rattle.sled.specs.Export.{RefusesExport};
ghost use Rattle.sled.specs.Sound.{IsDb};
ghost use Rattle.machine_shared.specs.Gathered.{RefusesHandle};
ghost use Rattle.machine_shared.specs.Shared.{RefusesFlushed, WasFlushed, opening_of};

use crate::caller::Caller;
use crate::handle::Handle;
use crate::opening::Opening;
use crate::scans::Scans;
use crate::state::State;
use machine_alone::Machine;
use sled::Db as Owned;
use sled_model::MergeOperator;
use sled_nodes::texts::NUMBERS_USED_UP;
use sled_nodes::{Error, Result};
use sled_store::Pages;
use std::alloc::Global;
use std::marker::Model;
use std::sync::ledger::{Blank, Book, Ledger, Share};
use std::sync::{Arc, Mutex, Wait};

/// A database that several callers share: a machine under a lock, with the history of what they made. `L` marks the ledger that counts
/// their calls, a part for each caller and one that stays here.
pub struct Db<P: Pages, L: Ledger, M = Box<dyn MergeOperator + Send>> {
    pub(crate) lock: Arc<Mutex<Option<State<P, L, M>>>>,
    pub(crate) callers: u64,
    pub(crate) given: u64,
    // numbers up to this one are those of callers before
    pub(crate) before: u64,
    // the parts of the callers that have no handle, and one more
    pub(crate) rest: Share<L>,
    // what the state has as its own
    pub(crate) opening: Opening,
}

impl<P: Pages, L: Ledger, M> Model for Db<P, L, M> {
    ghost use Rattle.machine_shared.specs.Values.{SharedValue};

    ghost Value = { SharedValue };

    ghost use Rattle.machine_shared.specs.Sound.{HasParts};

    ghost view = { λ d. record { callers = d.callers; given = d.given; before = d.before; opening = d.opening } };

    ghost invariant = { λ d. HasParts d.callers d.given d.before d.rest.parts };
}

// The lock of a state.
type Lock<P, L, M> = Arc<Mutex<Option<State<P, L, M>>>>;

// The same opening, for one owner more, and a lock with nothing under it.
pub(crate) fn opening_and_lock<P: Pages, L: Ledger, M: MergeOperator>(
    alloc: Global,
    opening: &Opening,
) -> Option<(Opening, Lock<P, L, M>)>
    ensures { IfSome result (λ both. both.0 ≡ opening.now) }
{
    let opening = opening.again().ok()?;
    match Arc::new(alloc, Mutex::new(None)) {
        Ok(lock) => Some((opening, lock)),
        Err(failed) => {
            drop(failed);
            drop(opening);
            None
        }
    }
}

// What a database has, flushed or not, for two owners, and a lock with nothing under it.
fn openings_and_lock<P: Pages, L: Ledger, M: MergeOperator>(
    alloc: Global,
    db: &Owned<P, M>,
    flushed: bool,
) -> Result<(Opening, Opening, Lock<P, L, M>)>
    ensures opening { IfOk result (λ parts. parts.0 ≡ opening_of P.store flushed db.now) }
    ensures other { IfOk result (λ parts. parts.1 ≡ parts.0) }
    ensures open { OnOk result ((now (P.store db.now.pages)).in_group ≡ false) }
    ensures err { IfErr result (RefusesExport (P.store db.now.pages)) }
{
    let collections = db.export()?;
    let Ok(opening) = Opening::new(alloc, collections, flushed) else {
        return Err(Error::NoMemory);
    };
    match opening_and_lock(alloc, &opening) {
        Some((other, lock)) => Ok((opening, other, lock)),
        None => {
            drop(opening);
            Err(Error::NoMemory)
        }
    }
}

// The first state of a database, which began so.
fn first_state<P: Pages, L: Ledger, M: MergeOperator>(
    alloc: Global,
    db: Owned<P, M>,
    opening: Opening,
    calls: Book<L>,
    scans: Scans,
) -> State<P, L, M>
    requires sound { IsDb P.store db }
    requires open { (now (P.store db.pages)).in_group ≡ false }
    requires opening { opening.contents ≡ collections (trees_of (now (P.store db.pages))) db.trees }
    requires flushed { opening.flushed ≡ true → crash_states (P.store db.pages) ≡ now (P.store db.pages) ∷ [] }
    requires none { calls.total ≡ 0 }
    requires no_scans { scans.notes ≡ [] }
{
    let machine = Machine::new(db);
    State {
        machine,
        opening,
        history: Vec::new(alloc),
        calls,
        scans,
    }
}

impl<P: Pages, L: Ledger, M: MergeOperator> Db<P, L, M> {
    /// Shares a database among so many callers. Its ledger is the one that is handed in unopened, with a part for each caller and one more.
    /// It flushes nothing: until a flush a crash may leave what it might have left before. `new_flushed` flushes first. Refused as an export
    /// is, with the database given back as it was: with `Closed`, with `Io` if a page cannot be read, and with `NoMemory`. The blank is used
    /// up then too.
    ///
    /// ```
    /// let blank = machine_shared::Blank::new(3); // For two callers.
    /// let shared = machine_shared::Db::<MemPages, std::marker::Brand>::new(rt, alloc, db, blank, 2);
    /// ```
    pub fn new(
        rt: &impl Wait,
        alloc: Global,
        db: Owned<P, M>,
        blank: Blank,
        callers: u64,
    ) -> std::result::Result<Db<P, L, M>, (Owned<P, M>, Error)>
        requires name { blank.name ≡ L.name }
        requires parts { blank.parts ≡ L.parts }
        requires each { blank.parts ≡ callers + 1 }
        ensures ok { IfOk result (λ shared. shared ≡ record { callers = callers; given = 0; before = 0; opening = opening_of P.store false db }) }
        ensures open { OnOk result ((now (P.store db.pages)).in_group ≡ false) }
        ensures same { IfErr result (λ e. e.0 ≡ db) }
        ensures err { IfErr result (λ e. RefusesExport (P.store db.pages) e.1) }
    {
        Self::share(rt, alloc, db, blank, callers, false)
    }

    /// Shares a database as `new` does, but that what scans do is noted too, in a list of its own: [`State::scans`].
    ///
    /// ```text
    /// let blank = machine_shared::Blank::new(3); // For two callers.
    /// let shared = machine_shared::Db::<MemPages, std::marker::Brand>::new_noting_scans(rt, alloc, db, blank, 2);
    /// ```
    pub fn new_noting_scans(
        rt: &impl Wait,
        alloc: Global,
        db: Owned<P, M>,
        blank: Blank,
        callers: u64,
    ) -> std::result::Result<Db<P, L, M>, (Owned<P, M>, Error)>
        requires name { blank.name ≡ L.name }
        requires parts { blank.parts ≡ L.parts }
        requires each { blank.parts ≡ callers + 1 }
        ensures ok { IfOk result (λ shared. shared ≡ record { callers = callers; given = 0; before = 0; opening = opening_of P.store false db }) }
        ensures open { OnOk result ((now (P.store db.pages)).in_group ≡ false) }
        ensures same { IfErr result (λ e. e.0 ≡ db) }
        ensures err { IfErr result (λ e. RefusesExport (P.store db.pages) e.1) }
    {
        Self::share(rt, alloc, db, blank, callers, true)
    }

    // A database under its lock, with all that its sharing needs.
    fn placed(
        rt: &impl Wait,
        alloc: Global,
        db: Owned<P, M>,
        parts: (Opening, Opening, Lock<P, L, M>),
        blank: Blank,
        callers: u64,
        keeps_scans: bool,
    ) -> Db<P, L, M>
        requires name { blank.name ≡ L.name }
        requires parts { blank.parts ≡ L.parts }
        requires each { blank.parts ≡ callers + 1 }
        requires sound { IsDb P.store db }
        requires open { (now (P.store db.pages)).in_group ≡ false }
        requires opening { parts.0.contents ≡ collections (trees_of (now (P.store db.pages))) db.trees }
        requires other { parts.1 ≡ parts.0 }
        requires flushed { parts.0.flushed ≡ true → crash_states (P.store db.pages) ≡ now (P.store db.pages) ∷ [] }
        ensures { result ≡ record { callers = callers; given = 0; before = 0; opening = parts.0 } }
    {
        let (opening, other, lock) = parts;
        let (calls, rest) = blank.open::<L>();
        let scans = Scans::new(alloc, keeps_scans);
        fill(rt, &lock, first_state(alloc, db, opening, calls, scans));
        Db {
            lock,
            callers,
            given: 0,
            before: 0,
            rest,
            opening: other,
        }
    }

    // The same, and whether what scans do is noted.
    fn share(
        rt: &impl Wait,
        alloc: Global,
        db: Owned<P, M>,
        blank: Blank,
        callers: u64,
        keeps_scans: bool,
    ) -> std::result::Result<Db<P, L, M>, (Owned<P, M>, Error)>
        requires name { blank.name ≡ L.name }
        requires parts { blank.parts ≡ L.parts }
        requires each { blank.parts ≡ callers + 1 }
        ensures ok { IfOk result (λ shared. shared ≡ record { callers = callers; given = 0; before = 0; opening = opening_of P.store false db }) }
        ensures open { OnOk result ((now (P.store db.pages)).in_group ≡ false) }
        ensures same { IfErr result (λ e. e.0 ≡ db) }
        ensures err { IfErr result (λ e. RefusesExport (P.store db.pages) e.1) }
    {
        let (opening, other, lock) = match openings_and_lock(alloc, &db, false) {
            Ok(parts) => parts,
            Err(e) => {
                drop(blank);
                return Err((db, e));
            }
        };
        db.audit();
        Ok(Self::placed(
            rt,
            alloc,
            db,
            (opening, other, lock),
            blank,
            callers,
            keeps_scans,
        ))
    }

    /// Flushes a database and shares it, as `new` does, noting what scans do if `notes_scans` is true, as `new_noting_scans`. So no crash
    /// goes back behind what the database has now: what it may leave begins with that, and goes on as the history does, from the last flush
    /// on. A state that `gather` or `reclaim` returns says so. Refused as an export is, with the database given back as it was; and as a
    /// flush is: then nothing is flushed, and the store may have counted a fault. The blank is used up then too.
    ///
    /// ```text
    /// let blank = machine_shared::Blank::new(3); // For two callers.
    /// let shared = machine_shared::Db::<MemPages, std::marker::Brand>::new_flushed(rt, alloc, db, blank, 2, false);
    /// ```
    pub fn new_flushed(
        rt: &impl Wait,
        alloc: Global,
        db: Owned<P, M>,
        blank: Blank,
        callers: u64,
        notes_scans: bool,
    ) -> std::result::Result<Db<P, L, M>, (Owned<P, M>, Error)>
        requires name { blank.name ≡ L.name }
        requires parts { blank.parts ≡ L.parts }
        requires each { blank.parts ≡ callers + 1 }
        ensures ok { IfOk result (λ shared. shared ≡ record { callers = callers; given = 0; before = 0; opening = opening_of P.store true db }) }
        ensures open { OnOk result ((now (P.store db.pages)).in_group ≡ false) }
        ensures flushes { OnOk result (WasFlushed P.store P.flush_number M.meant db) }
        ensures err { IfErr result (λ e. RefusesFlushed P.store M.meant db e.0 e.1) }
    {
        let mut db = db;
        let (opening, other, lock) = match openings_and_lock(alloc, &db, true) {
            Ok(parts) => parts,
            Err(e) => {
                drop(blank);
                return Err((db, e));
            }
        };
        db.audit();
        if let Err(e) = db.flush() {
            drop(opening);
            drop(other);
            drop(lock);
            drop(blank);
            return Err((db, e));
        }
        Ok(Self::placed(
            rt,
            alloc,
            db,
            (opening, other, lock),
            blank,
            callers,
            notes_scans,
        ))
    }

    /// A handle for one caller more, whose number is the next, from 1 or above the greatest in the history that was shared. Refused with
    /// `Unsupported` (`numbers used up`) if all callers have one, and with `NoMemory`; nothing changes then.
    ///
    /// ```
    /// let one = shared.handle(alloc)?; // For one thread,
    /// let two = shared.handle(alloc)?; // and for another.
    /// ```
    pub fn handle(&mut self, alloc: Global) -> Result<Handle<P, L, M>>
        ensures ok { IfOk result (λ h. h ≡ record { number = self.old.before + (self.old.given + 1); made = [] }) }
        ensures next { OnOk result (self.new ≡ record (self.old) { given = self.old.given + 1 }) }
        ensures all { OnOk result (self.old.given < self.old.callers) }
        ensures err { OnErr result (self.new ≡ self.old) }
        ensures cause { IfErr result (RefusesHandle self.old) }
    {
        if self.given == self.callers {
            return Err(Error::Unsupported(NUMBERS_USED_UP));
        }
        let Ok(lock) = Arc::try_clone(&self.lock) else {
            return Err(Error::NoMemory);
        };
        let share = self.rest.split_off(1, 0);
        self.given += 1;
        let me = Caller::new(Vec::new(alloc), self.before + self.given, share);
        Ok(Handle::new(lock, me))
    }
}

// Puts a state under its lock.
pub(crate) fn fill<P: Pages, L: Ledger, M: MergeOperator>(
    rt: &impl Wait,
    lock: &Mutex<Option<State<P, L, M>>>,
    state: State<P, L, M>,
) {
    let mut guard = lock.lock(rt);
    let old = std::mem::replace(&mut *guard, Some(state));
    drop(old);
    drop(guard);
}

// By hand, as a state's.
impl<P: Pages, L: Ledger, M: Drop> Drop for Db<P, L, M> {
    fn drop(self) {
        let Db {
            lock,
            callers: _,
            given: _,
            before: _,
            rest,
            opening,
        } = self;
        drop(lock);
        drop(rest);
        drop(opening);
    }
}
