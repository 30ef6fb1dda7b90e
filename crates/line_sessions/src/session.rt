//! A session: a database from its opening to a crash or the end.
ghost use Rattle.std.specs.Prelude.{◌≡◌, ◌-◌, ◌^◌, ◌++◌, [], ◌∷◌, false, length, map, min, sum_by, Option, IfOk, IfErr, OnOk, OnErr};
ghost use Rattle.std.specs.Option.{option_copied};
ghost use Rattle.std.specs.List.{flat_map};
ghost use Rattle.sled_nodes.specs.Order.{Key};
ghost use Rattle.sled_store.specs.Store.{now};
ghost use Rattle.sled_model.specs.declared.call.Whole.TheVariants.{Flush, OpenTree};
ghost use Rattle.sled_model.specs.declared.outcome.Step.TheVariants as step;
ghost use Rattle.sled_model.specs.declared.outcome.Outcome.TheVariants.{Decided};
ghost use Rattle.tree_laws.specs.Crashes.{IsValid, IsCrashConsistent};
ghost use Rattle.sled.specs.Operators.{OperatorSet, OperatorNotSet};
ghost use Rattle.sled.specs.Fetch.{Stands, FetchDecided, FetchRefused};
ghost use Rattle.sled.specs.Transactions.{CanTransact, TransactionMade, TransactionNotMade, CanTransactAll, ListMade, ListNotMade, trees_of_list};
ghost use Rattle.machine_alone.specs.Step.{MachineStepContract};
ghost use Rattle.machine_alone.specs.Run.{MachineRun, MachineSteps};
ghost use Rattle.machine_alone.specs.Finish.{Completes};
ghost use Rattle.sled.specs.Calls.{IsHandle, RefusesHandle};
ghost use Rattle.sled_model.specs.State.{default_name, IsOnKey};
ghost use Rattle.line_words.specs.Print.{shown_of, shown_of_whole, outcome_line, pair_line, collection_lines, dump_text, Prints};
ghost use Rattle.line_words.specs.declared.command.Command.TheVariants as command;
ghost use Rattle.line_words.specs.declared.print.Shown.{Shown};
ghost use Rattle.line_words.specs.declared.print.Shown.TheVariants as shown;
ghost use Rattle.line_sessions.specs.declared.session.Act.TheVariants as act;
ghost use Rattle.line_sessions.specs.Session.{slot_at, turns_at, begins_as, acts_at, AppliesBatch, CanRun, opened_or, Obeys};
ghost use Rattle.line_sessions.specs.theory.Session.{ActsAndShows, Shows};

use line_words::command::Command;
use line_words::input::Stopped;
use line_words::print::{Shown, push_end, push_outcome, push_pair};
use machine_alone::Machine;
use sled::{Collection, Db, TransactionAnswer, TransactionalTree, TransactionalTrees};
use sled_batch::Batch;
use sled_model::{Call, MergeOperator, Outcome, Reply, Slot, Step, Tree, Whole};
use sled_nodes::{Error, IVec};
use sled_pages::MemPages;
use sled_store::Pages;
use std::alloc::{AllocError, Global};
use std::io::Write;

// So many bytes of lines are gathered before they are written.
const GATHERED: usize = 4096;

/// What is done with a call in flight.
#[derive(Clone, Copy)]
pub enum Act {
    /// One step.
    Step,
    /// All steps to its end, or of a scan to its next pair.
    Finish,
    /// It is abandoned.
    Abandon,
}

/// A machine, the current tree, and the slots that the lines began.
pub struct Session<P: Pages = MemPages, M = Box<dyn MergeOperator + Send>> {
    machine: Machine<P, M>,
    tree: Tree,
    // The slot that each `begin` took, in order, and what the value in its reply is.
    slots: Vec<(Slot, Shown)>,
}

// By hand, so that each function that drops a session cites this, and does not prove again how its parts are dropped.
impl<P: Pages, M: Drop> Drop for Session<P, M> {
    fn drop(self) {
        let Session {
            machine,
            tree,
            slots,
        } = self;
        drop(machine);
        drop(tree);
        drop(slots);
    }
}

impl<P: Pages, M: MergeOperator> Session<P, M> {
    /// A session over a database, whose default tree is current. If that is refused it gives the pages back.
    pub fn over(alloc: Global, db: Db<P, M>) -> Result<Session<P, M>, (P, Error)>
        ensures whole { IfErr result (λ e. IsCrashConsistent (P.store e.0)) }
        ensures well { IfErr result (λ e. IsValid (now (P.store e.0))) }
        ensures pages { IfErr result (λ e. e.0 ≡ db.pages) }
        ensures cause { IfErr result (λ e. RefusesHandle (P.store db.pages) e.1) }
        ensures no_group { OnOk result ((now (P.store db.pages)).in_group ≡ false) }
        ensures db { IfOk result (λ s. s.machine.db ≡ db) }
        ensures tree { IfOk result (λ s. IsHandle db default_name s.tree) }
        ensures flights { IfOk result (λ s. s.machine.flights ≡ []) }
        ensures given { IfOk result (λ s. s.machine.slots_given ≡ 0) }
        ensures slots { IfOk result (λ s. s.slots.items ≡ []) }
    {
        match db.default_tree() {
            Ok(tree) => Ok(Session {
                machine: Machine::new(db),
                tree,
                slots: Vec::new(alloc),
            }),
            Err(e) => Err((db.into_pages(), e)),
        }
    }

    /// A session over a database, in which this tree is current.
    pub fn with_tree(alloc: Global, db: Db<P, M>, tree: Tree) -> Session<P, M>
        ensures db { result.machine.db ≡ db }
        ensures tree { result.tree ≡ tree }
        ensures flights { result.machine.flights ≡ [] }
        ensures given { result.machine.slots_given ≡ 0 }
        ensures slots { result.slots.items ≡ [] }
    {
        Session {
            machine: Machine::new(db),
            tree,
            slots: Vec::new(alloc),
        }
    }

    /// The database.
    pub fn db(&self) -> &Db<P, M>
        ensures { result.now ≡ self.now.machine.db }
    {
        self.machine.db()
    }

    /// The current tree.
    pub fn tree(&self) -> &Tree
        ensures { result.now ≡ self.now.tree }
    {
        &self.tree
    }

    /// Makes a tree current, whether or not the database has it.
    pub fn set_tree(&mut self, tree: Tree)
        ensures { self.new ≡ record self.old { tree = tree } }
    {
        let old = std::mem::replace(&mut self.tree, tree);
        drop(old);
    }

    /// The database and the current tree. The calls in flight are abandoned.
    pub fn into_parts(self) -> (Db<P, M>, Tree)
        ensures db { result.0 ≡ self.machine.db }
        ensures tree { result.1 ≡ self.tree }
    {
        let Session {
            machine,
            tree,
            slots,
        } = self;
        drop(slots);
        (machine.into_db(), tree)
    }

    /// The database. The calls in flight are abandoned.
    pub fn into_db(self) -> Db<P, M>
        ensures { result ≡ self.machine.db }
    {
        let (db, tree) = self.into_parts();
        drop(tree);
        db
    }

    /// How often the call of this number went on so far, if it is in flight.
    pub fn turns(&self, number: u64) -> Option<u64>
        ensures { result ≡ turns_at self.now.machine (slot_at self.now.slots.items number) }
    {
        let (slot, _) = self.slot(number)?;
        self.machine.turns(slot)
    }

    // The slot that the `begin` of this number took, and what the value in its reply is.
    fn slot(&self, number: u64) -> Option<(Slot, Shown)>
        ensures { result ≡ slot_at self.now.slots.items number }
    {
        let place = usize::try_from(number.checked_sub(1)?).ok()?;
        self.slots.get(place).copied()
    }

    /// A call on a key of the current tree from its begin to its end.
    pub fn complete(&mut self, call: Call) -> Outcome
        requires { IsOnKey call }
        ensures completes { Completes P.store P.flush_number M.meant self.old.machine self.old.tree call result self.new.machine }
        ensures tree { self.new.tree ≡ self.old.tree }
        ensures slots { self.new.slots ≡ self.old.slots }
    {
        self.machine.complete(&self.tree, call)
    }

    /// A step of the call of this number.
    pub fn step(&mut self, number: u64) -> Outcome
        ensures acts { (shown : Shown) × acts_at P.store P.flush_number M.meant self.old.machine act.Step (slot_at self.old.slots.items number) shown result self.new.machine }
        ensures tree { self.new.tree ≡ self.old.tree }
        ensures slots { self.new.slots ≡ self.old.slots }
    {
        self.act(number, Act::Step).1
    }

    /// Makes all durable.
    pub fn flush(&mut self) -> Outcome
        ensures reaches { MachineStepContract P.store P.flush_number M.meant self.old.machine (step.Whole Flush) result self.new.machine }
        ensures tree { self.new.tree ≡ self.old.tree }
        ensures slots { self.new.slots ≡ self.old.slots }
    {
        self.whole(Whole::Flush)
    }

    /// A whole call, in one step.
    pub fn whole(&mut self, whole: Whole) -> Outcome
        ensures reaches { MachineStepContract P.store P.flush_number M.meant self.old.machine (step.Whole whole) result self.new.machine }
        ensures tree { self.new.tree ≡ self.old.tree }
        ensures slots { self.new.slots ≡ self.old.slots }
    {
        self.machine.whole(whole)
    }

    /// Makes the writes of a batch in the current tree, all or none; and what the value in its reply is.
    pub fn apply_batch(&mut self, batch: Batch) -> Result<(Shown, Outcome), Stopped>
        ensures applies { IfOk result (λ told. AppliesBatch P.store P.flush_number M.meant self.old.machine self.old.tree batch told.1 self.new.machine) }
        ensures shown { IfOk result (λ told. told.0 ≡ shown.Value) }
        ensures err { OnErr result (self.new.machine ≡ self.old.machine) }
        ensures tree { self.new.tree ≡ self.old.tree }
        ensures slots { self.new.slots ≡ self.old.slots }
    {
        let group = group_of(*self.slots.allocator(), &self.tree, batch)?;
        Ok(self.whole_shown(Whole::Group(group)))
    }

    /// Gives the current tree a merge operator.
    pub fn set_merge_operator(&mut self, operator: M) -> sled_nodes::Result<()>
        ensures ok { OnOk result (OperatorSet P.store M.meant self.old.machine.db self.old.tree (M.meant operator) self.new.machine.db) }
        ensures err { IfErr result (λ e. OperatorNotSet P.store M.meant self.old.machine.db self.old.tree e self.new.machine.db) }
        ensures tree { self.new.tree ≡ self.old.tree }
        ensures slots { self.new.slots ≡ self.old.slots }
    {
        self.machine.set_merge_operator(&self.tree, operator)
    }

    /// Sets the value at a key of the current tree to what the closure makes of it, and answers the new value.
    pub fn update_and_fetch<F>(&mut self, key: &[u8], f: F) -> sled_nodes::Result<Option<IVec>>
    where
        F: FnMut(Option<&[u8]>) -> Result<Option<Vec<u8>>, AllocError>,
        requires { (stood : Option Key) → Stands P.store M.meant self.old.machine.db self.old.tree key.now stood → (shown : _) → option_copied shown ≡ stood → F.pre f shown }
        ensures ok { IfOk result (λ made. (stood : Option Key) × FetchDecided P.store M.meant F.FnMut f self.old.machine.db self.old.tree key.now stood made self.new.machine.db) }
        ensures err { IfErr result (λ e. FetchRefused P.store M.meant F.FnMut f self.old.machine.db self.old.tree key.now e self.new.machine.db) }
        ensures same { self.new.machine ≡ record (self.old.machine) { db = self.new.machine.db } }
        ensures tree { self.new.tree ≡ self.old.tree }
        ensures slots { self.new.slots ≡ self.old.slots }
    {
        self.machine.update_and_fetch(&self.tree, key, f)
    }

    /// The same, but that it answers the value that was there before.
    pub fn fetch_and_update<F>(&mut self, key: &[u8], f: F) -> sled_nodes::Result<Option<IVec>>
    where
        F: FnMut(Option<&[u8]>) -> Result<Option<Vec<u8>>, AllocError>,
        requires { (stood : Option Key) → Stands P.store M.meant self.old.machine.db self.old.tree key.now stood → (shown : _) → option_copied shown ≡ stood → F.pre f shown }
        ensures ok { IfOk result (λ stood. (made : Option Key) × FetchDecided P.store M.meant F.FnMut f self.old.machine.db self.old.tree key.now stood made self.new.machine.db) }
        ensures err { IfErr result (λ e. FetchRefused P.store M.meant F.FnMut f self.old.machine.db self.old.tree key.now e self.new.machine.db) }
        ensures same { self.new.machine ≡ record (self.old.machine) { db = self.new.machine.db } }
        ensures tree { self.new.tree ≡ self.old.tree }
        ensures slots { self.new.slots ≡ self.old.slots }
    {
        self.machine.fetch_and_update(&self.tree, key, f)
    }

    /// Runs a closure as a transaction of the current tree.
    pub fn transaction<A: Drop, E, R: TransactionAnswer<A, E>, F>(&mut self, f: F) -> R::Ended
    where
        F: Fn(&mut TransactionalTree<'_, P>) -> R,
        requires { CanTransact P.store M.meant (F.pre f) self.old.machine.db self.old.tree }
        ensures ok { IfOk (R.answer_of result) (λ answer. TransactionMade P.store P.flush_number M.meant F.Fn R.result_of f self.old.machine.db self.old.tree answer self.new.machine.db) }
        ensures err { IfErr (R.answer_of result) (λ e. TransactionNotMade P.store P.flush_number M.meant F.Fn R.result_of f self.old.machine.db self.old.tree e self.new.machine.db) }
        ensures same { self.new.machine ≡ record (self.old.machine) { db = self.new.machine.db } }
        ensures tree { self.new.tree ≡ self.old.tree }
        ensures slots { self.new.slots ≡ self.old.slots }
    {
        self.machine.transaction(&self.tree, f)
    }

    /// Runs a closure as a transaction of several trees.
    pub fn transaction_all<A: Drop, E, R: TransactionAnswer<A, E>, F>(
        &mut self,
        trees: &[&Tree],
        f: F,
    ) -> R::Ended
    where
        F: Fn(&mut TransactionalTrees<'_, P>) -> R,
        requires { CanTransactAll P.store M.meant (F.pre f) self.old.machine.db (trees_of_list trees.now) }
        ensures ok { IfOk (R.answer_of result) (λ answer. ListMade P.store P.flush_number M.meant F.Fn R.result_of f self.old.machine.db (trees_of_list trees.now) answer self.new.machine.db) }
        ensures err { IfErr (R.answer_of result) (λ e. ListNotMade P.store P.flush_number M.meant F.Fn R.result_of f self.old.machine.db (trees_of_list trees.now) e self.new.machine.db) }
        ensures same { self.new.machine ≡ record (self.old.machine) { db = self.new.machine.db } }
        ensures tree { self.new.tree ≡ self.old.tree }
        ensures slots { self.new.slots ≡ self.old.slots }
    {
        self.machine.transaction_all(trees, f)
    }

    /// Does a list of steps. They name slots by the machine's numbers.
    pub fn perform(&mut self, steps: &[Step]) -> sled_nodes::Result<Vec<Outcome>>
        ensures ok { IfOk result (λ outcomes. MachineRun P.store P.flush_number M.meant self.old.machine steps.now outcomes.items self.new.machine) }
        ensures each { IfOk result (λ outcomes. MachineSteps P.store P.flush_number M.meant self.old.machine steps.now outcomes.items self.new.machine) }
        ensures err { OnErr result (self.new.machine ≡ self.old.machine) }
        ensures tree { self.new.tree ≡ self.old.tree }
        ensures slots { self.new.slots ≡ self.old.slots }
    {
        self.machine.run(steps)
    }

    /// A call on a key from its begin to its end, and what the value in its reply is.
    pub fn point(&mut self, call: Call) -> (Shown, Outcome)
        requires { IsOnKey call }
        ensures shown { result.0 ≡ shown_of call }
        ensures completes { Completes P.store P.flush_number M.meant self.old.machine self.old.tree call result.1 self.new.machine }
        ensures tree { self.new.tree ≡ self.old.tree }
        ensures slots { self.new.slots ≡ self.old.slots }
    {
        (Shown::of(&call), self.complete(call))
    }

    // A whole call, and what the value or the number in its reply is.
    fn whole_shown(&mut self, whole: Whole) -> (Shown, Outcome)
        ensures shown { result.0 ≡ shown_of_whole whole }
        ensures reaches { MachineStepContract P.store P.flush_number M.meant self.old.machine (step.Whole whole) result.1 self.new.machine }
        ensures tree { self.new.tree ≡ self.old.tree }
        ensures slots { self.new.slots ≡ self.old.slots }
    {
        (Shown::of_whole(&whole), self.whole(whole))
    }

    // The tree of a reply that has one becomes the current one.
    fn follow_reply(&mut self, reply: Reply)
        ensures { self.new ≡ record self.old { tree = opened_or self.old.tree (Decided reply) } }
    {
        match reply {
            Reply::Tree(tree) => self.set_tree(tree),
            other => drop(other),
        }
    }

    // The tree that was opened, if one was, becomes the current one.
    fn follow(&mut self, outcome: Outcome)
        ensures { self.new ≡ record self.old { tree = opened_or self.old.tree outcome } }
    {
        match outcome {
            Outcome::Decided(reply) => self.follow_reply(reply),
            other => drop(other),
        }
    }

    // Opens the tree of a name, which becomes the current one, and adds the line of how that came out.
    fn open_tree(&mut self, name: IVec, out: &mut Vec<u8>) -> Result<(), Stopped>
        ensures { OnOk result (Shows P.store P.flush_number M.meant self.old (command.OpenTree name) self.new out.old.items out.new.items) }
    {
        let (shown, outcome) = self.whole_shown(Whole::OpenTree(name));
        let pushed = push_outcome(out, shown, &outcome);
        self.follow(outcome);
        Ok(pushed?)
    }

    /// A call takes a slot, which is printed by its number among those that lines began.
    pub fn begin(&mut self, call: Call) -> Result<(Shown, Outcome), Stopped>
        ensures begins { IfOk result (λ told. begins_as P.store P.flush_number M.meant self.old.machine self.old.tree call self.old.slots.items told.1 self.new.slots.items self.new.machine) }
        ensures shown { IfOk result (λ told. told.0 ≡ shown_of call) }
        ensures err { OnErr result (self.new.machine ≡ self.old.machine) }
        ensures kept { OnErr result (self.new.slots.items ≡ self.old.slots.items) }
        ensures tree { self.new.tree ≡ self.old.tree }
    {
        let shown = Shown::of(&call);
        if self.slots.reserve(1).is_err() {
            drop(call);
            return Err(Stopped);
        }
        let outcome = match self.machine.begin(&self.tree, call) {
            Ok(slot) => {
                self.slots.push((slot, shown))?;
                Outcome::Begun(Slot(self.slots.len() as u64))
            }
            Err(error) => Outcome::Refused(error),
        };
        Ok((shown, outcome))
    }

    /// Does something with the call in the slot of this number; and what the value in its reply is.
    pub fn act(&mut self, number: u64, act: Act) -> (Shown, Outcome)
        ensures acts { acts_at P.store P.flush_number M.meant self.old.machine act (slot_at self.old.slots.items number) result.0 result.1 self.new.machine }
        ensures tree { self.new.tree ≡ self.old.tree }
        ensures slots { self.new.slots ≡ self.old.slots }
    {
        let Some((slot, shown)) = self.slot(number) else {
            return (Shown::Value, Outcome::NoSuchSlot);
        };
        let outcome = match act {
            Act::Step => self.machine.step(slot),
            Act::Finish => self.machine.finish(slot),
            Act::Abandon => self.machine.abandon(slot),
        };
        (shown, outcome)
    }

    // The same, and adds the line of how that came out.
    fn act_and_show(&mut self, number: u64, act: Act, out: &mut Vec<u8>) -> Result<(), Stopped>
        ensures { OnOk result (ActsAndShows P.store P.flush_number M.meant self.old act number self.new out.old.items out.new.items) }
    {
        show(out, self.act(number, act))
    }

    // A call on a key from its begin to its end, and adds the line of how that came out.
    fn point_and_show(&mut self, call: Call, out: &mut Vec<u8>) -> Result<(), Stopped>
        requires { IsOnKey call }
        ensures { OnOk result (Shows P.store P.flush_number M.meant self.old (command.Point call) self.new out.old.items out.new.items) }
    {
        show(out, self.point(call))
    }

    // A call takes a slot, and the line of how that came out is added.
    fn begin_and_show(&mut self, call: Call, out: &mut Vec<u8>) -> Result<(), Stopped>
        ensures { OnOk result (Shows P.store P.flush_number M.meant self.old (command.Begin call) self.new out.old.items out.new.items) }
    {
        let told = self.begin(call)?;
        show(out, told)
    }

    // Makes the writes of a batch, and adds the line of how that came out.
    fn apply_and_show(&mut self, batch: Batch, out: &mut Vec<u8>) -> Result<(), Stopped>
        ensures { OnOk result (Shows P.store P.flush_number M.meant self.old (command.Batch batch) self.new out.old.items out.new.items) }
    {
        let told = self.apply_batch(batch)?;
        show(out, told)
    }

    // Prints all pairs.
    fn dump<W: Write>(&self, output: &mut W, out: &mut Vec<u8>) -> Result<(), Stopped>
        ensures { OnOk result (Obeys P.store P.flush_number M.meant self.now command.Dump self.now (W.contents output.old) out.old.items (W.contents output.new) out.new.items) }
    {
        match self.machine.db().export() {
            Ok(trees) => write_trees(output, out, trees.as_slice()),
            Err(error) => show(out, (Shown::Value, Outcome::Refused(error))),
        }
    }

    /// Runs a command, and adds what it prints; of many lines the first ones are written already. A crash ends the session,
    /// so it is not for this call, which passes it over.
    pub fn run<W: Write>(
        &mut self,
        command: Command,
        output: &mut W,
        out: &mut Vec<u8>,
    ) -> Result<(), Stopped>
        requires { CanRun command }
        ensures { OnOk result (Obeys P.store P.flush_number M.meant self.old command self.new (W.contents output.old) out.old.items (W.contents output.new) out.new.items) }
    {
        match command {
            Command::Point(call) => self.point_and_show(call, out),
            Command::Begin(call) => self.begin_and_show(call, out),
            Command::Step(number) => self.act_and_show(number, Act::Step, out),
            Command::Finish(number) => self.act_and_show(number, Act::Finish, out),
            Command::Abandon(number) => self.act_and_show(number, Act::Abandon, out),
            Command::Batch(batch) => self.apply_and_show(batch, out),
            Command::Flush => show(out, self.whole_shown(Whole::Flush)),
            Command::Crash(_) => Ok(()),
            Command::Dump => self.dump(output, out),
            Command::OpenTree(name) => self.open_tree(name, out),
        }
    }
}

// The group of one batch on a tree.
fn group_of(alloc: Global, tree: &Tree, batch: Batch) -> Result<Vec<(Tree, Batch)>, Stopped>
    ensures { IfOk result (λ group. group.items ≡ (tree.now, batch) ∷ []) }
{
    let tree = match tree.clone() {
        Ok(tree) => tree,
        Err(e) => {
            drop(batch);
            return Err(Stopped::from(e));
        }
    };
    let mut group = Vec::new(alloc);
    group.push((tree, batch))?;
    Ok(group)
}

// Adds the line of an outcome.
fn show(out: &mut Vec<u8>, told: (Shown, Outcome)) -> Result<(), Stopped>
    ensures { OnOk result (out.new.items ≡ out.old.items ++ outcome_line told.0 told.1) }
{
    let (shown, outcome) = told;
    let pushed = push_outcome(out, shown, &outcome);
    drop(outcome);
    Ok(pushed?)
}

/// Writes the lines that were gathered.
pub fn write<W: Write>(output: &mut W, out: &mut Vec<u8>) -> Result<(), Stopped>
    ensures prints { OnOk result (Prints (W.contents output.old) out.old.items (W.contents output.new) out.new.items []) }
    ensures written { OnOk result (out.new.items ≡ []) }
{
    output.write_all(out.as_slice())?;
    out.clear();
    Ok(())
}

// Adds the line of a pair, and writes the lines if many were gathered.
fn write_pair<W: Write>(
    output: &mut W,
    out: &mut Vec<u8>,
    tree: &[u8],
    pair: &(IVec, IVec),
) -> Result<(), Stopped>
    ensures { OnOk result (Prints (W.contents output.old) out.old.items (W.contents output.new) out.new.items (pair_line tree.now pair.now.0 pair.now.1)) }
{
    push_pair(out, tree, pair.0.as_ref(), pair.1.as_ref())?;
    if out.len() < GATHERED {
        return Ok(());
    }
    write(output, out)
}

// Adds the lines of a tree's pairs.
fn write_pairs<W: Write>(
    output: &mut W,
    out: &mut Vec<u8>,
    tree: &[u8],
    pairs: &[(IVec, IVec)],
) -> Result<(), Stopped>
    ensures { OnOk result (Prints (W.contents output.old) out.old.items (W.contents output.new) out.new.items (flat_map (λ pair. pair_line tree.now pair.0 pair.1) pairs.now)) }
{
    for pair in pairs {
        write_pair(output, out, tree, pair)?;
    }
    Ok(())
}

// Adds the lines of a collection's pairs.
fn write_collection<W: Write>(
    output: &mut W,
    out: &mut Vec<u8>,
    tree: &Collection,
) -> Result<(), Stopped>
    ensures { OnOk result (Prints (W.contents output.old) out.old.items (W.contents output.new) out.new.items (collection_lines (tree.now.0.items, tree.now.1.items, tree.now.2.items))) }
{
    write_pairs(output, out, tree.1.as_slice(), tree.2.as_slice())
}

// Adds the lines of all pairs.
fn write_collections<W: Write>(
    output: &mut W,
    out: &mut Vec<u8>,
    trees: &[Collection],
) -> Result<(), Stopped>
    ensures { OnOk result (Prints (W.contents output.old) out.old.items (W.contents output.new) out.new.items (flat_map (λ c. collection_lines (c.0.items, c.1.items, c.2.items)) trees.now)) }
{
    for tree in trees {
        write_collection(output, out, tree)?;
    }
    Ok(())
}

// How many pairs there are; a count past 64 bits stops at the greatest number.
fn count_pairs(trees: &[Collection]) -> u64
    ensures { result ≡ min (sum_by (λ c. length c.2.items) trees.now) (2 ^ 64 - 1) }
{
    let mut count = 0u64;
    for tree in trees {
        count = count.saturating_add(tree.2.len() as u64);
    }
    count
}

/// Adds the lines of all pairs, and of how many there are; of many lines the first ones are written already.
pub fn write_trees<W: Write>(
    output: &mut W,
    out: &mut Vec<u8>,
    trees: &[Collection],
) -> Result<(), Stopped>
    ensures { OnOk result (Prints (W.contents output.old) out.old.items (W.contents output.new) out.new.items (dump_text (map (λ c. (c.0.items, c.1.items, c.2.items)) trees.now))) }
{
    write_collections(output, out, trees)?;
    push_end(out, count_pairs(trees))?;
    Ok(())
}
