//! A store, to which each line makes one call.
use crate::keys::{read_key, spell};
use crate::line::{Line, Print, Word, push_kept};
use crate::nodes::{Act, Nodes, Question, Search, push_node, read_link};
use crate::rebuild::{self, Finished, Making};
use crate::text::Text;
use crate::trial::Trial;
use sled_nodes::{IVec, Node, Pid, Result, Version};
use sled_store::{Pages, View};
use std::alloc::Global;

// A call of one word.
#[derive(Clone, Copy)]
enum Alone {
    Roots,
    Begin,
    Seal,
    InGroup,
    Flush,
    FlushUncounted,
    Mark,
    WasRecovered,
    New,
    LetGo,
    Numbers,
}

// A call with a number.
#[derive(Clone, Copy)]
enum Numbered {
    SetAside,
    Crash,
    Unreadable,
    Image,
    Hold,
    Linked,
}

// A call on a page at a version.
#[derive(Clone, Copy)]
enum Versioned {
    Link,
    Replace,
    Free,
}

#[derive(Clone, Copy)]
enum Call {
    Alone(Alone),
    Numbered(Numbered),
    Versioned(Versioned),
    Node(Act),
    Allocate,
    Read,
    Root,
    Swap,
    Refuse,
    ImagePage,
    ImageRoot,
    Spell,
    Parts,
    Make(rebuild::Act),
    Made,
}

const CALLS: [(&str, Call); 57] = [
    ("roots", Call::Alone(Alone::Roots)),
    ("begin", Call::Alone(Alone::Begin)),
    ("seal", Call::Alone(Alone::Seal)),
    ("in-group", Call::Alone(Alone::InGroup)),
    ("flush", Call::Alone(Alone::Flush)),
    ("flush-uncounted", Call::Alone(Alone::FlushUncounted)),
    ("mark", Call::Alone(Alone::Mark)),
    ("was-recovered", Call::Alone(Alone::WasRecovered)),
    ("new", Call::Alone(Alone::New)),
    ("let-go", Call::Alone(Alone::LetGo)),
    ("set-aside", Call::Numbered(Numbered::SetAside)),
    ("crash", Call::Numbered(Numbered::Crash)),
    ("unreadable", Call::Numbered(Numbered::Unreadable)),
    ("image", Call::Numbered(Numbered::Image)),
    ("hold", Call::Numbered(Numbered::Hold)),
    ("linked", Call::Numbered(Numbered::Linked)),
    ("link", Call::Versioned(Versioned::Link)),
    ("replace", Call::Versioned(Versioned::Replace)),
    ("free", Call::Versioned(Versioned::Free)),
    ("allocate", Call::Allocate),
    ("read", Call::Read),
    ("root", Call::Root),
    ("swap", Call::Swap),
    ("refuse", Call::Refuse),
    ("image-page", Call::ImagePage),
    ("image-root", Call::ImageRoot),
    ("leaf", Call::Node(Act::Leaf)),
    ("index", Call::Node(Act::Index)),
    ("clone", Call::Node(Act::Clone)),
    ("receive", Call::Node(Act::Receive)),
    ("split", Call::Node(Act::Split)),
    ("apply", Call::Node(Act::Apply)),
    ("next", Call::Node(Act::Next)),
    ("post", Call::Node(Act::Post)),
    (
        "show",
        Call::Node(Act::Find(Search::Answer(Question::Show))),
    ),
    ("len", Call::Node(Act::Find(Search::Answer(Question::Len)))),
    (
        "prefix",
        Call::Node(Act::Find(Search::Answer(Question::Prefix))),
    ),
    (
        "rests",
        Call::Node(Act::Find(Search::Answer(Question::Rests))),
    ),
    (
        "should-split",
        Call::Node(Act::Find(Search::Answer(Question::ShouldSplit))),
    ),
    (
        "should-merge",
        Call::Node(Act::Find(Search::Answer(Question::ShouldMerge))),
    ),
    (
        "can-merge-child",
        Call::Node(Act::Find(Search::Answer(Question::CanMergeChild))),
    ),
    ("get", Call::Node(Act::Find(Search::Get))),
    (
        "pointer-before",
        Call::Node(Act::Find(Search::PointerBefore)),
    ),
    ("pointer", Call::Node(Act::Find(Search::Pointer))),
    ("successor", Call::Node(Act::Find(Search::Pair(false)))),
    ("predecessor", Call::Node(Act::Find(Search::Pair(true)))),
    ("within", Call::Node(Act::Find(Search::Within(false)))),
    ("within-back", Call::Node(Act::Find(Search::Within(true)))),
    ("up-to", Call::Node(Act::Find(Search::UpTo))),
    ("spell", Call::Spell),
    ("parts", Call::Parts),
    ("numbers", Call::Alone(Alone::Numbers)),
    ("make-page", Call::Make(rebuild::Act::Put)),
    ("make-link", Call::Make(rebuild::Act::Link)),
    ("make-free", Call::Make(rebuild::Act::Free)),
    ("make-root", Call::Make(rebuild::Act::Root)),
    ("made", Call::Made),
];

// The page numbers that were given. Lines name a page by its place among them, counted from 1, so that they say the same of each store; if
// a store was made of pages with numbers, they name it by its number.
#[derive(Drop)]
enum Pids {
    Met(Vec<u64>),
    Own,
}

/// A store, and what lines made beside it.
#[derive(Drop)]
pub struct Store<'a, P: Pages, T> {
    alloc: Global,
    trial: &'a T,
    pages: P,
    nodes: Nodes,
    pids: Pids,
    // The versions that were met, in order.
    versions: Vec<Version>,
    // How many changing actions were made since the last flush.
    actions: u64,
    // The pages and roots of the next image.
    image_pages: Vec<(Pid, Node)>,
    image_roots: Vec<(IVec, Pid)>,
    // The next store that lines make page by page.
    making: Making,
    // Pages as they were read, which share their nodes with the store.
    held: Vec<View>,
}

impl<'a, P: Pages, T: Trial<P>> Store<'a, P, T> {
    /// An empty store.
    pub fn new(alloc: Global, trial: &'a T) -> Result<Store<'a, P, T>> {
        let pages = trial.empty(alloc)?;
        Ok(Store {
            alloc,
            trial,
            pages,
            nodes: Nodes::new(alloc),
            pids: Pids::Met(Vec::new(alloc)),
            versions: Vec::new(alloc),
            actions: 0,
            image_pages: Vec::new(alloc),
            image_roots: Vec::new(alloc),
            making: Making::new(alloc),
            held: Vec::new(alloc),
        })
    }

    /// Does what a line says, and adds the outcome.
    pub fn run(&mut self, line: &mut Line) {
        let Some(call) = line.named(&CALLS) else {
            return;
        };
        match self.call(call, line) {
            Ok(()) => line.out.end(),
            Err(error) => {
                line.out.push("refused: ");
                line.out.push_error(&error);
                drop(error);
            }
        }
    }

    fn call(&mut self, call: Call, line: &mut Line) -> Result<()> {
        match call {
            Call::Alone(call) => return self.alone(call, line),
            Call::Numbered(call) => return self.numbered(call, line),
            Call::Versioned(call) => return self.versioned(call, line),
            Call::Allocate => return self.allocate(line),
            Call::Read => return self.read(line),
            Call::Swap => return self.swap(line),
            Call::Refuse => return self.refuse(line),
            Call::Make(act) => return self.making.run(act, &mut self.nodes, line),
            Call::Root => self.root(line),
            Call::ImagePage => self.image_page(line),
            Call::ImageRoot => self.image_root(line),
            Call::Node(act) => self.nodes.run(act, line),
            Call::Spell => spell(line),
            Call::Parts => read_key(line),
            Call::Made => self.made(line),
        }
        Ok(())
    }

    fn alone(&mut self, call: Alone, line: &mut Line) -> Result<()> {
        if !line.is_read() {
            return Ok(());
        }
        match call {
            Alone::Begin | Alone::Seal => return self.grouped(call, line),
            Alone::Flush => return self.flush(line),
            Alone::FlushUncounted => self.flush_uncounted(line),
            Alone::Roots => self.roots(&mut line.out),
            Alone::InGroup => line.out.push_whether(self.pages.in_group()),
            Alone::Mark => line.out.push_numbered("number", self.pages.mark()),
            Alone::WasRecovered => line.out.push_whether(self.pages.was_recovered()),
            Alone::New => self.begin_anew(line),
            Alone::LetGo => self.held.clear(),
            Alone::Numbers => self.numbers(line),
        }
        Ok(())
    }

    // Goes on with an empty store.
    fn begin_anew(&mut self, line: &mut Line) {
        let made = self.trial.empty(self.alloc);
        self.put(Some(made), line);
        self.forget(Pids::Met(Vec::new(self.alloc)));
    }

    // No page and no version of the store was met.
    fn forget(&mut self, pids: Pids) {
        self.versions.clear();
        let old = std::mem::replace(&mut self.pids, pids);
        drop(old);
    }

    fn numbers(&self, line: &mut Line) {
        let numbers = self.trial.numbers_given(&self.pages);
        if let Some((greatest, versions)) = line.offered(numbers) {
            line.out.push_numbered("page", greatest.0);
            line.out.push_numbered(" versions", versions);
        }
    }

    // Begins or seals a group.
    fn grouped(&mut self, call: Alone, line: &mut Line) -> Result<()> {
        match (call, self.pages.in_group()) {
            (Alone::Begin, false) => self.pages.begin_group()?,
            (Alone::Seal, true) => self.pages.seal_group()?,
            _ => {
                line.out.push("barred");
                return Ok(());
            }
        }
        self.count();
        Ok(())
    }

    // Flushes, if no group is open.
    fn flush(&mut self, line: &mut Line) -> Result<()> {
        if self.pages.in_group() {
            line.out.push("barred");
            return Ok(());
        }
        let told = self.pages.flush()?;
        self.push_flushed(told as u64, &mut line.out);
        Ok(())
    }

    fn flush_uncounted(&mut self, line: &mut Line) {
        if self.pages.in_group() {
            line.out.push("barred");
            return;
        }
        let told = self.trial.flush_uncounted(&mut self.pages);
        if let Some(told) = line.offered(told) {
            self.push_flushed(told as u64, &mut line.out);
        }
    }

    // Adds how many actions became durable: what the store returned, if it returns that.
    fn push_flushed(&mut self, told: u64, out: &mut Text) {
        let actions = if self.trial.tells_actions() {
            told
        } else {
            self.actions
        };
        self.actions = 0;
        out.push_numbered("flushed", actions);
    }

    // Counts a changing action.
    fn count(&mut self) {
        self.actions = self.actions.saturating_add(1);
    }

    fn numbered(&mut self, call: Numbered, line: &mut Line) -> Result<()> {
        let number = line.number();
        if !line.is_read() {
            return Ok(());
        }
        match call {
            Numbered::SetAside if number < self.pages.mark() => line.out.push("barred"),
            Numbered::SetAside => return self.pages.set_aside(number),
            Numbered::Unreadable => return self.unreadable(number, line),
            Numbered::Crash => self.crash(number, line),
            Numbered::Image => self.image(number, line),
            Numbered::Linked => self.linked(number, line),
            Numbered::Hold => {
                if let Some(view) = self.pages.read(self.alloc, self.pid(number))? {
                    line.out.keep(&mut self.held, view);
                }
            }
        }
        Ok(())
    }

    fn unreadable(&mut self, number: u64, line: &mut Line) -> Result<()> {
        let pid = self.pid(number);
        let answer = self.trial.unreadable(&mut self.pages, pid);
        line.offered(answer).unwrap_or(Ok(()))
    }

    fn versioned(&mut self, call: Versioned, line: &mut Line) -> Result<()> {
        let number = line.number();
        let pid = self.pid(number);
        let version = self.version(line);
        match call {
            Versioned::Link => self.link(pid, version, line),
            Versioned::Replace => self.replace(pid, version, line),
            Versioned::Free => self.free(pid, version, line),
        }
    }

    fn link(&mut self, pid: Pid, version: Version, line: &mut Line) -> Result<()> {
        if let Some(link) = read_link(line) {
            let changed = self.pages.link(pid, version, link)?;
            self.push_changed(changed, &mut line.out);
        }
        Ok(())
    }

    fn replace(&mut self, pid: Pid, version: Version, line: &mut Line) -> Result<()> {
        if let Some(node) = self.nodes.last(line) {
            let changed = self.pages.replace(pid, version, node)?;
            self.push_changed(changed, &mut line.out);
        }
        Ok(())
    }

    fn free(&mut self, pid: Pid, version: Version, line: &mut Line) -> Result<()> {
        if line.is_read() {
            match self.pages.free(pid, version)? {
                Ok(()) => self.count(),
                Err(present) => self.push_changed(Err(present), &mut line.out),
            }
        }
        Ok(())
    }

    // Adds the version that a page has now, or the one that it had before.
    fn push_changed(
        &mut self,
        changed: std::result::Result<Version, Option<Version>>,
        out: &mut Text,
    ) {
        match changed {
            Ok(version) => {
                self.count();
                self.push_version("changed version", version, out);
            }
            Err(Some(version)) => self.push_version("found version", version, out),
            Err(None) => out.push("found -"),
        }
    }

    // Goes on with the store that was made, if one can be made and there was memory for it.
    fn put(&mut self, made: Option<Result<P>>, line: &mut Line) {
        self.actions = 0;
        if let Some(made) = line.offered(made) {
            if let Some(pages) = line.out.kept(made) {
                let old = std::mem::replace(&mut self.pages, pages);
                drop(old);
            }
        }
    }

    // The page that lines name by this number. One that was not given is named by a number that was not.
    fn pid(&self, number: u64) -> Pid {
        match &self.pids {
            Pids::Met(met) => Pid(number_in(met.as_slice(), number)),
            Pids::Own => Pid(number),
        }
    }

    // The number by which lines name a page. One that was not met yet is the next.
    fn number(&mut self, pid: Pid, out: &mut Text) -> u64 {
        let Pids::Met(met) = &mut self.pids else {
            return pid.0;
        };
        let place = met.iter().position(|other| *other == pid.0);
        if let Some(place) = place {
            return (place as u64).saturating_add(1);
        }
        out.keep(met, pid.0);
        met.len() as u64
    }

    // The version of this place among those that were met; if there is none, the version of this number.
    fn version(&self, line: &mut Line) -> Version {
        let met = self.versions.as_slice();
        if line.takes("last") {
            line.is_bad |= met.is_empty();
            return met.last().copied().unwrap_or(Version(0));
        }
        let number = line.number();
        let place = usize::try_from(number).unwrap_or(usize::MAX);
        met.get(place).copied().unwrap_or(Version(number))
    }

    // Adds the place of a version, which is a new one if it was not met before.
    fn push_version(&mut self, word: &str, version: Version, out: &mut Text) {
        let place = place_of(self.versions.as_slice(), version);
        if place == self.versions.len() {
            out.keep(&mut self.versions, version);
        }
        out.push_numbered(word, place as u64);
    }

    // Adds the number of a page and the place of its version.
    fn push_page(&mut self, pid: Pid, version: Version, out: &mut Text) {
        let number = self.number(pid, out);
        out.push_numbered("page", number);
        self.push_version(" version", version, out);
    }

    fn allocate(&mut self, line: &mut Line) -> Result<()> {
        if let Some(node) = self.nodes.last(line) {
            let (pid, version) = self.pages.allocate(node)?;
            self.count();
            self.push_page(pid, version, &mut line.out);
        }
        Ok(())
    }

    fn read(&mut self, line: &mut Line) -> Result<()> {
        let number = line.number();
        let name = if line.has_more() {
            Some(self.nodes.place(line))
        } else {
            None
        };
        if !line.is_read() {
            return Ok(());
        }
        match self.pages.read(self.alloc, self.pid(number))? {
            Some(view) => {
                self.show(&view, name, &mut line.out);
                drop(view);
            }
            None => line.out.push("none"),
        }
        Ok(())
    }

    // Adds the base of a page, and how many links there are since.
    fn linked(&self, number: u64, line: &mut Line) {
        match self.trial.parts(&self.pages, self.pid(number)) {
            Some(Some((base, links))) => {
                push_node(&mut line.out, base);
                line.out.push_numbered(" links", links.len() as u64);
            }
            Some(None) => line.out.push("none"),
            None => line.lacks = true,
        }
    }

    // Adds the line of a page, and keeps a copy of its node under the name.
    fn show(&mut self, view: &View, name: Option<usize>, out: &mut Text) {
        self.push_page(view.pid, view.version, out);
        out.push(" ");
        push_node(out, &view.node);
        if let Some(name) = name {
            let copy = out.kept(view.node.clone(self.alloc));
            self.nodes.set(name, copy);
        }
    }

    fn swap(&mut self, line: &mut Line) -> Result<()> {
        let name = line.bytes();
        let pages = Word::read(line);
        let Some((old, new)) = line.whole(pages) else {
            drop(name);
            return Ok(());
        };
        let swapped = self.pages.cas_root(name.as_slice(), old, new);
        drop(name);
        match swapped? {
            Ok(()) => self.count(),
            Err(present) => push_root(&mut line.out, "found ", present),
        }
        Ok(())
    }

    fn root(&self, line: &mut Line) {
        let name = line.bytes();
        if line.is_read() {
            push_root(&mut line.out, "root ", self.pages.root(name.as_slice()));
        }
        drop(name);
    }

    fn roots(&self, out: &mut Text) {
        out.push("roots");
        push_kept(out, self.pages.roots(self.alloc));
    }

    // Puts another store in the place of the one that crashes.
    fn crash(&mut self, keep: u64, line: &mut Line) {
        let keep = usize::try_from(keep).unwrap_or(usize::MAX);
        let made = self.trial.empty(self.alloc);
        if let Some(empty) = line.out.kept(made) {
            let pages = std::mem::replace(&mut self.pages, empty);
            let left = self.trial.crash(self.alloc, pages, keep);
            self.put(left, line);
        }
    }

    fn refuse(&mut self, line: &mut Line) -> Result<()> {
        let calls = line.list::<u64>();
        if !line.is_read() {
            drop(calls);
            return Ok(());
        }
        let answer = self.trial.refuse_at(&mut self.pages, calls.as_slice());
        drop(calls);
        line.offered(answer).unwrap_or(Ok(()))
    }

    fn image_page(&mut self, line: &mut Line) {
        let pid = Pid(line.number());
        if let Some(node) = self.nodes.last(line) {
            line.out.keep(&mut self.image_pages, (pid, node));
        }
    }

    fn image_root(&mut self, line: &mut Line) {
        let root = Word::read(line);
        if let Some(root) = line.whole(root) {
            line.out.keep(&mut self.image_roots, root);
        }
    }

    fn image(&mut self, mark: u64, line: &mut Line) {
        let pages = std::mem::replace(&mut self.image_pages, Vec::new(self.alloc));
        let roots = std::mem::replace(&mut self.image_roots, Vec::new(self.alloc));
        let made = self.trial.image(self.alloc, pages, roots, mark);
        self.forget(Pids::Own);
        self.put(made, line);
    }

    fn made(&mut self, line: &mut Line) {
        let Some(finished) = self.making.finish(line) else {
            return;
        };
        let Finished {
            rebuild,
            pids,
            versions,
            mark,
        } = finished;
        let made = self.trial.made(rebuild, pids, versions, mark);
        self.forget(Pids::Own);
        self.put(made.map(Ok), line);
    }
}

// The page number at a place, counted from 1, of those that were met; if there is none, the next from that number on that was not.
fn number_in(met: &[u64], number: u64) -> u64 {
    let place = usize::try_from(number).unwrap_or(usize::MAX);
    if let Some(pid) = place.checked_sub(1).and_then(|place| met.get(place)) {
        return *pid;
    }
    for other in number..u64::MAX {
        if !met.contains(&other) {
            return other;
        }
    }
    number
}

// How many versions were met before this one.
fn place_of(met: &[Version], version: Version) -> usize {
    for (place, other) in met.iter().enumerate() {
        if *other == version {
            return place;
        }
    }
    met.len()
}

fn push_root(out: &mut Text, word: &str, root: Option<Pid>) {
    out.push(word);
    root.print(out);
}
