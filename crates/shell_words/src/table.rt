//! The table of commands: a row says what a line begins with, what it takes, which part answers it, and what it does.

use crate::choices::{Drawing, Sweep};
use crate::image::Image;
use crate::look::{Look, Side};
use crate::near::{Nearness, how_near};
use crate::tell::{Result, Told, tell};
use crate::topics::topic;
use line_words::print::Piece::Text;
use line_words::words::first_word;

/// What a line asks for. Some can begin in a slot too, or be made by a call of the database itself.
#[derive(Clone, Copy)]
pub enum Verb {
    Insert,
    Set,
    Get,
    Remove,
    Del,
    Cas,
    Merge,
    Scan,
    ScanBack,
    Step,
    Finish,
    Abandon,
    Turns,
    Batch,
    Flush,
    Dump,
    /// All pairs, as lines that make them again.
    DumpLines,
    PopMin,
    PopMax,
    Clear,
    RemoveRange,
    /// Pairs for a first look.
    Fill,
    OpenTree,
    DropTree,
    Id,
    Import,
    ImportTyped,
    ImportAll,
    Watch,
    Next,
    Unwatch,
    Update,
    Fetch,
    Group,
    Transaction,
    TransactionAll,
    /// A read that takes no slot.
    Look(Look),
    OldTree,
    Handle,
    Operator,
    Recovered,
    Pages,
    Draw(Drawing),
    Stats,
    /// As what a page is kept.
    Parts,
    /// The keys of a page without what all of them begin with.
    Rests,
    Why,
    Version,
    Help,
    /// A page of an image, which is noted.
    Page,
    /// A root of an image, which is noted.
    Root,
    /// The lines of a file, run again and again.
    Sweep(Sweep),
    /// The lines of a file, run once.
    Run,
    /// A check of the pages.
    Verify,
    Crash,
    New,
    Reopen,
    Refuse,
    Unreadable,
    Mark,
    Recover,
    /// A log of files that is begun anew.
    Compact,
    /// A store of what was noted.
    Image(Image),
    Quit,
}

// A row of the table: a command's own words, what it takes, which part answers it, and what it does.
struct Command(&'static str, &'static str, Verb, &'static str);

// What a command takes has words of its own. K, V, P, OLD, NEW, DATABASE, TYPE, NAME, TREE and FILE are byte strings, of which OLD, NEW and
// TREE may be `-`. LO and HI are bounds, OPERATOR is a merge operator, and HOW what is made of a value. [WORD] is two words at the most,
// and the others are numbers. `..` means more of the word before it, `K V ..` and `K NEW ..` for pairs, and `; ..` for more of all that is
// before it. A line `page` has the words of one page. PART is a part of a transaction and END how it ends; in front of a PART, P is the
// position of a tree. The table is several lists, since a function that names a list has all of it in its proof.
#[rattlefmt::skip]
static KEY: [Command; 8] = [
    Command("insert", "K V", Verb::Insert, "sets the value at a key, and prints the one that stood there"),
    Command("get", "K", Verb::Get, "prints the value at a key"),
    Command("remove", "K", Verb::Remove, "takes a key out, and prints the value that stood there"),
    Command("cas", "K OLD NEW", Verb::Cas, "sets the value at a key to NEW where it is OLD; - is no value"),
    Command("merge", "K V", Verb::Merge, "sets the value at a key to what the tree's operator makes of it and V, and prints it"),
    Command("update", "K HOW", Verb::Update, "changes the value at a key by count, append V, set V, delete or short, and prints the new one"),
    Command("fetch", "K HOW", Verb::Fetch, "changes it in the same ways, and prints the value that stood there"),
    Command("operator", "OPERATOR", Verb::Operator, "gives the tree a merge operator: concat, add, max, before, keep, gone or short"),
];

fn key_commands() -> &'static [Command] {
    KEY.as_slice()
}

#[rattlefmt::skip]
static FLIGHT: [Command; 11] = [
    Command("begin insert", "K V", Verb::Insert, "begins an insert in a slot, which is printed"),
    Command("begin get", "K", Verb::Get, "begins a get in a slot"),
    Command("begin remove", "K", Verb::Remove, "begins a removal in a slot"),
    Command("begin cas", "K OLD NEW", Verb::Cas, "begins a swap in a slot"),
    Command("begin merge", "K V", Verb::Merge, "begins a merge in a slot"),
    Command("begin scan", "LO HI", Verb::Scan, "begins a scan in a slot, which gives the pairs within two bounds, as those of `range`, one at a step"),
    Command("begin scan-back", "LO HI", Verb::ScanBack, "begins a scan from the back in a slot"),
    Command("step", "N", Verb::Step, "does one step of the call in a slot"),
    Command("finish", "N", Verb::Finish, "does the steps of the call in a slot to its end, or of a scan to its next pair"),
    Command("abandon", "N", Verb::Abandon, "gives the call in a slot up"),
    Command("turns", "N", Verb::Turns, "prints how often the call in a slot went on so far, and a scan since its last pair"),
];

fn flight_commands() -> &'static [Command] {
    FLIGHT.as_slice()
}

#[rattlefmt::skip]
static READ: [Command; 8] = [
    Command("has", "K", Verb::Look(Look::Has), "prints whether a key is present"),
    Command("read", "K", Verb::Look(Look::Read), "prints the value at a key"),
    Command("lt", "K", Verb::Look(Look::Below), "prints the pair with the greatest key below this one"),
    Command("gt", "K", Verb::Look(Look::Above), "prints the pair with the least key above this one"),
    Command("first", "", Verb::Look(Look::First), "prints the pair with the least key"),
    Command("last", "", Verb::Look(Look::Last), "prints the pair with the greatest key"),
    Command("len", "", Verb::Look(Look::Len), "prints how many pairs there are"),
    Command("empty", "", Verb::Look(Look::Empty), "prints whether there is no pair"),
];

fn read_commands() -> &'static [Command] {
    READ.as_slice()
}

#[rattlefmt::skip]
static PAIR: [Command; 9] = [
    Command("range", "LO HI", Verb::Look(Look::Pairs(Side::Front)), "prints the pairs within two bounds: [K is from or up to K, (K the same without K, .. is no bound"),
    Command("range-back", "LO HI", Verb::Look(Look::Pairs(Side::Back)), "prints the pairs within two bounds from the back"),
    Command("range-ends", "LO HI", Verb::Look(Look::Pairs(Side::Ends)), "prints the pairs within two bounds from both ends in turn"),
    Command("prefix", "P", Verb::Look(Look::Prefix(Side::Front)), "prints the pairs whose keys begin with P"),
    Command("prefix-back", "P", Verb::Look(Look::Prefix(Side::Back)), "prints the pairs whose keys begin with P from the back"),
    Command("keys", "LO HI", Verb::Look(Look::Keys(Side::Front)), "prints the keys within two bounds"),
    Command("keys-back", "LO HI", Verb::Look(Look::Keys(Side::Back)), "prints the keys within two bounds from the back"),
    Command("values", "LO HI", Verb::Look(Look::Values(Side::Front)), "prints the values within two bounds"),
    Command("values-back", "LO HI", Verb::Look(Look::Values(Side::Back)), "prints the values within two bounds from the back"),
];

fn pair_commands() -> &'static [Command] {
    PAIR.as_slice()
}

#[rattlefmt::skip]
static MANY: [Command; 12] = [
    Command("pop-min", "", Verb::PopMin, "takes the pair with the least key out, and prints it"),
    Command("pop-max", "", Verb::PopMax, "takes the pair with the greatest key out, and prints it"),
    Command("clear", "", Verb::Clear, "takes all keys out, from the least up"),
    Command("remove-range", "LO HI", Verb::RemoveRange, "takes all keys within two bounds out, all or none, and prints how many; slots end, as at lines of `owned`"),
    Command("fill", "N", Verb::Fill, "inserts N pairs for a first look, of keys from k000001 on"),
    Command("batch", "K NEW ..", Verb::Batch, "writes several keys, all or none: sets each to NEW, or takes it out where that is -"),
    Command("group", "TREE K NEW .. ; ..", Verb::Group, "writes the batches of all parts, all or none; TREE is a name that a line `tree` had, or - for the current tree"),
    Command("tx", "PART ; .. ; END", Verb::Transaction, "does all parts in a transaction: insert K V, get K, remove K, batch K NEW .., flush, id; END is commit, abort, conflict or conflict-below N"),
    Command("tx-all", "TREE .. ; P PART ; .. ; END", Verb::TransactionAll, "does the same on several trees; P is the position of a tree in the list, from 0, and none stands before flush and id"),
    Command("import", "NAME K V ..", Verb::Import, "opens the tree of a name, and puts pairs into it whose keys are absent there"),
    Command("import-type", "TYPE NAME K V ..", Verb::ImportTyped, "imports into the tree of a name, with a type, which is to be tree"),
    Command("import-all", "TYPE NAME K V .. ; ..", Verb::ImportAll, "imports all parts by one call; a ; stands between two of them, and %3b is the string ;"),
];

fn many_commands() -> &'static [Command] {
    MANY.as_slice()
}

#[rattlefmt::skip]
static TREE: [Command; 5] = [
    Command("tree", "NAME", Verb::OpenTree, "makes the tree of a name current, and makes it where there is none"),
    Command("old-tree", "NAME", Verb::OldTree, "makes current what the name was before the last line `tree` with it"),
    Command("drop", "NAME", Verb::DropTree, "drops the tree of a name: whether there was one"),
    Command("names", "", Verb::Look(Look::Names), "prints the names of all trees, in order"),
    Command("id", "", Verb::Id, "prints the next id, which never came before"),
];

fn tree_commands() -> &'static [Command] {
    TREE.as_slice()
}

#[rattlefmt::skip]
static SUBSCRIBER: [Command; 3] = [
    Command("watch", "P", Verb::Watch, "adds a subscriber to the keys of the tree that begin with P, and prints its number"),
    Command("next", "N", Verb::Next, "prints how many events a subscriber missed, or else takes the oldest that waits and prints it"),
    Command("unwatch", "N", Verb::Unwatch, "gives a subscriber up, with the events that wait for it"),
];

fn subscriber_commands() -> &'static [Command] {
    SUBSCRIBER.as_slice()
}

#[rattlefmt::skip]
static STORE: [Command; 11] = [
    Command("flush", "", Verb::Flush, "makes all durable"),
    Command("crash", "N", Verb::Crash, "a crash that keeps N actions since the last flush, none of them in files, and an opening; the current tree stays so where it is there"),
    Command("compact", "", Verb::Compact, "in files: makes all durable in a log that is begun anew, and opens it; the current tree stays so"),
    Command("dump", "", Verb::Dump, "prints all pairs"),
    Command("dump lines", "", Verb::DumpLines, "prints all trees and pairs as lines that make them again"),
    Command("run", "FILE", Verb::Run, "runs the lines of a file"),
    Command("new", "", Verb::New, "an empty store, opened"),
    Command("reopen", "", Verb::Reopen, "opens the store again"),
    Command("recover", "", Verb::Recover, "a crash that keeps all actions, and an opening"),
    Command("recovered", "", Verb::Recovered, "prints whether the store is what a crash left"),
    Command("verify", "", Verb::Verify, "checks all pages, and changes nothing"),
];

fn store_commands() -> &'static [Command] {
    STORE.as_slice()
}

#[rattlefmt::skip]
static HELP: [Command; 13] = [
    Command("pages", "", Verb::Pages, "prints how many pages each level of the tree has, and the most entries of one"),
    Command("stats", "", Verb::Stats, "prints how many trees, pages, levels and pairs there are, and the bytes of all keys and values; of files the bytes of the log and of its snapshot, and the generation"),
    Command("draw", "", Verb::Draw(Drawing::Text), "draws the tree level by level, with what is half done"),
    Command("draw links", "", Verb::Draw(Drawing::Links), "draws it with how many entries the base of each page has, and how many links are kept over it"),
    Command("draw dot", "", Verb::Draw(Drawing::Dot), "draws it as a graph for the program dot"),
    Command("parts", "PID", Verb::Parts, "prints of a page how many entries its base has, and how many links are kept over it"),
    Command("rests", "PID", Verb::Rests, "prints of a page what all its keys begin with, and what each has behind that"),
    Command("why", "", Verb::Why, "prints the text of the last refusal"),
    Command("version", "", Verb::Version, "prints the version of the shell"),
    Command("help", "[WORD]", Verb::Help, "lists the lines for use; with a WORD what those take and do that begin with it, with `tests` those that are for tests"),
    Command("?", "[WORD]", Verb::Help, "the same as help"),
    Command("quit", "", Verb::Quit, "ends"),
    Command("exit", "", Verb::Quit, "the same as quit"),
];

fn help_commands() -> &'static [Command] {
    HELP.as_slice()
}

#[rattlefmt::skip]
static OTHER_NAMES: [Command; 7] = [
    Command("set", "K V", Verb::Insert, "the same as insert"),
    Command("put", "K V", Verb::Insert, "the same as insert"),
    Command("del", "K", Verb::Remove, "the same as remove"),
    Command("scan", "LO HI", Verb::Look(Look::Pairs(Side::Front)), "the same as range"),
    Command("iter", "", Verb::Look(Look::All), "prints all pairs of the tree, as range .. .. does"),
    Command("ls", "", Verb::Look(Look::Names), "the same as names"),
    Command("trees", "", Verb::Look(Look::Names), "the same as names"),
];

fn other_names() -> &'static [Command] {
    OTHER_NAMES.as_slice()
}

#[rattlefmt::skip]
static OWNED_KEY: [Command; 11] = [
    Command("owned insert", "K V", Verb::Insert, "the same as without `owned`, by a call of the database itself; slots end, as at all of these"),
    Command("owned set", "K V", Verb::Set, "another name of that insert"),
    Command("owned remove", "K", Verb::Remove, "takes a key out, and prints the value that stood there"),
    Command("owned del", "K", Verb::Del, "another name of that removal"),
    Command("owned cas", "K OLD NEW", Verb::Cas, "sets the value at a key to NEW where it is OLD; - is no value"),
    Command("owned merge", "K V", Verb::Merge, "sets the value at a key to what the tree's operator makes of it and V, and prints it"),
    Command("owned update", "K HOW", Verb::Update, "changes the value at a key, and prints the new one"),
    Command("owned fetch", "K HOW", Verb::Fetch, "changes the value at a key, and prints the one that stood there"),
    Command("owned pop-min", "", Verb::PopMin, "takes the pair with the least key out, and prints it"),
    Command("owned pop-max", "", Verb::PopMax, "takes the pair with the greatest key out, and prints it"),
    Command("owned clear", "", Verb::Clear, "takes all keys out, from the least up"),
];

fn owned_key_commands() -> &'static [Command] {
    OWNED_KEY.as_slice()
}

#[rattlefmt::skip]
static OWNED_OTHER: [Command; 8] = [
    Command("owned remove-range", "LO HI", Verb::RemoveRange, "takes all keys within two bounds out, all or none"),
    Command("owned batch", "K NEW ..", Verb::Batch, "writes several keys, all or none"),
    Command("owned tx", "PART ; .. ; END", Verb::Transaction, "does all parts in a transaction"),
    Command("owned flush", "", Verb::Flush, "makes all durable"),
    Command("owned drop", "NAME", Verb::DropTree, "drops the tree of a name: whether there was one"),
    Command("owned id", "", Verb::Id, "prints the next id, which never came before"),
    Command("owned watch", "P", Verb::Watch, "adds a subscriber, which is counted with the others"),
    Command("owned next", "N", Verb::Next, "prints how many events a subscriber missed, or else takes the oldest that waits and prints it"),
];

fn owned_other_commands() -> &'static [Command] {
    OWNED_OTHER.as_slice()
}

#[rattlefmt::skip]
static FAULT: [Command; 7] = [
    Command("owned unwatch", "N", Verb::Unwatch, "gives a subscriber up, with the events that wait for it"),
    Command("new refuse", "N ..", Verb::New, "an empty store, opened, which refuses its calls of these numbers"),
    Command("reopen refuse", "N ..", Verb::Refuse, "opens the store again, which refuses its calls of these numbers from then on"),
    Command("reopen unreadable", "PID ..", Verb::Unreadable, "opens the store again, of which these pages cannot be read"),
    Command("reopen mark", "N", Verb::Mark, "opens the store again, in which ids up to N are set aside"),
    Command("recover refuse", "N ..", Verb::Recover, "a crash that keeps all actions, and an opening of the store left, which refuses its calls of these numbers"),
    Command("handle", "DATABASE NAME N", Verb::Handle, "makes current what names a tree: a database, the tree's name and its number"),
];

fn fault_commands() -> &'static [Command] {
    FAULT.as_slice()
}

#[rattlefmt::skip]
static IMAGE: [Command; 7] = [
    Command("page", "PID leaf LO HI NEXT open K V ..", Verb::Page, "notes a page of an image: a leaf, or an index with its merging child CHILD and pairs K PID; open or merging; HI % is no bound, - no page"),
    Command("root", "NAME PID", Verb::Root, "notes a root of an image"),
    Command("image", "", Verb::Image(Image::Plain), "a store of what was noted since the last image, which is opened after a check of its pages"),
    Command("image mark", "N", Verb::Image(Image::Mark), "the same, with ids up to N set aside"),
    Command("image group", "", Verb::Image(Image::Group), "the same, with a group begun in it"),
    Command("each-refusal", "FILE", Verb::Sweep(Sweep::Refusals), "runs the lines of a file, with each call of the store refused in turn: whether all that they print is the same"),
    Command("each-crash", "FILE", Verb::Sweep(Sweep::Crashes), "runs the lines of a file, and a crash that keeps each number of their actions in turn: whether each leaves a beginning"),
];

fn image_commands() -> &'static [Command] {
    IMAGE.as_slice()
}

// So many groups are for people, and the others for tests.
const PEOPLE: usize = 10;

const GROUPS: usize = 14;

// Commands, and what those for people are about.
#[derive(Clone, Copy)]
struct Group {
    title: &'static str,
    commands: &'static [Command],
}

#[rattlefmt::skip]
fn group_at(place: usize) -> Group {
    match place {
        0 => Group { title: "A key of the current tree", commands: key_commands() },
        1 => Group { title: "Calls in flight, step by step", commands: flight_commands() },
        2 => Group { title: "Reads that repair nothing", commands: read_commands() },
        3 => Group { title: "Pairs in order", commands: pair_commands() },
        4 => Group { title: "Many pairs by one call", commands: many_commands() },
        5 => Group { title: "Trees by name, and ids", commands: tree_commands() },
        6 => Group { title: "Subscribers", commands: subscriber_commands() },
        7 => Group { title: "The store", commands: store_commands() },
        8 => Group { title: "Looking, help and the end", commands: help_commands() },
        9 => Group { title: "Other names", commands: other_names() },
        10 => Group { title: "", commands: owned_key_commands() },
        11 => Group { title: "", commands: owned_other_commands() },
        12 => Group { title: "", commands: fault_commands() },
        _ => Group { title: "", commands: image_commands() },
    }
}

const MORE: &str =
    "`help WORD` says what the lines do that begin with WORD; `help tests` has those that are for tests\n`help bytes`, `help bounds` and `help crash` say how bytes and bounds are spelled, and what a crash keeps\n";

/// How a call is made.
#[derive(Clone, Copy)]
pub enum Way {
    /// From its begin to its end.
    Once,
    /// It begins in a slot.
    Begun,
    /// By a call of the database itself.
    Owned,
}

/// How a call is made whose command begins with this word.
pub fn way_of(name: &[u8]) -> Way {
    if name == b"begin".as_slice() {
        Way::Begun
    } else if name == b"owned".as_slice() {
        Way::Owned
    } else {
        Way::Once
    }
}

/// A command that a line has, and the words behind the command's own.
#[derive(Clone, Copy)]
pub struct Found<'a> {
    pub own: &'static str,
    pub takes: &'static str,
    pub verb: Verb,
    pub words: Option<&'a [u8]>,
}

/// Why a line has the words of no command.
#[derive(Clone, Copy)]
pub enum Misfit<'a> {
    /// Its first word is none of a command.
    Name,
    /// It ends behind a word that is not the last of a command's own.
    Short,
    /// Behind its first word is another than in any command.
    Other(&'a [u8]),
}

// How the own words of a command fit the first words of a line.
#[derive(Clone, Copy)]
enum Fit {
    // It begins otherwise.
    No,
    // It has one word, which is the first.
    First,
    // It has two words, which are the first two.
    Both,
    // It has two words, of which only the first is the line's.
    Leads,
}

fn fit_of(own: &'static str, name: &[u8], second: Option<&[u8]>) -> Fit {
    let (head, follows) = first_word(own.as_bytes());
    if head != name {
        return Fit::No;
    }
    match follows {
        None => Fit::First,
        Some(word) => if is_word(second, word) {
            Fit::Both
        } else {
            Fit::Leads
        },
    }
}

// Whether there is a word, and it is this one.
fn is_word(found: Option<&[u8]>, word: &[u8]) -> bool {
    match found {
        Some(found) => found == word,
        None => false,
    }
}

// The first word of a command, and how near a word is to it.
#[derive(Clone, Copy)]
struct Nearest {
    head: &'static [u8],
    is: Nearness,
}

// The place of a command: its group, and its place there.
#[derive(Clone, Copy)]
struct Place {
    group: usize,
    row: usize,
}

// What fits the first words of a line: a command of one word, one of two words, and whether a command begins with the first word and goes
// on otherwise.
#[derive(Clone, Copy)]
struct Fits {
    first: Option<Place>,
    both: Option<Place>,
    leads: bool,
}

// What fits in a group, beside what fits before it.
fn fits_in(group: usize, name: &[u8], second: Option<&[u8]>, before: Fits) -> Fits {
    let mut fits = before;
    for (row, command) in group_at(group).commands.iter().enumerate() {
        match fit_of(command.0, name, second) {
            Fit::No => {}
            Fit::First => fits.first = Some(Place { group, row }),
            Fit::Both => fits.both = Some(Place { group, row }),
            Fit::Leads => fits.leads = true,
        }
    }
    fits
}

fn fits_of(name: &[u8], second: Option<&[u8]>) -> Fits {
    let mut fits = Fits {
        first: None,
        both: None,
        leads: false,
    };
    for group in 0..GROUPS {
        fits = fits_in(group, name, second, fits);
    }
    fits
}

// The command at a place, and the words behind its own.
fn found_at<'a>(place: Place, words: Option<&'a [u8]>) -> Option<Found<'a>> {
    match group_at(place.group).commands.get(place.row) {
        Some(command) => Some(Found {
            own: command.0,
            takes: command.1,
            verb: command.2,
            words,
        }),
        None => None,
    }
}

// The second word of a line, and the words behind it.
fn second_of<'a>(words: Option<&'a [u8]>) -> (Option<&'a [u8]>, Option<&'a [u8]>) {
    match words {
        Some(words) => {
            let (second, more) = first_word(words);
            (Some(second), more)
        }
        None => (None, None),
    }
}

// Why a line has the words of no command, if a command begins with its first word, or not.
fn misfit_of<'a>(is_name: bool, second: Option<&'a [u8]>) -> Misfit<'a> {
    match second {
        _ if !is_name => Misfit::Name,
        None => Misfit::Short,
        Some(word) => Misfit::Other(word),
    }
}

/// The command whose own words a line begins with.
pub fn find<'a>(line: &'a [u8]) -> std::result::Result<Found<'a>, Misfit<'a>> {
    let (name, words) = first_word(line);
    let (second, more) = second_of(words);
    let fits = fits_of(name, second);
    let found = match fits.both {
        Some(place) => found_at(place, more),
        None => match fits.first {
            Some(place) if second.is_none() || !fits.leads => found_at(place, words),
            _ => None,
        },
    };
    match found {
        Some(found) => Ok(found),
        None => Err(misfit_of(fits.first.is_some() || fits.leads, second)),
    }
}

// The first words of the commands of a group, as far as one is nearer to a word than the nearest so far.
fn nearest_in(group: usize, word: &[u8], before: Nearest) -> Nearest {
    let mut nearest = before;
    for command in group_at(group).commands {
        let (head, _) = first_word(command.0.as_bytes());
        let is = how_near(word, head);
        if is.is_nearer(nearest.is) {
            nearest = Nearest { head, is };
        }
    }
    nearest
}

/// The first word of a command that a word is near to, if it is near to one: to the first of those that it is nearest to.
pub fn meant_by(word: &[u8]) -> Option<&'static [u8]> {
    let mut nearest = Nearest {
        head: b"",
        is: Nearness::Far,
    };
    for group in 0..GROUPS {
        nearest = nearest_in(group, word, nearest);
    }
    match nearest.is {
        Nearness::Far => None,
        _ => Some(nearest.head),
    }
}

// Adds texts, one after the other.
fn push(out: &mut Told, texts: [&'static str; 3]) -> Result<()> {
    let [first, second, third] = texts;
    let pieces = [
        Text(first.as_bytes()),
        Text(second.as_bytes()),
        Text(third.as_bytes()),
    ];
    tell(out, &pieces)
}

// Adds a command with what it takes.
fn push_form(out: &mut Told, own: &'static str, takes: &'static str) -> Result<()> {
    let space = if takes.is_empty() { "" } else { " " };
    push(out, [own, space, takes])
}

// Adds the commands of a group, one after the other.
fn push_forms(out: &mut Told, commands: &'static [Command]) -> Result<()> {
    let mut before = "    ";
    for command in commands {
        push(out, [before, "", ""])?;
        push_form(out, command.0, command.1)?;
        before = ", ";
    }
    Ok(())
}

/// Adds the commands for people in groups, and how to learn more of each.
pub fn push_groups(out: &mut Told) -> Result<()> {
    for place in 0..PEOPLE {
        let group = group_at(place);
        push(out, [group.title, ":\n", ""])?;
        push_forms(out, group.commands)?;
        push(out, ["\n", "", ""])?;
    }
    push(out, [MORE, "", ""])
}

// Adds what the commands of a group do that begin with a text, or all of them: whether there are any.
fn push_does(out: &mut Told, commands: &'static [Command], text: &[u8], all: bool) -> Result<bool> {
    let mut is_any = false;
    for command in commands {
        if all || command.0.as_bytes().starts_with(text) {
            push_form(out, command.0, command.1)?;
            push(out, [": ", command.3, "\n"])?;
            is_any = true;
        }
    }
    Ok(is_any)
}

/// Adds what the commands do that begin with a text, or those for tests, and what there is to say of it: whether there is anything.
pub fn push_help(out: &mut Told, text: &[u8]) -> Result<bool> {
    let mut is_any = false;
    for place in 0..GROUPS {
        let all = place >= PEOPLE && text == b"tests".as_slice();
        if push_does(out, group_at(place).commands, text, all)? {
            is_any = true;
        }
    }
    match topic(text) {
        Some(said) => push(out, [said, "", ""]).map(|()| true),
        None => Ok(is_any),
    }
}
