//! A file in memory, for tests. It keeps what it was at first and each call that changed it.
ghost use Rattle.std.specs.Prelude.{◌≡◌, ◌∷◌, [], ◌++◌, ◌+◌, ◌≤◌, ◌<◌, length, take, drop, IfOk, IfErr, OnOk, OnErr, true, false, if◌then◌else◌, nat_lt, min, List, ℕ, refl};
ghost use Rattle.std.proofs.Common.{inl};
ghost use Rattle.sled_disk.specs.declared.disk.DiskError.TheVariants.{NoMemory, Full, Failed};
ghost use Rattle.sled_disk.specs.Disk.{written, is_caused, HasCause};
ghost use Rattle.sled_disk.specs.Refusals.{last_number, is_refused, refusal_of};
ghost use Rattle.sled_disk.specs.Calls.{seen_after_all, seen_after, IsFile, WritesFit};
ghost use Rattle.sled_disk.specs.Choices.{left_of};
ghost use Rattle.sled_disk.specs.Chosen.{byte_by, bytes_by, count_by, several_by, torn_by, numbers_of_write, shortened_by, made_by, numbers_of, is_sync};
ghost use Rattle.std.specs.List.{list_any};

use crate::choices::Choices;
use crate::{Disk, DiskError, Result};
use std::alloc::Global;

// A call that changed a file.
#[derive(Drop)]
enum Call {
    // These bytes were written at this place.
    Write(usize, Vec<u8>),
    // The file was cut to this length.
    Cut(usize),
    // All was brought to the disk.
    Sync,
}

impl Call {
    fn is_sync(&self) -> bool
        ensures { result ≡ is_sync self.now }
    {
        matches!(self, Call::Sync)
    }
}

/// A file in memory, for tests: it can be set to refuse calls, and what a crash leaves of it is for the test to choose. It keeps each
/// write since it was made.
#[derive(Drop)]
pub struct MemoryDisk {
    alloc: Global,
    first: Vec<u8>,
    calls: Vec<Call>,
    bytes: Vec<u8>,
    made: u64,
    refused: Vec<u64>,
    faults: u64,
    ghost replayed: { bytes.items ≡ seen_after_all calls.items first.items },
    ghost begun: { IsFile first.items },
    ghost fits: { WritesFit calls.items first.items },
}

// The fault of a write, or of another call.
fn fault_of(is_write: bool) -> DiskError
    ensures { result ≡ (if is_write then Full else Failed) }
{
    if is_write {
        DiskError::Full
    } else {
        DiskError::Failed
    }
}

// Counts a fault. If no more can be counted there is none.
fn fault(faults: &mut u64, is_write: bool) -> DiskError
    ensures caused { is_caused faults.old faults.new result }
    ensures is { result ≡ (if nat_lt faults.old last_number then (if is_write then Full else Failed) else NoMemory) }
{
    if *faults == u64::MAX {
        return DiskError::NoMemory;
    }
    *faults += 1;
    fault_of(is_write)
}

// Counts a call, which is refused if its number was named.
fn count_call(made: &mut u64, faults: &mut u64, refused: &[u64], is_write: bool) -> Result<()>
    ensures cause { HasCause faults.old faults.new result }
    ensures counted { made.new ≡ min (made.old + 1) last_number }
    ensures done { OnOk result (is_refused made.old refused.now ≡ false) }
    ensures refused { IfErr result (λ e. e ≡ refusal_of (if is_write then Full else Failed) made.old refused.now faults.old) }
{
    if *made == u64::MAX {
        return Err(fault(faults, is_write));
    }
    *made += 1;
    if refused.contains(&*made) {
        return Err(fault(faults, is_write));
    }
    Ok(())
}

// The bytes with others at a place.
fn written_over(alloc: Global, file: &[u8], at: usize, bytes: &[u8]) -> Result<Vec<u8>>
    ensures ok { IfOk result (λ next. next.items ≡ written at bytes.now file.now) }
    ensures err { IfErr result (λ e. e ≡ NoMemory) }
{
    let mut next = cut_to(alloc, file, at)?;
    next.extend_from_slice(bytes)?;
    if at < file.len() && bytes.len() < file.len() - at {
        next.extend_from_slice(&file[at + bytes.len()..])?;
    }
    Ok(next)
}

// The first bytes, as many as there are.
fn cut_to(alloc: Global, file: &[u8], len: usize) -> Result<Vec<u8>>
    ensures ok { IfOk result (λ next. next.items ≡ take len file.now) }
    ensures err { IfErr result (λ e. e ≡ NoMemory) }
{
    if len < file.len() {
        Ok(file[..len].to_vec(alloc)?)
    } else {
        Ok(file.to_vec(alloc)?)
    }
}

// One call more.
fn add(calls: &mut Vec<Call>, call: Call) -> Result<()>
    ensures ok { OnOk result (calls.new.items ≡ calls.old.items ++ call ∷ []) }
    ensures kept { OnErr result (calls.new.items ≡ calls.old.items) }
    ensures err { IfErr result (λ e. e ≡ NoMemory) }
{
    calls.push(call)?;
    Ok(())
}

// What a read returns after a call.
fn seen_by(alloc: Global, call: &Call, seen: &[u8]) -> Result<Vec<u8>>
    ensures ok { IfOk result (λ next. next.items ≡ seen_after call.now seen.now) }
    ensures err { IfErr result (λ e. e ≡ NoMemory) }
{
    match call {
        Call::Write(at, bytes) => written_over(alloc, seen, *at, bytes),
        Call::Cut(len) => cut_to(alloc, seen, *len),
        Call::Sync => Ok(seen.to_vec(alloc)?),
    }
}

// What a crash makes of a call that no sync followed.
fn made_by(alloc: Global, call: &Call, file: &[u8], choices: &mut Choices) -> Result<Vec<u8>>
    ensures ok { IfOk result (λ next. next.items ≡ made_by call.now (left_of choices.old) file.now) }
    ensures left { OnOk result (left_of choices.new ≡ drop (numbers_of call.now (left_of choices.old) file.now) (left_of choices.old)) }
    ensures err { IfErr result (λ e. e ≡ NoMemory) }
{
    match call {
        Call::Write(at, bytes) => torn(alloc, file, *at, bytes, choices),
        Call::Cut(len) => shortened(alloc, file, *len, choices),
        Call::Sync => Ok(file.to_vec(alloc)?),
    }
}

// A write of which a part reaches the disk, and in it other bytes than those that were written.
fn torn(
    alloc: Global,
    file: &[u8],
    at: usize,
    bytes: &[u8],
    choices: &mut Choices,
) -> Result<Vec<u8>>
    ensures ok { IfOk result (λ next. next.items ≡ torn_by (left_of choices.old) at bytes.now file.now) }
    ensures left { OnOk result (left_of choices.new ≡ drop (numbers_of_write (left_of choices.old) at bytes.now file.now) (left_of choices.old)) }
    ensures err { IfErr result (λ e. e ≡ NoMemory) }
{
    if file.len() < at {
        return Ok(file.to_vec(alloc)?);
    }
    if bytes.len() == 1 && at < file.len() {
        return if choices.up_to(1) == 0 {
            written_over(alloc, file, at, bytes)
        } else {
            Ok(file.to_vec(alloc)?)
        };
    }
    several(alloc, file, at, bytes, choices)
}

// The same of several bytes, or of those that are written past the end.
fn several(
    alloc: Global,
    file: &[u8],
    at: usize,
    bytes: &[u8],
    choices: &mut Choices,
) -> Result<Vec<u8>>
    requires { at ≤ length file.now }
    ensures ok { IfOk result (λ next. next.items ≡ several_by (left_of choices.old) at bytes.now file.now) }
    ensures left { OnOk result (left_of choices.new ≡ drop (1 + count_by (left_of choices.old) at bytes.now file.now) (left_of choices.old)) }
    ensures err { IfErr result (λ e. e ≡ NoMemory) }
{
    let within = (file.len() - at).min(bytes.len());
    let count = within + choices.up_to(bytes.len() - within);
    let mut next = file[..at].to_vec(alloc)?;
    let chosen = chosen(alloc, &file[at..], bytes, count, choices)?;
    next.extend_from_slice(&chosen)?;
    if bytes.len() < file.len() - at {
        next.extend_from_slice(&file[at + bytes.len()..])?;
    }
    Ok(next)
}

// So many bytes, each of them the new one, the old one or any other.
fn chosen(
    alloc: Global,
    old: &[u8],
    new: &[u8],
    count: usize,
    choices: &mut Choices,
) -> Result<Vec<u8>>
    requires { count ≤ length new.now }
    ensures ok { IfOk result (λ bytes. bytes.items ≡ bytes_by (left_of choices.old) count old.now new.now) }
    ensures left { OnOk result (left_of choices.new ≡ drop count (left_of choices.old)) }
    ensures err { IfErr result (λ e. e ≡ NoMemory) }
{
    let mut bytes = Vec::new(alloc);
    for i in 0..count {
        let number = choices.up_to(257);
        bytes.push(byte_by(number, old.get(i).copied().unwrap_or(0), new[i]))?;
    }
    Ok(bytes)
}

// A byte of a write, by a number.
fn byte_by(number: usize, old: u8, new: u8) -> u8
    requires { number ≤ 257 }
    ensures { result ≡ byte_by number old new }
{
    match number {
        0 => new,
        1 => old,
        _ => (number - 2) as u8,
    }
}

// A cut that is lost, or some length between.
fn shortened(alloc: Global, file: &[u8], len: usize, choices: &mut Choices) -> Result<Vec<u8>>
    ensures ok { IfOk result (λ next. next.items ≡ shortened_by (left_of choices.old) len file.now) }
    ensures left { left_of choices.new ≡ drop 1 (left_of choices.old) }
    ensures err { IfErr result (λ e. e ≡ NoMemory) }
{
    let least = len.min(file.len());
    let kept = least + choices.up_to(file.len() - least);
    Ok(file[..kept].to_vec(alloc)?)
}

// How many calls there are up to the last sync.
fn synced(calls: &[Call]) -> usize
    ensures within { result ≤ length calls.now }
    ensures followed { (i : ℕ) → i < result → list_any is_sync (drop i calls.now) ≡ true }
    ensures none { (i : ℕ) → result ≤ i → list_any is_sync (drop i calls.now) ≡ false }
{
    let mut count = calls.len();
    while count > 0 && !calls[count - 1].is_sync() {
        count -= 1;
    }
    count
}

impl MemoryDisk {
    ghost use Rattle.sled_disk.specs.Memory.{bytes_of, history_of, outcomes_of, left_by_choices, choices_left, calls_made, calls_refused, faults_of};
    ghost use Rattle.sled_disk.specs.Disk.{Only};

    /// A file with these bytes, all of them on the disk. It refuses no call. Refused with `NoMemory` alone.
    ///
    /// ```
    /// let mut disk = MemoryDisk::new(alloc, vec![in alloc; 1, 2]?)?;
    /// disk.write_at(1, &[7, 8])?; // Not on the disk before a sync.
    /// ```
    pub fn new(alloc: Global, bytes: Vec<u8>) -> Result<MemoryDisk>
        ensures bytes { IfOk result (λ disk. bytes_of disk ≡ bytes.items) }
        ensures durable { IfOk result (λ disk. Only (bytes_of disk) (outcomes_of disk)) }
        ensures named { IfOk result (λ disk. calls_refused disk ≡ []) }
        ensures made { IfOk result (λ disk. calls_made disk ≡ 0) }
        ensures unfailing { IfOk result (λ disk. faults_of disk ≡ 0) }
        ensures err { IfErr result (λ e. e ≡ NoMemory) }
    {
        Ok(MemoryDisk {
            alloc,
            first: bytes.to_vec(alloc)?,
            calls: Vec::new(alloc),
            bytes,
            made: 0,
            refused: Vec::new(alloc),
            faults: 0,
        })
    }

    /// What a crash leaves: a file of its own, all of it on the disk, which refuses no call. The numbers choose among the outcomes that
    /// the disk may leave, and some numbers choose each of those (`law_chooses_all`). They choose for each call since the last sync, the
    /// first of them first.
    ///
    /// - Of a write of a single byte within the file, a number says whether it is lost (1) or not (0).
    /// - Of any other write, the first number says how many bytes are written past the old end. Then a number for each byte says
    ///   whether it is the new one (0), the old one (1) or any other (2 more than that one).
    /// - Of a write behind the end of what is left, nothing is left, and no number chooses.
    /// - Of a cut, a number says how many bytes it leaves of those to be cut off.
    ///
    /// Refused with `NoMemory` alone, and then no number has chosen.
    ///
    /// ```
    /// let mut choices = Choices::new(Vec::new(alloc)); // Numbers that are used up choose 0.
    /// let left = disk.crash(&mut choices)?;
    /// ```
    pub fn crash(&self, choices: &mut Choices) -> Result<MemoryDisk>
        ensures left { IfOk result (λ disk. outcomes_of self.now (bytes_of disk)) }
        ensures chosen { IfOk result (λ disk. bytes_of disk ≡ left_by_choices self.now (left_of choices.old)) }
        ensures numbers { OnOk result (left_of choices.new ≡ choices_left self.now (left_of choices.old)) }
        ensures durable { IfOk result (λ disk. Only (bytes_of disk) (outcomes_of disk)) }
        ensures named { IfOk result (λ disk. calls_refused disk ≡ []) }
        ensures made { IfOk result (λ disk. calls_made disk ≡ 0) }
        ensures unfailing { IfOk result (λ disk. faults_of disk ≡ 0) }
        ensures kept { OnErr result (left_of choices.new ≡ left_of choices.old) }
        ensures err { IfErr result (λ e. e ≡ NoMemory) }
    {
        let mut numbers = choices.copied(self.alloc)?;
        let left = self.left_by(&mut numbers)?;
        let disk = MemoryDisk::new(self.alloc, left)?;
        *choices = numbers;
        Ok(disk)
    }

    // The bytes that a crash leaves.
    fn left_by(&self, choices: &mut Choices) -> Result<Vec<u8>>
        ensures chosen { IfOk result (λ left. left.items ≡ left_by_choices self.now (left_of choices.old)) }
        ensures numbers { OnOk result (left_of choices.new ≡ choices_left self.now (left_of choices.old)) }
        ensures err { IfErr result (λ e. e ≡ NoMemory) }
    {
        let synced = synced(&self.calls);
        let mut left = self.first.to_vec(self.alloc)?;
        'synced: for call in &self.calls[..synced] {
            left = seen_by(self.alloc, call, &left)?;
        }
        'others: for call in &self.calls[synced..] {
            left = made_by(self.alloc, call, &left, choices)?;
        }
        Ok(left)
    }

    /// The calls of these numbers will be refused, and no others. The calls are those of `Disk`, counted from 1 in the order made. Of
    /// them a write is refused with `Full`, any other with `Failed`, and a refused call changes nothing but that the fault is
    /// counted. Refused with `NoMemory` alone, and then the calls that were named before stay named.
    ///
    /// ```
    /// disk.refuse_at(&[3])?; // The third call since the file was made is refused.
    /// ```
    pub fn refuse_at(&mut self, calls: &[u64]) -> Result<()>
        ensures bytes { bytes_of self.new ≡ bytes_of self.old }
        ensures history { history_of self.new ≡ history_of self.old }
        ensures made { calls_made self.new ≡ calls_made self.old }
        ensures faults { faults_of self.new ≡ faults_of self.old }
        ensures named { OnOk result (calls_refused self.new ≡ calls.now) }
        ensures kept { OnErr result (calls_refused self.new ≡ calls_refused self.old) }
        ensures err { IfErr result (λ e. e ≡ NoMemory) }
    {
        self.refused = Vec::from_slice(self.alloc, calls)?;
        Ok(())
    }

    /// The bytes that a read returns.
    ///
    /// ```
    /// let count = disk.bytes().len();
    /// ```
    pub fn bytes(&self) -> &[u8]
        ensures { result.now ≡ bytes_of self.now }
    {
        &self.bytes
    }
}

impl Disk for MemoryDisk {
    ghost use Rattle.sled_disk.specs.Disk.{Torn, Shortened, Follows, NoMore, Only, Elapses, HasCause};
    ghost use Rattle.sled_disk.specs.declared.memory.Call.TheVariants.{Cut, Sync};
    ghost use Rattle.sled_disk.specs.Memory.{bytes_of, history_of, with_call, outcomes_of, left_since_of, moment_of, faults_of, IsWritten, IsCall};

    ghost seen = { bytes_of };

    ghost may_leave = { outcomes_of };

    ghost moment = { moment_of };

    ghost left_since = { left_since_of };

    ghost faults = { faults_of };

    ghost use Rattle.sled_disk.specs.Laws.{counts_now as counts, only_now as only};

    ghost counts_now = { λ m t c le left. counts m.first.items m.calls.items t c le left };

    ghost only_now = { λ m c left. only m.first.items m.calls.items c left };

    ghost may_stay = { λ m. inl m.replayed };

    fn len(&mut self) -> Result<usize>
        ensures bytes { IfOk result (λ len. len ≡ length (bytes_of self.old)) }
        ensures seen { bytes_of self.new ≡ bytes_of self.old }
        ensures history { history_of self.new ≡ history_of self.old }
        ensures crash { NoMore (outcomes_of self.old) (outcomes_of self.new) }
        ensures time { Elapses (moment_of self.old) (moment_of self.new) (left_since_of self.old) (left_since_of self.new) (outcomes_of self.new) }
        ensures cause { HasCause (faults_of self.old) (faults_of self.new) result }
        ensures call { IsCall Failed self.old self.new result }
    {
        count_call(
            &mut self.made,
            &mut self.faults,
            self.refused.as_slice(),
            false,
        )?;
        Ok(self.bytes.len())
    }

    fn read(&mut self, alloc: Global, at: usize, count: usize) -> Result<Vec<u8>>
        requires { at + count ≤ length (bytes_of self.old) }
        ensures bytes { IfOk result (λ bytes. bytes.items ≡ take count (drop at (bytes_of self.old))) }
        ensures seen { bytes_of self.new ≡ bytes_of self.old }
        ensures history { history_of self.new ≡ history_of self.old }
        ensures crash { NoMore (outcomes_of self.old) (outcomes_of self.new) }
        ensures time { Elapses (moment_of self.old) (moment_of self.new) (left_since_of self.old) (left_since_of self.new) (outcomes_of self.new) }
        ensures cause { HasCause (faults_of self.old) (faults_of self.new) result }
        ensures call { IsCall Failed self.old self.new result }
    {
        count_call(
            &mut self.made,
            &mut self.faults,
            self.refused.as_slice(),
            false,
        )?;
        Ok(self.bytes[at..at + count].to_vec(alloc)?)
    }

    // A read is a call of its own, which tests refuse.
    fn lent(&self) -> Option<&[u8]> {
        None
    }

    fn write_at(&mut self, at: usize, bytes: &[u8]) -> Result<()>
        requires { at ≤ length (bytes_of self.old) }
        ensures written { OnOk result (bytes_of self.new ≡ written at bytes.now (bytes_of self.old)) }
        ensures history { OnOk result (IsWritten at bytes.now self.old self.new) }
        ensures crash { Follows (Torn at bytes.now) (outcomes_of self.old) (outcomes_of self.new) }
        ensures time { Elapses (moment_of self.old) (moment_of self.new) (left_since_of self.old) (left_since_of self.new) (outcomes_of self.new) }
        ensures cause { HasCause (faults_of self.old) (faults_of self.new) result }
        ensures call { IsCall Full self.old self.new result }
    {
        count_call(
            &mut self.made,
            &mut self.faults,
            self.refused.as_slice(),
            true,
        )?;
        let next = written_over(self.alloc, &self.bytes, at, bytes)?;
        let call = Call::Write(at, bytes.to_vec(self.alloc)?);
        add(&mut self.calls, call)?;
        self.bytes = next;
        Ok(())
    }

    fn cut(&mut self, len: usize) -> Result<()>
        requires { len ≤ length (bytes_of self.old) }
        ensures cut { OnOk result (bytes_of self.new ≡ take len (bytes_of self.old)) }
        ensures history { OnOk result (history_of self.new ≡ with_call (Cut len) (history_of self.old)) }
        ensures crash { Follows (Shortened len) (outcomes_of self.old) (outcomes_of self.new) }
        ensures time { Elapses (moment_of self.old) (moment_of self.new) (left_since_of self.old) (left_since_of self.new) (outcomes_of self.new) }
        ensures cause { HasCause (faults_of self.old) (faults_of self.new) result }
        ensures call { IsCall Failed self.old self.new result }
    {
        count_call(
            &mut self.made,
            &mut self.faults,
            self.refused.as_slice(),
            false,
        )?;
        let next = self.bytes[..len].to_vec(self.alloc)?;
        add(&mut self.calls, Call::Cut(len))?;
        self.bytes = next;
        Ok(())
    }

    fn sync(&mut self) -> Result<()>
        ensures durable { OnOk result (Only (bytes_of self.old) (outcomes_of self.new)) }
        ensures seen { bytes_of self.new ≡ bytes_of self.old }
        ensures history { OnOk result (history_of self.new ≡ with_call Sync (history_of self.old)) }
        ensures crash { NoMore (outcomes_of self.old) (outcomes_of self.new) }
        ensures time { Elapses (moment_of self.old) (moment_of self.new) (left_since_of self.old) (left_since_of self.new) (outcomes_of self.new) }
        ensures cause { HasCause (faults_of self.old) (faults_of self.new) result }
        ensures call { IsCall Failed self.old self.new result }
    {
        count_call(
            &mut self.made,
            &mut self.faults,
            self.refused.as_slice(),
            false,
        )?;
        add(&mut self.calls, Call::Sync)
    }
}
