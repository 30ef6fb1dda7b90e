//! What one file of a store is found to be.
ghost use Rattle.std.specs.Prelude.{◌≡◌, ◌++◌, ◌↔◌, ℕ, List, [], map, take, IfOk, IfErr, IfSome, IfNone, IsTrue};
ghost use Rattle.sled_disk.specs.declared.disk.DiskError as disk;
ghost use Rattle.sled_files.specs.Header.{magic, header};
ghost use Rattle.sled_files.specs.theory.Found.{IsFoundAs, IsNoFile, is_why_no_file, is_why_headless, IsNoLog, HasHeader, FlawOf};
ghost use Rattle.sled_files.specs.Flaws.{HasMagic};

use sled_disk::DiskError;
use sled_log::{Log, LogError, read_log};
use std::alloc::Global;
use std::fmt::{self, Display, Formatter, Write};

// "donnavek" as a number, the low byte first.
const MAGIC: u64 = 0x6b65_7661_6e6e_6f64;

const FORMAT: u32 = 1;

// How many bytes of a block are before its payload.
const AHEAD: usize = 17;

/// Why files are not opened as a store.
#[derive(Clone, Copy, Debug, PartialEq, Eq)]
pub enum OpenError {
    /// There was no memory for what the files have.
    NoMemory,
    /// A file is one of something else.
    NotAStore,
    /// A file is one of a store in this format, which is another.
    OtherFormat(u32),
    /// A file was changed since it was written. The first fault that was met is at this place of it, a number of bytes.
    Decayed(usize),
    /// A call of a disk was refused.
    Disk(DiskError),
}

impl Display for OpenError {
    fn fmt<W: Write>(&self, f: &mut Formatter<W>) -> fmt::Result {
        match self {
            OpenError::NoMemory => f.write_str("no memory"),
            OpenError::NotAStore => f.write_str("a file is not part of a store"),
            OpenError::OtherFormat(format) => write!(f, "a file is of a store in format {format}"),
            OpenError::Decayed(place) => write!(f, "a file is damaged at byte {place}"),
            OpenError::Disk(_) => f.write_str("a disk refused a call"),
        }
    }
}

impl std::error::Error for OpenError {}

/// A file that is a log of a store: its generation, the closed gate of the log, what is behind the header of the first payload, and
/// all payloads.
#[derive(Drop)]
pub struct Found<'a> {
    pub generation: u64,
    pub gate: usize,
    pub first: &'a [u8],
    pub payloads: Vec<&'a [u8]>,
}

// Whether bytes begin with the name of the format.
fn begins_with_magic(bytes: &[u8]) -> bool
    ensures { IsTrue result ↔ (take 8 bytes.now ≡ magic) }
{
    match bytes.first_chunk::<8>() {
        Some(first) => u64::from_le_bytes(*first) == MAGIC,
        None => false,
    }
}

// Whether the name of the format is where the first payload of a log begins.
fn has_magic(bytes: &[u8]) -> bool
    ensures { IsTrue result ↔ HasMagic bytes.now }
{
    if bytes.len() < AHEAD {
        return false;
    }
    begins_with_magic(&bytes[AHEAD..])
}

// The generation in the header that a payload begins with, and what is behind the header.
fn read_header(payload: &[u8]) -> Result<(u64, &[u8]), OpenError>
    ensures ok { IfOk result (λ x. payload.now ≡ header x.0 ++ x.1.now) }
    ensures none { IfErr result (λ _. (generation : ℕ) (first : List ℕ) → payload.now ≡ header generation ++ first → ⊥) }
    ensures cause { IfErr result (λ e. is_why_headless e payload.now) }
{
    if !begins_with_magic(payload) {
        return Err(OpenError::Decayed(AHEAD));
    }
    let Some((format, behind)) = payload[8..].split_first_chunk::<4>() else {
        return Err(OpenError::Decayed(AHEAD));
    };
    let format = u32::from_le_bytes(*format);
    if format != FORMAT {
        return Err(OpenError::OtherFormat(format));
    }
    let Some((generation, first)) = behind.split_first_chunk::<8>() else {
        return Err(OpenError::Decayed(AHEAD));
    };
    Ok((u64::from_le_bytes(*generation), first))
}

// The flaw of a file, or that it is one of something else.
fn flaw_of(bytes: &[u8], flaw: OpenError) -> OpenError
    ensures { FlawOf bytes.now flaw result }
{
    if has_magic(bytes) {
        flaw
    } else {
        OpenError::NotAStore
    }
}

// A log as a file of a store, or as a blank one.
fn found_of<'a>(log: Log<'a>) -> Result<Option<Found<'a>>, OpenError>
    ensures blank { IfOk result (λ o. IfNone o (map (λ p. p.now) log.entry.payloads.items ≡ [])) }
    ensures found { IfOk result (λ o. IfSome o (λ f. HasHeader (map (λ p. p.now) log.entry.payloads.items) f.generation f.first.now)) }
    ensures gate { IfOk result (λ o. IfSome o (λ f. (f.gate ≡ log.entry.gate) × (f.payloads.items ≡ log.entry.payloads.items))) }
    ensures err { IfErr result (λ e. IsNoLog e (map (λ p. p.now) log.entry.payloads.items)) }
{
    let Log { payloads, gate } = log;
    let Some(payload) = payloads.first() else {
        return Ok(None);
    };
    match read_header(payload) {
        Ok((generation, first)) => Ok(Some(Found {
            generation,
            gate,
            first,
            payloads,
        })),
        Err(e) => {
            drop(payloads);
            Err(e)
        }
    }
}

/// What a file is: none if it is blank, or a file of a store. Refused if it is neither.
pub fn read_file(alloc: Global, bytes: &[u8]) -> Result<Option<Found<'_>>, OpenError>
    ensures ok { IfOk result (IsFoundAs bytes.now) }
    ensures err { IfErr result (λ e. is_why_no_file e bytes.now) }
{
    if bytes.len() <= 1 {
        return Ok(None);
    }
    match read_log(alloc, bytes) {
        Ok(log) => match found_of(log) {
            Ok(found) => Ok(found),
            Err(e) => Err(flaw_of(bytes, e)),
        },
        Err(LogError::NoMemory) => Err(OpenError::NoMemory),
        Err(LogError::Decayed(at)) => Err(flaw_of(bytes, OpenError::Decayed(at))),
    }
}
