//! Words: how byte strings and numbers are written in a line.
//!
//! In a word a byte from `!` to `~` other than `%` is itself, and `%` with two lower-case hexadecimal digits is the
//! byte of that number. The word `%` alone is the empty string. The word `-` is no byte string: it means none if a
//! command allows that.
ghost use Rattle.std.specs.Prelude.{◌≡◌, true, ◌+◌, ◌^◌, ◌<◌, ◌≤◌, ◌++◌, ◌∷◌, length, decimal, take, Some, None, IfOk, IfErr, OnOk, IfSome, option_map, ◌*◌, MatchOption};
ghost use Rattle.std.specs.Char.{digit_value};
ghost use Rattle.std.specs.Int.{IsInRange};
ghost use Rattle.std.specs.List.{flat_map, list_all};
ghost use Rattle.sled_nodes.specs.declared.error.Error.TheVariants.{NoMemory};
ghost use Rattle.line_words.specs.Words.{is_plain, hex_digit, hex_value, byte_of, escape, spelled, printed, bytes_of, read_word, read_value, number_of, read_number, words_of, words_after, ReadsPrinted, ReadsValues, PrintsShortest, ReadsDecimals};
ghost use Rattle.line_words.specs.theory.Words.{BeginsWith};

use crate::search::{LANES, find};
use sled_nodes::{IVec, Result};
use std::alloc::Global;

// Whether a byte stands for itself.
fn is_plain(byte: u8) -> bool
    ensures { result ≡ is_plain byte }
{
    33 <= byte && byte <= 126 && byte != b'%'
}

// The hexadecimal digit of a number.
fn hex_digit(number: u8) -> u8
    requires { number < 16 }
    ensures { result ≡ hex_digit number }
{
    if number < 10 {
        b'0' + number
    } else {
        b'a' - 10 + number
    }
}

// What a hexadecimal digit counts.
fn hex_value(digit: u8) -> Option<u8>
    ensures small { IfSome result (λ n. n < 16) }
    ensures value { result ≡ hex_value digit }
{
    match digit {
        b'0'..=b'9' => Some(digit - b'0'),
        b'a'..=b'f' => Some(digit - b'a' + 10),
        _ => None,
    }
}

// The byte of two hexadecimal digits.
fn byte_of(high: u8, low: u8) -> Option<u8>
    ensures { result ≡ byte_of (hex_value high) (hex_value low) }
{
    match (hex_value(high), hex_value(low)) {
        (Some(high), Some(low)) => Some(high * 16 + low),
        _ => None,
    }
}

/// Adds `%` and the two hexadecimal digits of a byte.
pub fn push_escape(out: &mut Vec<u8>, byte: u8) -> Result<()>
    ensures ok { OnOk result (out.new.items ≡ out.old.items ++ escape byte) }
    ensures err { IfErr result (λ e. e ≡ NoMemory) }
{
    out.push(b'%')?;
    out.push(hex_digit(byte / 16))?;
    out.push(hex_digit(byte % 16))?;
    Ok(())
}

// Adds a byte as it is written in a word.
fn push_byte(out: &mut Vec<u8>, byte: u8) -> Result<()>
    ensures ok { OnOk result (out.new.items ≡ out.old.items ++ spelled byte) }
    ensures err { IfErr result (λ e. e ≡ NoMemory) }
{
    if is_plain(byte) {
        out.push(byte)?;
        return Ok(());
    }
    push_escape(out, byte)
}

// Whether each byte stands for itself. It looks at all of them, so that the compiler can test many at a time.
#[inline(always)]
fn few_plain(bytes: &[u8]) -> bool
    ensures { result ≡ list_all is_plain bytes.now }
{
    let mut plain = true;
    for byte in bytes {
        plain = plain & is_plain(*byte);
    }
    plain
}

// The same of many bytes. The last sixteen are looked at whole, even if some of them were looked at before.
fn all_plain(bytes: &[u8]) -> bool
    ensures { result ≡ list_all is_plain bytes.now }
{
    if bytes.len() < LANES {
        return few_plain(bytes);
    }
    let last = bytes.len() - LANES;
    let mut at = 0;
    while at < last {
        if !few_plain(&bytes[at..at + LANES]) {
            return false;
        }
        at += LANES;
    }
    few_plain(&bytes[last..])
}

// How many bytes in front stand for themselves.
fn count_plain(bytes: &[u8]) -> usize
    ensures within { result ≤ length bytes.now }
    ensures plain { list_all is_plain (take result bytes.now) ≡ true }
{
    if all_plain(bytes) {
        return bytes.len();
    }
    for (at, byte) in bytes.iter().enumerate() {
        if !is_plain(*byte) {
            return at;
        }
    }
    bytes.len()
}

// Adds bytes as they are written in a word: those in a row that stand for themselves all at once.
fn push_bytes(out: &mut Vec<u8>, bytes: &[u8]) -> Result<()>
    ensures ok { OnOk result (out.new.items ≡ out.old.items ++ flat_map spelled bytes.now) }
    ensures err { IfErr result (λ e. e ≡ NoMemory) }
{
    let mut rest = bytes;
    'runs: loop {
        let (plain, others) = rest.split_at(count_plain(rest));
        out.extend_from_slice(plain)?;
        let Some((byte, others)) = others.split_first() else {
            return Ok(());
        };
        push_byte(out, *byte)?;
        rest = others;
    }
}

/// Adds the word of a byte string, which is the shortest that spells it. Refused with `NoMemory` alone; a beginning of
/// the word may be there then.
pub fn push_word(out: &mut Vec<u8>, bytes: &[u8]) -> Result<()>
    ensures ok { OnOk result (out.new.items ≡ out.old.items ++ printed bytes.now) }
    ensures err { IfErr result (λ e. e ≡ NoMemory) }
{
    match bytes {
        [] => {
            out.push(b'%')?;
            Ok(())
        }
        [b'-'] => push_escape(out, b'-'),
        _ => push_bytes(out, bytes),
    }
}

// The byte that a word begins with, and the rest of the word; `None` if it begins with none.
fn first_byte(word: &[u8]) -> Option<(u8, &[u8])>
    ensures { BeginsWith word.now result }
{
    let (first, rest) = word.split_first()?;
    if *first != b'%' {
        return if is_plain(*first) {
            Some((*first, rest))
        } else {
            None
        };
    }
    let Some((high, rest)) = rest.split_first() else {
        return None;
    };
    let Some((low, rest)) = rest.split_first() else {
        return None;
    };
    match byte_of(*high, *low) {
        Some(byte) => Some((byte, rest)),
        None => None,
    }
}

// The bytes that a word spells one by one, or `None` if it does not.
fn bytes_of(alloc: Global, word: &[u8]) -> Result<Option<Vec<u8>>>
    ensures ok { IfOk result (λ bytes. option_map (λ b. b.items) bytes ≡ bytes_of word.now) }
    ensures err { IfErr result (λ e. e ≡ NoMemory) }
{
    let mut bytes = Vec::new(alloc);
    let mut rest = word;
    while !rest.is_empty() {
        let Some((byte, others)) = first_byte(rest) else {
            return Ok(None);
        };
        bytes.push(byte)?;
        rest = others;
    }
    Ok(Some(bytes))
}

// The byte string that a word spells, or `None` if it does not. Most words stand for themselves, and are taken at once.
fn spelled_by(alloc: Global, word: &[u8]) -> Result<Option<IVec>>
    ensures ok { IfOk result (λ bytes. bytes ≡ bytes_of word.now) }
    ensures err { IfErr result (λ e. e ≡ NoMemory) }
{
    if count_plain(word) == word.len() {
        return Ok(Some(IVec::from_slice(alloc, word)?));
    }
    match bytes_of(alloc, word)? {
        Some(bytes) => Ok(Some(IVec::from_slice(alloc, bytes.as_slice())?)),
        None => Ok(None),
    }
}

/// The byte string of a word, or `None` if it is no byte string. Refused with `NoMemory` alone.
pub fn read_word(alloc: Global, word: &[u8]) -> Result<Option<IVec>>
    ensures ok { IfOk result (λ bytes. bytes ≡ read_word word.now) }
    ensures err { IfErr result (λ e. e ≡ NoMemory) }
{
    match word {
        b"%" => Ok(Some(IVec::from_slice(alloc, b"")?)),
        b"-" | b"" => Ok(None),
        _ => spelled_by(alloc, word),
    }
}

/// The value of a word, if `-` is none; `None` if it is no value. Refused with `NoMemory` alone.
pub fn read_value(alloc: Global, word: &[u8]) -> Result<Option<Option<IVec>>>
    ensures ok { IfOk result (λ value. value ≡ read_value word.now) }
    ensures err { IfErr result (λ e. e ≡ NoMemory) }
{
    if word == b"-".as_slice() {
        return Ok(Some(None));
    }
    match read_word(alloc, word)? {
        Some(bytes) => Ok(Some(Some(bytes))),
        None => Ok(None),
    }
}

// A number with one more digit, if it fits.
fn with_digit(number: u64, digit: u8) -> Option<u64>
    requires { IsInRange 48 57 digit }
    ensures { MatchOption result (2 ^ 64 ≤ number * 10 + digit_value digit) (λ more. more ≡ number * 10 + digit_value digit) }
{
    let Some(tens) = number.checked_mul(10) else {
        return None;
    };
    tens.checked_add(u64::from(digit - b'0'))
}

// The number that digits write, if it fits.
fn number_of(digits: &[u8]) -> Option<u64>
    ensures { result ≡ number_of digits.now }
{
    let mut number = 0;
    for digit in digits {
        if !digit.is_ascii_digit() {
            return None;
        }
        let Some(more) = with_digit(number, *digit) else {
            return None;
        };
        number = more;
    }
    Some(number)
}

/// The number of a word: decimal digits without leading zeros, that fit 64 bits. Else `None`.
pub fn read_number(word: &[u8]) -> Option<u64>
    ensures { result ≡ read_number word.now }
{
    match word {
        [] | [b'0', _, ..] => None,
        _ => number_of(word),
    }
}

// What is printed for a byte string is read as that byte string.
#[allow(dead_code)]
fn reads_printed()
    ensures { ReadsPrinted }
{}

// What is printed for a value, or none, is read as that value, or none.
#[allow(dead_code)]
fn reads_values()
    ensures { ReadsValues }
{}

// No word of a byte string is shorter than the one that is printed, and no other is as short.
#[allow(dead_code)]
fn prints_shortest()
    ensures { PrintsShortest }
{}

// A number is read from its decimal digits, and from nothing else.
#[allow(dead_code)]
fn reads_decimals()
    ensures { ReadsDecimals }
{}

/// The first word of a line, and what is after the space that ends it, if there is a space.
pub fn first_word(line: &[u8]) -> (&[u8], Option<&[u8]>)
    ensures { words_of line.now ≡ result.0.now ∷ words_after result.1 }
{
    match find(b' ', line) {
        Some(at) => (&line[..at], Some(&line[at + 1..])),
        None => (line, None),
    }
}
