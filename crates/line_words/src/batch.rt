//! Batches: the writes of the words of a line.
ghost use Rattle.std.specs.Prelude.{◌≡◌, Some, None, IfOk, IfErr, OnOk, if◌then◌else◌};
ghost use Rattle.std.specs.FinMap.Entries.{put};
ghost use Rattle.sled_nodes.specs.Order.{key_cmp};
ghost use Rattle.sled_nodes.specs.declared.error.Error.TheVariants.{NoMemory};
ghost use Rattle.line_words.specs.Words.{words_after, read_word, read_value};
ghost use Rattle.line_words.specs.Batch.{write_after, writes_after, batch_of};

use crate::words::{first_word, read_value, read_word};
use sled_batch::Batch;
use sled_nodes::{IVec, Result};
use std::alloc::Global;

// Adds the write of a key.
fn write(alloc: Global, batch: &mut Batch, key: &IVec, value: &Option<IVec>) -> Result<()>
    ensures ok { OnOk result (batch.new ≡ put key_cmp key.now value.now batch.old) }
    ensures err { IfErr result (λ e. e ≡ NoMemory) }
{
    match value {
        Some(value) => batch.insert(alloc, key.as_ref(), value.as_ref()),
        None => batch.remove(alloc, key.as_ref()),
    }
}

// Adds the write of two words, unless they are no key and no value.
fn add_write(alloc: Global, batch: &mut Batch, key: &[u8], value: &[u8]) -> Result<bool>
    ensures ok { IfOk result (λ added. write_after batch.old (read_word key.now) (read_value value.now) ≡ (if added then Some batch.new else None)) }
    ensures err { IfErr result (λ e. e ≡ NoMemory) }
{
    let Some(key) = read_word(alloc, key)? else {
        return Ok(false);
    };
    let value = match read_value(alloc, value) {
        Ok(Some(value)) => value,
        other => {
            drop(key);
            return other.map(|_| false);
        }
    };
    let written = write(alloc, batch, &key, &value);
    drop(key);
    drop(value);
    written.map(|()| true)
}

// Adds the writes of words, unless they are no keys and values.
fn add_writes(alloc: Global, batch: &mut Batch, words: Option<&[u8]>) -> Result<bool>
    ensures ok { IfOk result (λ added. writes_after (Some batch.old) (words_after words.entry) ≡ (if added then Some batch.new else None)) }
    ensures err { IfErr result (λ e. e ≡ NoMemory) }
{
    let mut rest = words;
    while let Some(words) = rest {
        let (key, others) = first_word(words);
        let Some(others) = others else {
            return Ok(false);
        };
        let (value, others) = first_word(others);
        if !add_write(alloc, batch, key, value)? {
            return Ok(false);
        }
        rest = others;
    }
    Ok(true)
}

/// The batch of words that are a key and its value in turn, in which `-` removes the key; `None` if they are not. Of a key the last
/// write counts. Refused with `NoMemory` alone.
pub fn read_batch(alloc: Global, words: Option<&[u8]>) -> Result<Option<Batch>>
    ensures ok { IfOk result (λ batch. batch ≡ batch_of (words_after words.entry)) }
    ensures err { IfErr result (λ e. e ≡ NoMemory) }
{
    let mut batch = Batch::default(alloc);
    match add_writes(alloc, &mut batch, words) {
        Ok(true) => Ok(Some(batch)),
        other => {
            drop(batch);
            other.map(|_| None)
        }
    }
}
