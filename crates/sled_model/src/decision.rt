//! What a call on one key does and replies, by the value that is there. A scan changes nothing of any value.
ghost use Rattle.std.specs.Prelude.{◌≡◌, IfOk, IfErr, Some};
ghost use Rattle.std.specs.Option.{option_map, option_copied};
ghost use Rattle.sled_nodes.specs.declared.error.Error.TheVariants.{NoMemory};
ghost use Rattle.sled_model.specs.Answer.{ReadDecides, decision_of, decision_of_swap, reply_of_swap};
ghost use Rattle.sled_model.specs.declared.call.Call.TheVariants.{Merge};
ghost use Rattle.sled_model.specs.declared.decision.Effect.TheVariants as effect;
ghost use Rattle.sled_model.specs.declared.reply.Reply.TheVariants as told;

use crate::{Call, CompareAndSwapError, MergeOperator, Reply};
use sled_nodes::{Error, IVec, Result, clone_value};
use std::alloc::Global;

/// What becomes of the value at a key.
#[derive(Drop, PartialEq, Eq)]
pub enum Effect {
    /// It stays, and subscribers learn of nothing.
    Nothing,
    /// The key has this value, which may be the one that it had, and subscribers learn of it.
    Set(IVec),
    /// The key has no value, and subscribers learn of it.
    Remove,
}

/// What becomes of the value at the key of a call, and the call's reply.
#[derive(Drop, PartialEq, Eq)]
pub struct Decision {
    pub effect: Effect,
    pub reply: Reply,
}

impl Call {
    /// The reply of the call if this value is at its key and it changes nothing; without one it is to link its change.
    /// Refused with `NoMemory` alone.
    ///
    /// ```
    /// // A get replies with the value; an insert of another one has to link it.
    /// let reply = call.at_read(Some(value))?;
    /// ```
    #[inline(always)]
    pub fn at_read(&self, value: Option<IVec>) -> Result<Option<Reply>>
        ensures ok { IfOk result (ReadDecides self.now value) }
        ensures err { IfErr result (λ e. e ≡ NoMemory) }
    {
        let links = match self {
            Call::Get(_) => false,
            Call::Insert(_, new) => match &value {
                Some(old) => old != new,
                None => true,
            },
            Call::Remove(_) => value.is_some(),
            Call::CompareAndSwap(_, old, new) => return conflict(value, old, new),
            Call::Merge(_, _) => true,
            Call::Scan { .. } => {
                drop(value);
                return Ok(Some(Reply::End));
            }
        };
        if links {
            drop(value);
            return Ok(None);
        }
        Ok(Some(Reply::Value(value)))
    }

    /// What the call does and replies if this value is at its key, by the merge operator of its tree. Refused with `NoMemory`
    /// alone.
    ///
    /// ```
    /// let decision = call.at_link(alloc, Some(value), Some(&Adds))?; // Its effect on the key, and its reply.
    /// ```
    pub fn at_link<M: MergeOperator>(
        &self,
        alloc: Global,
        value: Option<IVec>,
        operator: Option<&M>,
    ) -> Result<Decision>
        ensures ok { IfOk result (λ decision. decision ≡ decision_of (option_map (λ o. M.meant o.now) operator.entry) self.now value) }
        ensures err { IfErr result (λ e. e ≡ NoMemory) }
    {
        let effect = match self {
            Call::Get(_) => Effect::Nothing,
            Call::Insert(_, new) => match &value {
                Some(old) if old == new => Effect::Nothing,
                _ => Effect::Set(new.clone()?),
            },
            Call::Remove(_) => match &value {
                Some(_) => Effect::Remove,
                None => Effect::Nothing,
            },
            Call::CompareAndSwap(_, old, new) => return swap(value, old, new),
            Call::Merge(key, bytes) => return merge(alloc, key, value, bytes, operator),
            Call::Scan { .. } => {
                drop(value);
                return Ok(Decision {
                    effect: Effect::Nothing,
                    reply: Reply::End,
                });
            }
        };
        Ok(Decision {
            effect,
            reply: Reply::Value(value),
        })
    }
}

// The reply of a swap if another value is there than the one that was expected.
fn conflict(value: Option<IVec>, old: &Option<IVec>, new: &Option<IVec>) -> Result<Option<Reply>>
    ensures ok { IfOk result (λ reply. reply ≡ reply_of_swap value old.now new.now) }
    ensures err { IfErr result (λ e. e ≡ NoMemory) }
{
    if value == *old {
        drop(value);
        return Ok(None);
    }
    match clone_value(new) {
        Ok(proposed) => Ok(Some(Reply::Swapped(Err(CompareAndSwapError {
            current: value,
            proposed,
        })))),
        Err(e) => {
            drop(value);
            Err(e)
        }
    }
}

// A value is swapped if it is the one that was expected.
#[inline(always)]
fn swap(value: Option<IVec>, old: &Option<IVec>, new: &Option<IVec>) -> Result<Decision>
    ensures ok { IfOk result (λ decision. decision ≡ decision_of_swap value old.now new.now) }
    ensures err { IfErr result (λ e. e ≡ NoMemory) }
{
    if value != *old {
        return Ok(Decision {
            effect: Effect::Nothing,
            reply: Reply::Swapped(Err(CompareAndSwapError {
                current: value,
                proposed: clone_value(new)?,
            })),
        });
    }
    let effect = match new {
        Some(new) => Effect::Set(new.clone()?),
        None => Effect::Remove,
    };
    Ok(Decision {
        effect,
        reply: Reply::Swapped(Ok(())),
    })
}

// The bytes are joined to the value that is there, by the operator.
fn merge<M: MergeOperator>(
    alloc: Global,
    key: &IVec,
    value: Option<IVec>,
    bytes: &IVec,
    operator: Option<&M>,
) -> Result<Decision>
    ensures ok { IfOk result (λ decision. decision ≡ decision_of (option_map (λ o. M.meant o.now) operator.entry) (Merge key.now bytes.now) value) }
    ensures err { IfErr result (λ e. e ≡ NoMemory) }
{
    let Some(operator) = operator else {
        drop(value);
        return Ok(Decision {
            effect: Effect::Remove,
            reply: Reply::Value(None),
        });
    };
    let merged = operator.merge(alloc, key.as_ref(), bytes_of(&value), bytes.as_ref());
    drop(value);
    match merged {
        Ok(Some(new)) => write(alloc, new.as_slice()),
        Ok(None) => Ok(Decision {
            effect: Effect::Remove,
            reply: Reply::Value(None),
        }),
        Err(_) => Err(Error::NoMemory),
    }
}

// The bytes of a value, if there is one.
fn bytes_of(value: &Option<IVec>) -> Option<&[u8]>
    ensures { option_copied result ≡ value.now }
{
    match value {
        Some(value) => Some(value.as_ref()),
        None => None,
    }
}

// A value is written, and the reply has it.
fn write(alloc: Global, value: &[u8]) -> Result<Decision>
    ensures ok { IfOk result (λ decision. decision ≡ record { effect = effect.Set value.now; reply = told.Value (Some value.now) }) }
    ensures err { IfErr result (λ e. e ≡ NoMemory) }
{
    let value = IVec::from_slice(alloc, value)?;
    match value.clone() {
        Ok(copy) => Ok(Decision {
            effect: Effect::Set(value),
            reply: Reply::Value(Some(copy)),
        }),
        Err(e) => {
            drop(value);
            Err(e)
        }
    }
}
