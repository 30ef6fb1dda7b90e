//! What a step keeps of the reply of a call, for programs that record the outcomes of calls.
ghost use Rattle.std.specs.Prelude.{◌≡◌, true, false, IfOk, IfErr};
ghost use Rattle.sled_nodes.specs.declared.error.Error.TheVariants.{NoMemory};
ghost use Rattle.sled_model.specs.declared.outcome.Outcome.TheVariants.{Decided};
ghost use Rattle.tree_steps.specs.Outcomes.{kept_of};
ghost use Rattle.tree_steps.specs.theory.Outcomes.{IsUnkept, is_light};

use sled_model::{Reply, Subscriber};
use sled_nodes::Result;

// The same reply. Refused with `NoMemory` alone, and only if the reply owns memory.
fn again(reply: &Reply) -> Result<Reply>
    ensures ok { IfOk result (λ copy. copy ≡ reply.now) }
    ensures err { IfErr result (λ e. (e ≡ NoMemory) × (is_light reply.now ≡ false)) }
{
    match reply {
        Reply::Number(number) => Ok(Reply::Number(*number)),
        Reply::End => Ok(Reply::End),
        Reply::Done => Ok(Reply::Done),
        Reply::Flag(flag) => Ok(Reply::Flag(*flag)),
        Reply::Subscriber(subscriber) => Ok(Reply::Subscriber(Subscriber(subscriber.0))),
        reply => reply.clone(),
    }
}

/// What is kept of a step or of a whole call: nothing (`()`), or two copies of the reply if the call is decided (`Option<(Reply, Reply)>`).
///
/// Copies are made before the action that decides the call: if there is no memory for them it is refused, and not decided. A
/// call that links a change has its reply before the link. A step that links none decides its call by a page that it read, after which
/// nothing was changed, and so it may still be refused. Of a reply that owns no memory copies are made at any time.
pub trait Keep: Drop {
    ghost use Rattle.std.specs.Prelude.{Bool};
    ghost use Rattle.sled_model.specs.declared.outcome.Outcome.{Outcome};

    /// Whether anything is kept.
    const COPIES: bool;

    ghost COPIES: { Bool };

    /// What is kept of a step, or of a whole call, that comes out so.
    ghost kept: { Outcome → Self };

    /// What is kept if the call is not decided.
    fn nothing() -> Self
        ensures { (o : Outcome) → IsUnkept COPIES o → result ≡ kept o };

    /// What is kept of a call that is decided. Refused with `NoMemory` alone, and only if the reply owns memory.
    fn of(reply: &Reply) -> Result<Self>
        ensures ok { IfOk result (λ all. all ≡ kept (Decided reply.now)) }
        ensures err { IfErr result (λ e. (e ≡ NoMemory) × (is_light reply.now ≡ false) × (COPIES ≡ true)) };
}

impl Keep for () {
    const COPIES: bool = false;

    ghost COPIES = { false };

    ghost kept = { λ o. tt };

    #[inline(always)]
    fn nothing() {}

    #[inline(always)]
    fn of(_reply: &Reply) -> Result<()> {
        Ok(())
    }
}

impl Keep for Option<(Reply, Reply)> {
    const COPIES: bool = true;

    ghost COPIES = { true };

    ghost kept = { kept_of };

    fn nothing() -> Option<(Reply, Reply)> {
        None
    }

    fn of(reply: &Reply) -> Result<Option<(Reply, Reply)>> {
        let first = match again(reply) {
            Ok(first) => first,
            Err(e) => return Err(e),
        };
        match again(reply) {
            Ok(second) => Ok(Some((first, second))),
            Err(e) => {
                drop(first);
                Err(e)
            }
        }
    }
}
