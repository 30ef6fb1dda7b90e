//! Whole calls by their own names, and what came of them.
use crate::asking::{Ask, Told, batch_of, batches_of, error_told, next_told, pairs_of, reply_told};
use crate::beside::{Scene, Way};
use sled_machine::shared::{Answer, CallError, CallResult, Question, reply_of};
use sled_machine::{Next, Reply, Subscriber, Tree};
use sled_nodes::{Error, IVec};
use std::process::Abort;
use std::sync::Wait;
use std::sync::ledger::Ledger;

// Why a call has no answer.
fn why_told(why: CallError) -> Told {
    let told = match &why {
        CallError::Refused(error) => error_told(error),
        CallError::NoSuchSlot => Told::NoSuchSlot,
    };
    drop(why);
    told
}

fn done_told(answer: CallResult<()>) -> Told {
    match answer {
        Ok(()) => Told::Done,
        Err(why) => why_told(why),
    }
}

fn number_told(answer: CallResult<u64>) -> Told {
    match answer {
        Ok(_) => Told::Number,
        Err(why) => why_told(why),
    }
}

fn flag_told(answer: CallResult<bool>) -> Told {
    match answer {
        Ok(flag) => Told::Flag(flag),
        Err(why) => why_told(why),
    }
}

fn popped_told(answer: CallResult<Option<(IVec, IVec)>>) -> Told {
    match answer {
        Ok(pair) => {
            let told = if pair.is_some() {
                Told::Popped
            } else {
                Told::NoValue
            };
            drop(pair);
            told
        }
        Err(why) => why_told(why),
    }
}

fn tree_told(answer: CallResult<Tree>) -> Told {
    match answer {
        Ok(tree) => {
            drop(tree);
            Told::Tree
        }
        Err(why) => why_told(why),
    }
}

fn subscriber_told(answer: CallResult<Subscriber>) -> Told {
    match answer {
        Ok(subscriber) => Told::Subscriber(subscriber.0),
        Err(why) => why_told(why),
    }
}

fn event_told(answer: CallResult<Option<Next>>) -> Told {
    match answer {
        Ok(next) => {
            let told = match &next {
                Some(next) => next_told(next),
                None => Told::NoValue,
            };
            drop(next);
            told
        }
        Err(why) => why_told(why),
    }
}

fn replied_told(answer: CallResult<Reply>) -> Told {
    match answer {
        Ok(reply) => {
            let told = reply_told(&reply);
            drop(reply);
            told
        }
        Err(why) => why_told(why),
    }
}

// How many pairs there are, as a question was answered.
fn answer_told(answer: Result<Answer, Error>) -> Told {
    let told = match &answer {
        Ok(Answer::Count(count)) => Told::Pairs(*count as u64),
        _ => Told::Other,
    };
    drop(answer);
    told
}

/// Makes the whole call by its own name; of an insert a group of one batch, of a get its reply, and of a count the question. Its answer.
pub fn named_told<L: Ledger, R: Wait + Abort>(
    rt: &R,
    scene: &Scene,
    handle: &mut Way<L>,
    ask: Ask<'_>,
) -> Told {
    let (alloc, tree) = (scene.alloc, &scene.tree);
    match ask {
        Ask::PopMin => popped_told(handle.pop_min(rt, tree)),
        Ask::PopMax => popped_told(handle.pop_max(rt, tree)),
        Ask::Clear => done_told(handle.clear(rt, tree)),
        Ask::Group(key, value) => {
            done_told(handle.apply_batch(rt, alloc, tree, batch_of(rt, scene, key, value)))
        }
        Ask::Insert(key, value) => {
            done_told(handle.apply_group(rt, batches_of(rt, scene, key, value)))
        }
        Ask::Import(key, count) => done_told(handle.import(rt, pairs_of(rt, scene, key, count))),
        Ask::Flush => number_told(handle.flush(rt)),
        Ask::OpenTree(name) => tree_told(handle.open_tree(rt, alloc, name)),
        Ask::DropTree => flag_told(handle.drop_tree(rt, alloc, tree.name.as_ref())),
        Ask::GenerateId => number_told(handle.generate_id(rt)),
        Ask::Watch => subscriber_told(handle.watch_prefix(rt, alloc, tree, b"")),
        Ask::Next(number) => event_told(handle.next(rt, &Subscriber(number))),
        Ask::Unsubscribe(number) => done_told(handle.unsubscribe(rt, &Subscriber(number))),
        Ask::Get(key) => replied_told(reply_of(handle.get(rt, alloc, tree, key))),
        Ask::Len => answer_told(handle.read(rt, tree, Question::Len)),
        _ => Told::Other,
    }
}
