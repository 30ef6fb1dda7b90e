//! The lock of a state, taken.
use std::hint::spin_loop;
use std::sync::{Mutex, MutexGuard, Wait};
use std::thread::Parker;
use std::time::Duration;

// How often a thread that finds the lock taken pauses until it looks again: for about as long as a step takes.
const PAUSES: u32 = 64;
// How often it naps then, before it sleeps until the lock is free.
const NAPS: u32 = 64;
// How long a nap is, in microseconds.
const NAP: u64 = 50;

// Takes the lock. A step takes a few microseconds, and who has the lock would take more to wake a thread that sleeps until it is free. So a
// thread that finds it taken looks again for a while. It looks seldom, so that who has the lock makes many steps meanwhile, whose pages stay
// near its processor, and it naps between two looks, so that it takes nothing from a thread that shares its core.
pub(crate) fn locked<'a, T>(rt: &impl Wait, lock: &'a Mutex<T>) -> MutexGuard<'a, T> {
    if let Some(guard) = lock.try_lock() {
        return guard;
    }
    for _ in 0..PAUSES {
        spin_loop();
    }
    let nobody = Parker::new();
    for _ in 0..NAPS {
        if let Some(guard) = lock.try_lock() {
            return guard;
        }
        nobody.park_timeout(rt, Duration::from_micros(NAP));
    }
    lock.lock(rt)
}
