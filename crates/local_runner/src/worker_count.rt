//! How many workers a run has.
ghost use Rattle.std.specs.Prelude.{◌<◌, ◌≤◌};

use crate::clock::wait;
use crate::limits::processes;
use std::sync::{Mutex, Wait};
use std::thread;
use std::thread::Threads;

/// Where a user may have so many processes, a run isn't short of them.
const ENOUGH: u64 = 4_096;

/// Milliseconds after which threads that have ended don't count any more.
const PAUSE: i32 = 20;

/// How many workers a run has that was asked for so many: as many as can be started while each has a program under way. Where the system
/// doesn't bound processes, or by a large number, that is all of them.
pub fn workers<H: Threads + Wait + Sync>(rt: &H, forks: usize) -> usize
    requires { 0 < forks }
    ensures some { 0 < result }
    ensures few { result ≤ forks }
{
    let mut workers = forks;
    if processes().is_some_and(|processes| processes < ENOUGH) {
        while workers > 1 && !can_start(rt, workers.saturating_mul(2)) {
            workers /= 2;
        }
    }
    workers
}

/// Whether so many threads can be started beside one another. Once it says so they don't count any more.
fn can_start<H: Threads + Wait + Sync>(rt: &H, threads: usize) -> bool {
    let door = Mutex::new(());
    let door = &door;
    let can = thread::scope(thread::scope_env(), rt, move |scope| -> bool {
        // Each stays at the door until all are there.
        let closed = door.lock(rt);
        let mut all = true;
        for _ in 0..threads {
            if scope.spawn(move || pass(rt, door)).is_err() {
                all = false;
                break;
            }
        }
        drop(closed);
        all
    });
    wait(PAUSE);
    can
}

fn pass<H: Wait>(rt: &H, door: &Mutex<()>) {
    drop(door.lock(rt));
}
