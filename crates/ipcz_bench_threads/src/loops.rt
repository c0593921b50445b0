//! The loops of the measures, over any talkers. Each ends by itself, and tells whether it went as it should.
use crate::talkers::{TURNS, Talker};
use ipcz_node::Happened;
use std::hint::spin_loop;
use std::thread::{sleep, yield_now};
use std::time::{Clock, Duration};

/// The bytes of a parcel.
pub const LENGTH: usize = 16;

// How many parcels may wait to be posted.
const AHEAD: u64 = 4;

// How many parcels are put in a row.
const RUN: u64 = 16;

// How many parcels may have no acknowledgement.
const WINDOW: u64 = 256;

// How many parcels an acknowledgement is for.
const SHARE: u64 = 64;

/// So many times a put at one talker, the acts of both, and a get at the other.
pub fn pass<T: Talker>(left: &mut T, right: &mut T, rounds: u64) -> bool {
    for _round in 0..rounds {
        if !left.put(LENGTH) || !left.acts() || !right.acts() || !right.get() {
            return false;
        }
    }
    true
}

/// So many parcels, or as many more as make the last run whole.
pub fn whole_runs(rounds: u64) -> u64 {
    match rounds % RUN {
        0 => rounds,
        part => rounds.saturating_add(RUN).saturating_sub(part),
    }
}

// A run of puts.
fn put_run<T: Talker>(talker: &mut T) -> bool {
    for _parcel in 0..RUN {
        if !talker.put(LENGTH) {
            return false;
        }
    }
    true
}

// A run of gets.
fn get_run<T: Talker>(talker: &mut T) -> bool {
    for _parcel in 0..RUN {
        if !talker.get() {
            return false;
        }
    }
    true
}

// The acts of both, which bring a run over. Its first parcel is posted as soon as it is sent, and the others wait until that one was handled.
fn carry<T: Talker>(left: &mut T, right: &mut T) -> bool {
    left.acts() && right.acts() && left.acts() && right.acts()
}

/// So many parcels in whole runs: puts at one talker, the acts of both, and gets at the other.
pub fn pass_runs<T: Talker>(left: &mut T, right: &mut T, rounds: u64) -> bool {
    for _run in 0..rounds / RUN {
        if !put_run(left) || !carry(left, right) || !get_run(right) {
            return false;
        }
    }
    true
}

// Waits a moment if a turn had nothing to do, and lets another thread run if many in a row had nothing.
fn rest(idle: u64) {
    spin_loop();
    if idle % 1024 == 1023 {
        yield_now();
    }
}

/// Puts so many parcels, a few ahead of those that were posted, and takes turns until all are posted.
pub fn put_all<T: Talker>(talker: &mut T, rounds: u64) -> bool {
    let mut put = 0u64;
    let mut posted = 0u64;
    let mut idle = 0u64;
    for _turn in 0..TURNS {
        if posted == rounds {
            return true;
        }
        if put < rounds && put < posted.saturating_add(AHEAD) {
            if !talker.put(LENGTH) {
                return false;
            }
            put = put.saturating_add(1);
        }
        match talker.turn() {
            Ok(Happened::Post(..)) => posted = posted.saturating_add(1),
            Ok(Happened::Idle) => {
                idle = idle.wrapping_add(1);
                rest(idle);
            }
            Ok(_) | Err(_) => {}
        }
    }
    false
}

/// Puts so many parcels, a window ahead of those that were acknowledged, and takes turns until all are.
pub fn put_stream<T: Talker>(talker: &mut T, rounds: u64) -> bool {
    let mut put = 0u64;
    let mut acknowledged = 0u64;
    for turn in 0..TURNS {
        if acknowledged >= rounds {
            return true;
        }
        if put < rounds && put < acknowledged.saturating_add(WINDOW) {
            if !talker.put(LENGTH) {
                return false;
            }
            put = put.saturating_add(1);
        }
        match talker.turn() {
            Ok(Happened::Hand { .. }) => {
                if talker.get() {
                    acknowledged = acknowledged.saturating_add(SHARE);
                }
            }
            Ok(Happened::Idle) => rest(turn),
            Ok(_) | Err(_) => {}
        }
    }
    false
}

// Gets a parcel that has come behind so many, and acknowledges it if a share is full with it, or it is the last. How many have come, if all went
// as it should.
fn acknowledge<T: Talker>(talker: &mut T, got: u64, rounds: u64) -> Option<u64> {
    if !talker.get() {
        return None;
    }
    let now = got.saturating_add(1);
    if now % SHARE != 0 && now != rounds {
        return Some(now);
    }
    talker.put(1).then_some(now)
}

/// Takes turns until so many parcels were got, and each acknowledgement was posted: a post takes all that wait.
pub fn get_stream<T: Talker>(talker: &mut T, rounds: u64) -> bool {
    let mut got = 0u64;
    let mut waits = false;
    for turn in 0..TURNS {
        match talker.turn() {
            Ok(Happened::Hand { .. }) => match acknowledge(talker, got, rounds) {
                Some(now) => got = now,
                None => return false,
            },
            Ok(Happened::SendOut { .. }) => waits = true,
            Ok(Happened::Post(..)) => waits = false,
            Ok(Happened::Idle) => {
                if got == rounds && !waits {
                    return true;
                }
                rest(turn);
            }
            Ok(_) | Err(_) => {}
        }
    }
    false
}

// Takes turns until a message was handled that brings a parcel, and gets it.
fn awaits<T: Talker>(talker: &mut T) -> bool {
    for turn in 0..TURNS {
        match talker.turn() {
            Ok(Happened::Hand { .. }) => {
                if talker.get() {
                    return true;
                }
            }
            Ok(Happened::Idle) => rest(turn),
            Ok(_) | Err(_) => {}
        }
    }
    false
}

// The same, but for sleeps in place of turns that have nothing to do.
fn sleeps<T: Talker>(talker: &mut T) -> bool {
    for _turn in 0..TURNS {
        match talker.turn_or_wait() {
            Ok(Happened::Hand { .. }) => {
                if talker.get() {
                    return true;
                }
            }
            Ok(_) | Err(_) => {}
        }
    }
    false
}

/// Takes turns until so many parcels were got.
pub fn get_all<T: Talker>(talker: &mut T, rounds: u64) -> bool {
    for _round in 0..rounds {
        if !awaits(talker) {
            return false;
        }
    }
    true
}

/// How a talker passes the time until a parcel comes.
#[derive(Clone, Copy)]
pub enum Idly {
    /// It takes turns.
    Turning,
    /// It sleeps.
    Sleeping,
}

// Takes turns until a parcel is got.
fn get_next<T: Talker>(talker: &mut T, idly: Idly) -> bool {
    match idly {
        Idly::Turning => awaits(talker),
        Idly::Sleeping => sleeps(talker),
    }
}

/// So many times a put of a byte, and the get of its answer.
pub fn ask<T: Talker>(talker: &mut T, idly: Idly, rounds: u64) -> bool {
    for _round in 0..rounds {
        if !talker.put(1) || !get_next(talker, idly) {
            return false;
        }
    }
    true
}

/// So many times a get, and the put of a byte as its answer; then the acts that are left.
pub fn answer<T: Talker>(talker: &mut T, idly: Idly, rounds: u64) -> bool {
    for _round in 0..rounds {
        if !get_next(talker, idly) || !talker.put(1) {
            return false;
        }
    }
    talker.acts()
}

/// After so many milliseconds a put of a byte, and the acts that bring it on its way.
pub fn put_late<C: Clock, T: Talker>(clock: &C, talker: &mut T, millis: u64) -> bool {
    sleep(clock, Duration::from_millis(millis));
    talker.put(1) && talker.acts()
}

/// Gets one parcel.
pub fn get_late<T: Talker>(talker: &mut T, idly: Idly) -> bool {
    get_next(talker, idly)
}
