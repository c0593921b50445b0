//! `ipcz_bench_threads` prints what cells and hubs take: one number for the measure that its argument names.
#![tactic(auto)]

mod lists;
mod loops;
mod measures;
mod talkers;

use measures::{Measure, number};
use std::env;
use std::process::ExitCode;

const USAGE: &str = "usage: ipcz_bench_threads MEASURE [ROUNDS]
nanoseconds a parcel of 16 bytes, one thread: cells hub
nanoseconds a parcel of 16 bytes, a thread puts and another gets: cells_on_threads hub_on_threads
the same where link words come back, so that a post takes all that waits. One thread, runs of 16: cells_in_runs hub_in_runs
a thread puts and another gets, with at most 256 that aren't acknowledged: cells_streaming hub_streaming
nanoseconds for a byte there and back between two threads: round_trips hub_round_trips
the same where a thread sleeps while it has nothing to do: sleeping_round_trips hub_sleeping_round_trips
a byte that is put after ROUNDS milliseconds, and got: late hub_late sleeping_late hub_sleeping_late
the same as hub, where the getter has a list of 1 or 100 portals: hub_waits_1 hub_waits_100 hub_asks_1 hub_asks_100
how many of these measures there are: all";

// How many rounds there are if none are asked for.
const ROUNDS: u64 = 100_000;

// The measure and the rounds that the arguments ask for.
fn asked(rt: &HostRuntime) -> Option<(Measure, u64)> {
    let Ok(mut arguments) = env::args(rt) else {
        return None;
    };
    let _program = arguments.next()?;
    let measure = Measure::named(arguments.next()?.as_str())?;
    let Some(text) = arguments.next() else {
        return Some((measure, ROUNDS));
    };
    match text.as_str().parse::<u64>() {
        Ok(rounds) => Some((measure, rounds)),
        Err(_) => None,
    }
}

// Writes a line, and gives the status.
fn tell(rt: &HostRuntime, line: &str, status: u8) -> ExitCode {
    match println!(rt; "{line}") {
        Ok(()) => ExitCode::from(status),
        Err(_) => ExitCode::from(1),
    }
}

fn main(rt: HostRuntime) -> ExitCode {
    let Some((measure, rounds)) = asked(&rt) else {
        return tell(&rt, USAGE, 2);
    };
    let Some(number) = number(&rt, rt.alloc(), measure, rounds) else {
        return ExitCode::from(1);
    };
    match println!(rt; "{number}") {
        Ok(()) => ExitCode::from(0),
        Err(_) => ExitCode::from(1),
    }
}
