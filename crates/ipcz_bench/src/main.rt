//! `ipcz_bench` prints what the library takes: one number for the measure that its argument names.
#![tactic(auto)]

mod fault;
mod limits;
mod measures;
mod trial;

use fault::Fault;
use measures::measure;
use std::env;
use std::process::ExitCode;

const USAGE: &str = "usage: ipcz_bench MEASURE [ROUNDS]
nanoseconds a parcel: one_node two_nodes long_parcels last_pair each_pair each_moved_pair waiting_1 waiting_10 waiting_100 waiting_1000
nanoseconds an act: act
nanoseconds a move, with ten parcels after it: moves
nanoseconds a pair that is opened, used and closed: lives
bytes a pair: fresh_pairs used_pairs closed_pairs
hundredths, a world's limit by its acts, of so many worlds: limit_least limit_median limit_worst moved_least moved_median moved_worst";

// How many rounds there are if none are asked for.
const ROUNDS: u64 = 100_000;

// Reads the arguments and takes the measure.
fn number(rt: &HostRuntime) -> Result<u64, Fault> {
    let mut arguments = env::args(rt)?;
    let (Some(_), Some(name)) = (arguments.next(), arguments.next()) else {
        return Err(Fault::Usage);
    };
    let rounds = match arguments.next() {
        Some(text) => text.as_str().parse::<u64>().map_err(|_| Fault::Usage)?,
        None => ROUNDS,
    };
    measure(rt, name.as_str(), rounds)
}

fn main(rt: HostRuntime) -> ExitCode {
    match number(&rt) {
        Ok(number) => match println!(rt; "{number}") {
            Ok(()) => ExitCode::from(0),
            Err(_) => ExitCode::from(1),
        },
        Err(Fault::Usage) => match println!(rt; "{USAGE}") {
            Ok(()) => ExitCode::from(2),
            Err(_) => ExitCode::from(1),
        },
        Err(Fault::Refused(_) | Fault::System) => ExitCode::from(1),
    }
}
