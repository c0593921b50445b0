//! `ipcz_faults` runs worked rows on a world and its twin and on the cells of a table, and one on a hub, and prints a line for each: that all went as the row
//! says, and which growths of memory were refused on the way. Such a call is to leave all as it was, and to succeed when it is made again.
//!
//! Run by itself it meets none; `tools/refuse_growth.py` runs it once for each growth, with that one refused (docs/GATE.md).
#![tactic(auto)]

mod alike;
mod asking;
mod cells;
mod hub;
mod line;
mod met;
mod moves;
mod rows;
mod subject;
mod trial;
mod twins;

use cells::run_on_cells;
use hub::run_on_hub;
use met::{Met, Wrong};
use moves::Row;
use rows::ROWS;
use std::io;
use std::process::ExitCode;
use twins::{Way, run_on_twins};

// Prints how a row went; whether it went well.
fn print_ending(
    rt: &HostRuntime,
    name: &str,
    way: &str,
    ending: Result<Met, (usize, Wrong)>,
) -> Result<bool, io::Error> {
    match ending {
        Ok(met) => {
            println!(rt; "{name}, {way}: ok{met}")?;
            Ok(true)
        }
        Err((place, why)) => {
            println!(rt; "{name}, {way}: wrong at move {place}: {why:?}")?;
            Ok(false)
        }
    }
}

// Runs a row in each way; whether all went well.
fn print_row(rt: &HostRuntime, row: &Row) -> Result<bool, io::Error> {
    let alloc = rt.alloc();
    let steps = run_on_twins(alloc, row, Way::Steps);
    let steps = print_ending(rt, row.name, "by steps", steps)?;
    let calls = run_on_twins(alloc, row, Way::Calls);
    let calls = print_ending(rt, row.name, "by calls", calls)?;
    let cells = print_ending(rt, row.name, "on cells", run_on_cells(alloc, row))?;
    Ok(steps && calls && cells)
}

// Runs each row; whether all went well.
fn print_rows(rt: &HostRuntime) -> Result<bool, io::Error> {
    let mut went_well = true;
    for row in &ROWS {
        went_well &= print_row(rt, row)?;
    }
    Ok(went_well)
}

// Prints how each row went, and how the move of a portal on a hub did, by what that answered; whether all went well.
fn print_all(rt: &HostRuntime, on_hub: Result<Met, Wrong>) -> Result<bool, io::Error> {
    let rows = print_rows(rt)?;
    let hub = print_ending(
        rt,
        "a portal moves",
        "on a hub",
        on_hub.map_err(|why| (0, why)),
    )?;
    Ok(rows && hub)
}

fn main(rt: HostRuntime) -> ExitCode {
    let on_hub = run_on_hub(&rt, rt.alloc());
    match print_all(&rt, on_hub) {
        Ok(true) => ExitCode::from(0),
        Ok(false) | Err(_) => ExitCode::from(1),
    }
}
