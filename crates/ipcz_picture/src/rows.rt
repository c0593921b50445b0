//! The rows of a picture: a row for each line, and one for each run of idle lines, one under the other.

ghost use Rattle.std.specs.Prelude.{◌≡◌, ◌+◌, ◌^◌, ◌≤◌, ◌<◌, ◌==◌, length, count_by, IfOk};
ghost use Rattle.std.specs.List.{AllWithin, HoldsAt};
ghost use Rattle.ipcz_picture.specs.Rows.{is_idle, units_of, value_count, Follow, IsBusy, IsIdle, IsPlace};

use ipcz_lines::{Event, Line, ReadLine};
use std::alloc::{AllocError, Global};

/// How high a unit is.
pub const UNIT: u64 = 18;

/// How far down the first row begins.
pub const TOP: u64 = 136;

/// The place of a row: the first of its lines, counted from 0, how many they are, how far down it begins, and how many
/// units it is high.
#[derive(Clone, Copy, Debug)]
pub struct Place {
    pub first: usize,
    pub count: usize,
    pub top: u64,
    pub units: u64,
}

// Whether a line is that of a turn that did nothing.
fn is_idle(line: &Line) -> bool
    ensures { result ≡ is_idle line.now }
{
    matches!(
        line,
        Line::Turn {
            event: Event::Idle,
            ..
        }
    )
}

// How many spaces stand between values.
fn space_count(values: &[u8]) -> usize
    ensures { result ≡ count_by (λ b. b == 32) values.now }
{
    values.iter().filter(|b| **b == b' ').count()
}

/// How many values a line of words has.
pub fn value_count(values: &[u8]) -> usize
    ensures { result ≡ value_count values.now }
{
    if values.is_empty() {
        return 0;
    }
    space_count(values) + 1
}

// How many units a line's row is high.
fn units_of(line: &Line) -> u64
    ensures exact { result ≡ units_of line.now }
    ensures some { 0 < result }
    ensures few { result ≤ 683 }
{
    match line {
        Line::Settled | Line::Unsettled => 2,
        Line::Words(values) => {
            let count = value_count(values).min(4096).max(1) as u64;
            (count + 5) / 6
        }
        _ => 1,
    }
}

// The index behind the idle lines from this one on.
fn idle_end(lines: &[ReadLine], first: usize) -> usize
    requires { first ≤ length lines.now }
    ensures least { first ≤ result }
    ensures most { result ≤ length lines.now }
    ensures idle { AllWithin IsIdle lines.now first result }
    ensures end { result < length lines.now → HoldsAt IsBusy lines.now result }
{
    for i in first..lines.len() {
        if !is_idle(&lines[i].line) {
            return i;
        }
    }
    lines.len()
}

// The place of the row that begins with this line.
fn place_at(lines: &[ReadLine], first: usize, top: u64) -> Place
    requires { first < length lines.now }
    ensures first { result.first ≡ first }
    ensures top { result.top ≡ top }
    ensures place { IsPlace lines.now result }
    ensures few { result.units ≤ 683 }
{
    let line = &lines[first].line;
    let end = if is_idle(line) {
        idle_end(lines, first)
    } else {
        first + 1
    };
    Place {
        first,
        count: end - first,
        top,
        units: units_of(line),
    }
}

/// The places of the rows of the lines from one on, and how far down the last one ends.
pub fn places(
    alloc: Global,
    lines: &[ReadLine],
    from: usize,
) -> Result<(Vec<Place>, u64), AllocError>
    requires many { length lines.now < 2 ^ 32 }
    requires within { from ≤ length lines.now }
    ensures follow { IfOk result (λ placed. Follow lines.now from 136 placed.0.items (length lines.now) placed.1) }
    ensures few { IfOk result (λ placed. from + length placed.0.items ≤ length lines.now) }
{
    let mut placed = Vec::new(alloc);
    let mut first = from;
    let mut top = TOP;
    'placing: while first < lines.len() {
        let place = place_at(lines, first, top);
        placed.push(place)?;
        first += place.count;
        top += UNIT * place.units;
    }
    Ok((placed, top))
}
