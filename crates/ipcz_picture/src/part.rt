//! The part of a transcript that is drawn.

ghost use Rattle.std.specs.Prelude.{◌≡◌, ◌≤◌};
ghost use Rattle.ipcz_picture.specs.Parts.{end_of, first_of, IsAskedBy};

use ipcz_lines::number;

/// Lines by their numbers, which are counted from 1: those from one to another, with both.
#[derive(Clone, Copy, Debug, PartialEq, Eq)]
pub struct Part {
    pub from: u64,
    pub to: u64,
}

/// The lines that are drawn by their indices, which are counted from 0: the first, and the one behind the last.
#[derive(Clone, Copy, Debug, PartialEq, Eq)]
pub struct Bounds {
    pub first: usize,
    pub end: usize,
}

/// The part that two arguments ask for: two numbers in decimal without needless zeros, the first one at least 1, and the
/// second one no less.
pub fn part_of(from: &[u8], to: &[u8]) -> Option<Part>
    ensures { IsAskedBy from.now to.now result }
{
    let from = number(from)?;
    let to = number(to)?;
    if from == 0 || to < from {
        return None;
    }
    Some(Part { from, to })
}

/// The bounds of a part of so many lines; those of all lines if there is no part.
pub fn bounds_of(part: Option<Part>, lines: usize) -> Bounds
    ensures first { result.first ≡ first_of part lines }
    ensures end { result.end ≡ end_of part lines }
    ensures within { (result.first ≤ result.end) × (result.end ≤ lines) }
{
    match part {
        Some(Part { from, to }) => {
            let end = to.min(lines as u64);
            Bounds {
                first: from.saturating_sub(1).min(end) as usize,
                end: end as usize,
            }
        }
        None => Bounds {
            first: 0,
            end: lines,
        },
    }
}
