//! Tables whose link words come back: a slot of the table shows the word of one number after the other, and the numbers are those of a virtual
//! table in which no word comes back (specs/Slots). Here is which numbers a slot is for; that each kind of step on the virtual table is one on
//! the table with slots stands in proofs/, for whatever rule the virtual table has, and is the contract of functions of the crates above, for
//! their rule.
#![tactic(auto)]

mod own;

ghost use Rattle.std.specs.Prelude.{◌≡◌, ◌≤◌, ◌<◌, ◌%◌, ◌^◌};
ghost use Rattle.ipcz_slots.specs.Numbers.{IsNextNumber};

pub use own::Own;

/// The slot of a number: slots take their numbers in turn.
///
/// `slot_of(0, 64)`, `slot_of(64, 64)` and `slot_of(128, 64)` are 0.
pub fn slot_of(number: u64, slots: u64) -> u64
    requires { 1 ≤ slots }
    ensures { result ≡ number % slots }
{
    number % slots
}

/// The least number of a slot from a count on, if one is below the limit.
///
/// `next_number(64, 3, 64, 1000)` is 67, and `next_number(68, 3, 64, 1000)` is 131.
pub fn next_number(count: u64, slot: u64, slots: u64, limit: u64) -> Option<u64>
    requires inside { slot < slots }
    requires count { count ≤ limit }
    requires slots { slots < 2 ^ 63 }
    ensures { IsNextNumber count slot slots limit result }
{
    let first = count % slots;
    let skipped = if first <= slot {
        slot - first
    } else {
        slots - first + slot
    };
    let left = limit - count;
    if skipped < left {
        Some(count + skipped)
    } else {
        None
    }
}
