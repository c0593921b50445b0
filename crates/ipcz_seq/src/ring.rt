//! Pairs of a number and an item in a ring, by rising numbers: where a number stands, and where the first gap is.

ghost use Rattle.std.specs.Prelude.{◌≡◌, ◌+◌, ◌<◌, ◌≤◌, insert, option_copied, IsSome, MatchResult, OnOk, OnErr, IfErr};
ghost use Rattle.std.specs.Ordering.{nat_cmp};
ghost use Rattle.std.specs.List.Sorted.{IsBinarySearchResult, IsSearchInRange};
ghost use Rattle.std.specs.FinMap.{find};
ghost use Rattle.std.specs.VecDeque.{deque_len, deque_capacity, DequeUnchanged};
ghost use Rattle.ipcz_seq.specs.Pairs.{AreWaiting, IsPlaceFor, IsGapAt, queue_of};
ghost use Rattle.ipcz_seq.specs.Queue.{IsReach};

use ipcz_base::Refusal;
use std::alloc::AllocFailed;
use std::collections::VecDeque;

// Where a pair with the number stands, or else where one would go.
#[inline(always)]
pub(crate) fn place_of<T>(pairs: &VecDeque<(u64, T)>, n: u64) -> Result<usize, usize>
    requires { AreWaiting 0 pairs.now.items }
    ensures place { MatchResult result (λ _. IsSome (find nat_cmp n pairs.now.items)) (IsPlaceFor n pairs.now.items) }
    ensures bound { IsSearchInRange result (deque_len pairs.now) }
{
    match pairs.back() {
        None => Err(0),
        Some(last) if last.0 < n => Err(pairs.len()),
        Some(_) => searched_place(pairs, n),
    }
}

// The same by halving.
#[inline(never)]
fn searched_place<T>(pairs: &VecDeque<(u64, T)>, n: u64) -> Result<usize, usize>
    ensures bound { IsSearchInRange result (deque_len pairs.now) }
    ensures position { IsBinarySearchResult (λ e. nat_cmp e.0 n) pairs.now.items result }
{
    pairs.binary_search_by_key(&n, |e| e.0)
}

// The item of the current number: its pair stands first, if it has come.
pub(crate) fn current_of<T>(pairs: &VecDeque<(u64, T)>, current: u64) -> Option<&T>
    requires { AreWaiting current pairs.now.items }
    ensures { option_copied result ≡ find nat_cmp current pairs.now.items }
{
    match pairs.front() {
        Some(first) if first.0 == current => Some(&first.1),
        _ => None,
    }
}

// The item of a number, if a pair has it. If no number is missing before it, its pair stands as far behind the first as it is from the
// current one.
#[inline(always)]
pub(crate) fn item_of<T>(pairs: &VecDeque<(u64, T)>, current: u64, n: u64) -> Option<&T>
    requires waiting { AreWaiting current pairs.now.items }
    requires from { current ≤ n }
    ensures { option_copied result ≡ find nat_cmp n pairs.now.items }
{
    match pairs.get((n - current) as usize) {
        Some(pair) if pair.0 == n => Some(&pair.1),
        _ => searched_item(pairs, n),
    }
}

// The same by halving.
#[inline(never)]
fn searched_item<T>(pairs: &VecDeque<(u64, T)>, n: u64) -> Option<&T>
    requires { AreWaiting 0 pairs.now.items }
    ensures { option_copied result ≡ find nat_cmp n pairs.now.items }
{
    match searched_place(pairs, n) {
        Ok(place) => Some(&pairs[place].1),
        Err(_) => None,
    }
}

// The first number, from the current one on, that no pair has.
pub(crate) fn reach_of<T>(pairs: &VecDeque<(u64, T)>, current: u64) -> u64
    requires { AreWaiting current pairs.now.items }
    ensures { IsReach (queue_of pairs.now.items current) result }
{
    current + gap_of(pairs, current) as u64
}

// The place of the first gap, before which the numbers count up from the current one.
fn gap_of<T>(pairs: &VecDeque<(u64, T)>, current: u64) -> usize
    requires { AreWaiting current pairs.now.items }
    ensures { IsGapAt current pairs.now.items result }
{
    let mut from = 0;
    let mut to = pairs.len();

    // The last place first, since mostly there is no gap; then by halving.
    let mut place = to.saturating_sub(1);
    while from < to {
        if pairs[place].0 == current + place as u64 {
            from = place + 1;
        } else {
            to = place;
        }
        place = from + (to - from) / 2;
    }
    from
}

// Makes room for one pair more. The first buffer holds one, since most queues never hold more.
#[inline(always)]
pub(crate) fn make_room<T>(pairs: &mut VecDeque<(u64, T)>) -> Result<(), Refusal>
    ensures pairs { pairs.new.items ≡ pairs.old.items }
    ensures len { deque_len pairs.new ≡ deque_len pairs.old }
    ensures capacity { deque_capacity pairs.old ≤ deque_capacity pairs.new }
    ensures ok { OnOk result (deque_len pairs.new < deque_capacity pairs.new) }
    ensures held { deque_len pairs.old < deque_capacity pairs.old → pairs.new ≡ pairs.old }
    ensures first { deque_capacity pairs.old ≡ 0 → OnOk result (deque_capacity pairs.new ≡ 1) }
    ensures err { IfErr result (λ e. (e ≡ Refusal.OutOfMemory) × (deque_capacity pairs.old ≤ deque_len pairs.old)) }
{
    if pairs.len() < pairs.capacity() {
        return Ok(());
    }
    grow(pairs)
}

// Makes room if there is none.
#[cold]
#[inline(never)]
fn grow<T>(pairs: &mut VecDeque<(u64, T)>) -> Result<(), Refusal>
    requires { deque_capacity pairs.old ≤ deque_len pairs.old }
    ensures pairs { pairs.new.items ≡ pairs.old.items }
    ensures len { deque_len pairs.new ≡ deque_len pairs.old }
    ensures capacity { deque_capacity pairs.old ≤ deque_capacity pairs.new }
    ensures ok { OnOk result (deque_len pairs.new < deque_capacity pairs.new) }
    ensures first { deque_capacity pairs.old ≡ 0 → OnOk result (deque_capacity pairs.new ≡ 1) }
    ensures err { IfErr result (λ e. e ≡ Refusal.OutOfMemory) }
{
    let grown = if pairs.capacity() == 0 {
        pairs.reserve_exact(1)
    } else {
        pairs.reserve(1)
    };
    match grown {
        Ok(()) => Ok(()),
        Err(_) => Err(Refusal::OutOfMemory),
    }
}

// Inserts a pair before others. Most come behind all that are there, so this stands apart.
#[cold]
#[inline(never)]
pub(crate) fn insert_between<T>(
    pairs: &mut VecDeque<(u64, T)>,
    place: usize,
    pair: (u64, T),
) -> Result<(), AllocFailed<(u64, T)>>
    requires { place ≤ deque_len pairs.old }
    ensures items { OnOk result (pairs.new.items ≡ insert pairs.old.items place pair) }
    ensures len { OnOk result (deque_len pairs.new ≡ deque_len pairs.old + 1) }
    ensures value_returned { IfErr result (λ y. y.value ≡ pair) }
    ensures unchanged { OnErr result (DequeUnchanged pairs.old pairs.new) }
    ensures full { OnErr result (deque_capacity pairs.old ≤ deque_len pairs.old) }
    ensures capacity { deque_capacity pairs.old ≤ deque_capacity pairs.new }
{
    pairs.insert(place, pair)
}
