//! Gap queues by lists of calls, which say what each call answers.
use ipcz_base::Refusal;
use ipcz_seq::GapQueue;
use std::alloc::Global;
use std::process::Abort;

/// A call on a queue of words, with what it answers.
#[derive(Clone, Copy)]
enum Step {
    /// Adds a word under a number; a word that is refused is handed back.
    Push(u64, &'static str, Result<(), Refusal>),
    Pop(Option<&'static str>),
    Next(Option<&'static str>),
    /// The word of a number.
    ItemAt(u64, Option<&'static str>),
    /// The word of the highest number, with that number.
    Last(Option<(u64, &'static str)>),
    Reserve,
    ReserveFor(u64, Result<(), Refusal>),
    HasRoom(bool),
    HasPlace(u64, bool),
    Current(u64),
    Reach(u64),
    Len(usize),
    IsEmpty(bool),
}

// Adds a word; whether this comes of it.
fn pushes(
    queue: &mut GapQueue<&'static str>,
    n: u64,
    word: &'static str,
    want: Result<(), Refusal>,
) -> bool {
    if n == u64::MAX {
        return false;
    }
    match queue.push(n, word) {
        Ok(()) => want.is_ok(),
        Err((why, back)) => want == Err(why) && back == word,
    }
}

// Whether a call answers what its step says.
fn answers(queue: &mut GapQueue<&'static str>, step: Step) -> bool {
    match step {
        Step::Push(n, word, want) => pushes(queue, n, word, want),
        Step::Pop(want) => queue.pop() == want,
        Step::Reserve => queue.reserve().is_ok(),
        Step::ReserveFor(n, want) => queue.reserve_for(n) == want,
        _ => is(queue, step),
    }
}

// Whether a queue is as a step says that only looks.
fn is(queue: &GapQueue<&'static str>, step: Step) -> bool {
    match step {
        Step::Next(want) => queue.next() == want.as_ref(),
        Step::ItemAt(n, want) => queue.item_at(n) == want.as_ref(),
        Step::Last(want) => queue.last() == want.as_ref(),
        Step::HasRoom(want) => queue.has_room() == want,
        Step::HasPlace(n, want) => queue.has_place(n) == want,
        Step::Current(want) => queue.current() == want,
        Step::Reach(want) => queue.reach() == want,
        Step::Len(want) => queue.len() == want,
        Step::IsEmpty(want) => queue.is_empty() == want,
        _ => false,
    }
}

// The first step that doesn't answer what it says, from an empty queue on whose first item is that of a number.
fn first_wrong(alloc: Global, first: u64, steps: &[Step]) -> Option<usize> {
    let mut queue = GapQueue::new_at(alloc, first);
    for (i, step) in steps.iter().enumerate() {
        if !answers(&mut queue, *step) {
            return Some(i);
        }
    }
    None
}

// Each step has to answer what it says, from an empty queue on whose first item is that of a number. (A test that asserts this itself is
// several times as dear to prove.)
fn all_answer(rt: &impl Abort, alloc: Global, first: u64, steps: &[Step]) {
    assert_eq!(rt; first_wrong(alloc, first, steps), None);
}

static IN_ORDER: [Step; 21] = [
    Step::IsEmpty(true),
    Step::Last(None),
    // The item of 5 hasn't come, so that of 7 waits.
    Step::Push(7, "seven", Ok(())),
    Step::Reach(5),
    Step::Next(None),
    Step::Pop(None),
    Step::Push(7, "again", Err(Refusal::Occupied)),
    Step::Push(4, "late", Err(Refusal::Passed)),
    Step::Push(5, "five", Ok(())),
    Step::Reach(6),
    Step::Next(Some("five")),
    Step::Pop(Some("five")),
    Step::Current(6),
    Step::Push(6, "six", Ok(())),
    Step::Last(Some((7, "seven"))),
    Step::Reach(8),
    Step::Pop(Some("six")),
    Step::Pop(Some("seven")),
    Step::Last(None),
    Step::Current(8),
    Step::Len(0),
];

#[test]
fn items_leave_in_the_order_of_their_numbers(rt: HostRuntime) {
    all_answer(&rt, rt.alloc(), 5, &IN_ORDER);
}

static ROOM: [Step; 15] = [
    Step::HasRoom(false),
    Step::Reserve,
    Step::HasRoom(true),
    Step::Push(0, "zero", Ok(())),
    // The first buffer holds one item, and a pop gives its room back.
    Step::HasRoom(false),
    Step::Pop(Some("zero")),
    Step::HasRoom(true),
    Step::Push(1, "one", Ok(())),
    Step::HasRoom(false),
    // Room is made only for the item of a number that has its place.
    Step::ReserveFor(0, Err(Refusal::Passed)),
    Step::ReserveFor(1, Err(Refusal::Occupied)),
    Step::HasRoom(false),
    Step::ReserveFor(2, Ok(())),
    Step::HasRoom(true),
    Step::Len(1),
];

#[test]
fn room_is_made_before_it_is_wanted(rt: HostRuntime) {
    all_answer(&rt, rt.alloc(), 0, &ROOM);
}

static GAPS: [Step; 21] = [
    Step::Push(20, "a", Ok(())),
    Step::Push(23, "d", Ok(())),
    Step::Push(27, "h", Ok(())),
    Step::Push(21, "b", Ok(())),
    Step::Reach(22),
    // What has come is found before a gap and behind one.
    Step::ItemAt(19, None),
    Step::ItemAt(21, Some("b")),
    Step::ItemAt(22, None),
    Step::ItemAt(27, Some("h")),
    Step::ItemAt(u64::MAX, None),
    // 19 has passed, 23 is taken, and 22 is free.
    Step::HasPlace(19, false),
    Step::HasPlace(23, false),
    Step::HasPlace(22, true),
    Step::HasPlace(u64::MAX, true),
    Step::Push(22, "c", Ok(())),
    Step::Reach(24),
    Step::Pop(Some("a")),
    Step::Reach(24),
    Step::HasPlace(20, false),
    Step::Len(4),
    Step::IsEmpty(false),
];

#[test]
fn gaps_hold_back_what_is_behind_them(rt: HostRuntime) {
    all_answer(&rt, rt.alloc(), 20, &GAPS);
}

// Puts items under the numbers from 999 down to 1; whether each is taken.
fn come_backwards(queue: &mut GapQueue<u64>) -> bool {
    for n in (1..1000).rev() {
        if queue.push(n, n).is_err() {
            return false;
        }
    }
    true
}

// Takes a thousand items out; whether they leave in order from that of 0 on.
fn leave_in_order(queue: &mut GapQueue<u64>) -> bool {
    for n in 0..1000 {
        if queue.pop() != Some(n) {
            return false;
        }
    }
    true
}

// Whether all items but the first wait for it, and leave in order once it has come.
fn wait_for_the_first(queue: &mut GapQueue<u64>) -> bool {
    come_backwards(queue)
        && queue.reach() == 0
        && queue.next().is_none()
        && queue.push(0, 0) == Ok(())
        && queue.reach() == 1000
        && leave_in_order(queue)
        && queue.push(999, 999) == Err((Refusal::Passed, 999))
}

#[test]
fn items_that_come_backwards_leave_in_order(rt: HostRuntime) {
    let mut queue: GapQueue<u64> = GapQueue::new_at(rt.alloc(), 0);
    assert!(rt; wait_for_the_first(&mut queue));
}
