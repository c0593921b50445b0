//! Scripts whose settles run on threads.

ghost use Rattle.std.specs.Prelude.{◌≡◌, length};

use crate::cases::{cases, gives};
use ipcz_device::Device;
use ipcz_fabric::Gate;
use ipcz_script::{Outcome, RunFault};
use ipcz_threads::{run_gated, run_threads};
use std::alloc::Global;
use std::sync::atomic::{AtomicU64, Ordering};
use std::thread::Threads;

const LOOKS: u64 = 100_000_000;

const ROUNDS: usize = 200;

// The case of a portal that moves with what waits in it, without the words.
const MOVED: &[u8] =
    br#"{"nodes":2,"words":4,"commands":[["open",0,"x","y"],["put","x","a"],["put","x","b"],["put","x","c"],["put","x","d"],["settle",100],["get","y"],["put","0>1","m",["y"]],["settle",1000],["get","1>0"],["get","y"],["get","y"],["get","y"],["get","y"]]}"#;

const MOVED_TRANSCRIPT: &[u8] =
    b"open x y ok\nput x 0\nput x 1\nput x 2\nput x 3\nsettled\nget y 0 [] \"a\"\nput 0>1 0\nsettled\nget 1>0 0 [y] \"m\"\nget y 1 [] \"b\"\nget y 2 [] \"c\"\nget y 3 [] \"d\"\nget y Empty\n";

// Three puts that start a circle, in which portals chase each other for ever (docs/C.md, "Circles").
const CIRCLE: &[u8] =
    br#"{"nodes":3,"words":64,"commands":[["put","0>1","a",["0>2"]],["put","1>2","b",["1>0"]],["put","2>0","c",["2>1"]],["settle",3000],["get","1>0"]]}"#;

const CIRCLE_TRANSCRIPT: &[u8] = b"put 0>1 0\nput 1>2 0\nput 2>0 0\nunsettled\nget 1>0 Away\n";

// Runs the script with its settles on threads, with its transcript behind what `out` holds.
fn run<R: Threads + Sync>(
    rt: &R,
    alloc: Global,
    script: &[u8],
    out: &mut Vec<u8>,
) -> Result<Outcome, RunFault> {
    let mut reader = Device::new(script);
    let mut writer = Device::new(out);
    run_threads(rt, alloc, &mut reader, &mut writer)
}

// Whether a script ends so on threads, and writes this.
fn ends<R: Threads + Sync>(
    rt: &R,
    alloc: Global,
    script: &[u8],
    want: Outcome,
    text: &[u8],
) -> bool {
    let mut out = Vec::new(alloc);
    let ending = run(rt, alloc, script, &mut out);
    ending == Ok(want) && out.as_slice() == text
}

// The first case that is for threads and ends or writes otherwise.
fn first_other<R: Threads + Sync>(rt: &R, alloc: Global) -> Option<usize> {
    for (i, case) in cases().iter().enumerate() {
        let (script, text) = (case.script.as_bytes(), case.transcript.as_bytes());
        if case.on_threads && !ends(rt, alloc, script, case.outcome(), text) {
            return Some(i);
        }
    }
    None
}

#[test]
fn writes_the_same_transcripts_on_threads(rt: HostRuntime) {
    gives(&rt, first_other(&rt, rt.alloc()), None);
}

// How often a portal is moved on threads in the same way, up to the first time that it isn't.
fn moved_alike<R: Threads + Sync>(rt: &R, alloc: Global, rounds: usize) -> usize {
    for round in 0..rounds {
        if !ends(rt, alloc, MOVED, Outcome::Done, MOVED_TRANSCRIPT) {
            return round;
        }
    }
    rounds
}

#[test]
fn writes_the_same_transcript_each_time(rt: HostRuntime) {
    gives(
        &rt,
        Some(moved_alike(&rt, rt.alloc(), ROUNDS)),
        Some(ROUNDS),
    );
}

// A gate that is open, and counts how often it was asked.
#[derive(Drop)]
struct CountsAsked {
    asked: u64,
}

impl Gate for CountsAsked {
    fn pass(&mut self, _node: u8, _turns: u64) -> bool {
        self.asked = self.asked.saturating_add(1);
        true
    }
}

fn counting_gate() -> CountsAsked {
    CountsAsked { asked: 0 }
}

fn counting_gates() -> [CountsAsked; 8] {
    [
        counting_gate(),
        counting_gate(),
        counting_gate(),
        counting_gate(),
        counting_gate(),
        counting_gate(),
        counting_gate(),
        counting_gate(),
    ]
}

// Whether a script ends so with these gates, and writes this.
fn ends_with<R: Threads + Sync, G: Gate + Send>(
    rt: &R,
    alloc: Global,
    gates: &mut [G],
    script: &[u8],
    want: Outcome,
    text: &[u8],
) -> bool
    requires { length gates.old ≡ 8 }
{
    let mut out = Vec::new(alloc);
    let ending = run_gated(
        rt,
        alloc,
        &mut Device::new(script),
        &mut Device::new(&mut out),
        gates,
    );
    ending == Ok(want) && out.as_slice() == text
}

// Whether no gate was asked more often.
fn are_asked_at_most(gates: &[CountsAsked], most: u64) -> bool {
    for gate in gates {
        if gate.asked > most {
            return false;
        }
    }
    true
}

// Whether the circle comes to the limit, in which a gate may be asked so often.
fn comes_to_the_limit<R: Threads + Sync>(rt: &R, alloc: Global, most: u64) -> bool {
    let mut gates = counting_gates();
    ends_with(
        rt,
        alloc,
        &mut gates,
        CIRCLE,
        Outcome::Unsettled,
        CIRCLE_TRANSCRIPT,
    ) && are_asked_at_most(&gates, most)
}

// A node takes at most as many acts as the limit says, and in each of at most as many rounds its gate is asked once more.
#[test]
fn a_circle_comes_to_the_limit(rt: HostRuntime) {
    assert!(rt; comes_to_the_limit(&rt, rt.alloc(), 2 * 3000));
}

// When it is first asked, a gate of the first two nodes says so, and then looks whether the other was asked, too. The others are open.
// Each notes whether it was told another node, or another number of turns than one more each time in a round, and the most of them.
#[derive(Drop)]
struct Meeting<'a> {
    flags: Option<(&'a AtomicU64, &'a AtomicU64)>,
    missed: u64,
    node: u8,
    strayed: bool,
    next: u64,
    most: u64,
}

impl<'a> Gate for Meeting<'a> {
    fn pass(&mut self, node: u8, turns: u64) -> bool {
        self.strayed |= node != self.node || (turns != 0 && turns != self.next);
        self.next = turns.saturating_add(1);
        self.most = self.most.max(turns);
        let Some((own, other)) = self.flags.take() else {
            return true;
        };
        own.store(1, Ordering::SeqCst);
        for _look in 0..LOOKS {
            if other.load(Ordering::SeqCst) == 1 {
                return true;
            }
        }
        self.missed = 1;
        true
    }
}

fn gate_of<'a>(node: u8, flags: Option<(&'a AtomicU64, &'a AtomicU64)>) -> Meeting<'a> {
    Meeting {
        flags,
        missed: 0,
        node,
        strayed: false,
        next: 0,
        most: 0,
    }
}

// The gates of eight nodes, of which the first two have flags.
fn gates_of<'a>(one: &'a AtomicU64, two: &'a AtomicU64) -> [Meeting<'a>; 8] {
    [
        gate_of(0, Some((one, two))),
        gate_of(1, Some((two, one))),
        gate_of(2, None),
        gate_of(3, None),
        gate_of(4, None),
        gate_of(5, None),
        gate_of(6, None),
        gate_of(7, None),
    ]
}

// Whether each gate met the other and was told its node and its turns, and the first was told of turns.
fn have_met(gates: &[Meeting]) -> bool {
    for gate in gates {
        if gate.missed != 0 || gate.strayed {
            return false;
        }
    }
    match gates {
        [first, ..] => first.most > 0,
        [] => false,
    }
}

// Whether the workers of a round meet.
fn meet<R: Threads + Sync>(rt: &R, alloc: Global) -> bool {
    let (one, two) = (AtomicU64::new(0), AtomicU64::new(0));
    let mut gates = gates_of(&one, &two);
    ends_with(
        rt,
        alloc,
        &mut gates,
        MOVED,
        Outcome::Done,
        MOVED_TRANSCRIPT,
    ) && have_met(&gates)
}

#[test]
fn workers_of_a_round_run_at_once(rt: HostRuntime) {
    assert!(rt; meet(&rt, rt.alloc()));
}
