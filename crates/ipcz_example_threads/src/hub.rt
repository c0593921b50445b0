//! Two threads share a hub, each with portals of its own, and a worker for each node takes its turns. A lock stands round each node's cell.
ghost use Rattle.std.specs.Prelude.{◌≡◌};

use ipcz_base::{Bytes, Refusal};
use ipcz_fabric::{Arrival, Blank, FabricName, Gate, Hub, Portal, work_waiting};
use std::alloc::Global;
use std::sync::Wait;
use std::sync::atomic::{AtomicU64, Ordering};
use std::thread::{Threads, join};
use std::time::{Clock, Duration};

// Puts a text and some portals, which are used up.
fn put<F: FabricName, R: Wait>(
    rt: &R,
    hub: &Hub<F>,
    at: &Portal<F>,
    text: Bytes,
    portals: Vec<Portal<F>>,
) -> Result<(), Refusal> {
    match at.put_wide(rt, hub, text, portals) {
        Ok(_number) => Ok(()),
        Err(refused) => Err(refused.why),
    }
}

// Gets a parcel, and sleeps until there is one, but no longer than ten seconds.
fn get<F: FabricName, R: Wait + Clock>(
    rt: &R,
    hub: &Hub<F>,
    at: &Portal<F>,
) -> Result<Arrival<F>, Refusal> {
    match at.get_timeout(rt, hub, Duration::from_secs(10)) {
        Ok(arrival) => Ok(arrival),
        Err(missed) => Err(missed.why()),
    }
}

// Node 0: opens a pair, sends one portal away and a text after it, and gets the answer.
fn asks<F: FabricName, R: Wait + Clock>(
    rt: &R,
    alloc: Global,
    hub: &Hub<F>,
    left: &Portal<F>,
) -> Result<Bytes, Refusal> {
    let (kept, moved) = hub.open_pair(rt, 0)?;
    let mut portals = Vec::with_capacity(alloc, 1)?;
    portals.push_reserved(moved);
    put(rt, hub, left, Bytes::new(), portals)?;
    let text = Bytes::from_slice(alloc, b"hello")?;
    put(rt, hub, &kept, text, Vec::new(alloc))?;
    let answer = get(rt, hub, &kept)?;
    Ok(answer.bytes)
}

// Node 1: gets the portal and the text, and puts the text back.
fn answers<F: FabricName, R: Wait + Clock>(
    rt: &R,
    alloc: Global,
    hub: &Hub<F>,
    right: &Portal<F>,
) -> Result<(), Refusal> {
    let mut parcel = get(rt, hub, right)?;
    let Some(moved) = parcel.portals.pop() else {
        return Err(Refusal::Stranger);
    };
    let text = get(rt, hub, &moved)?;
    put(rt, hub, &moved, text.bytes, Vec::new(alloc))
}

// Lets a worker go on until the callers have ended.
#[derive(Drop)]
struct Until<'a> {
    ended: &'a AtomicU64,
}

impl<'a> Gate for Until<'a> {
    fn pass(&mut self, _node: u8, _turns: u64) -> bool {
        self.ended.load(Ordering::SeqCst) == 0
    }
}

// Takes the turns of a node, and sleeps while there are none to take.
fn works<F: FabricName, R: Wait>(rt: &R, hub: &Hub<F>, node: u8, ended: &AtomicU64) -> u64 {
    let mut gate = Until { ended };
    work_waiting(rt, hub, node, &mut gate, u64::MAX, Duration::MAX)
}

// Both callers, and then their workers are told to end: first the flag, then the wake.
fn both_call<F: FabricName + Send + Sync, R: Threads + Wait + Clock + Sync>(
    rt: &R,
    alloc: Global,
    hub: &Hub<F>,
    left: &Portal<F>,
    right: &Portal<F>,
    ended: &AtomicU64,
) -> Result<Bytes, Refusal> {
    let (answer, _answered) = join(
        rt,
        || asks(rt, alloc, hub, left),
        || answers(rt, alloc, hub, right),
    );
    ended.store(1, Ordering::SeqCst);
    hub.notify_all(0);
    hub.notify_all(1);
    answer
}

// The callers and a worker for each node, and what node 0 gets back.
fn all_run<F: FabricName + Send + Sync, R: Threads + Wait + Clock + Sync>(
    rt: &R,
    alloc: Global,
    hub: &Hub<F>,
    portals: &[Portal<F>],
) -> Result<Bytes, Refusal> {
    let [left, right] = portals else {
        return Err(Refusal::Stranger);
    };
    let ended = AtomicU64::new(0);
    let (answer, _turns) = join(
        rt,
        || both_call(rt, alloc, hub, left, right, &ended),
        || join(
            rt,
            || works(rt, hub, 0, &ended),
            || works(rt, hub, 1, &ended),
        ),
    );
    answer
}

/// What node 0 gets back from node 1. `F` has to name the table of this blank.
pub fn talk_by_hub<F: FabricName + Send + Sync, R: Threads + Wait + Clock + Sync>(
    rt: &R,
    alloc: Global,
    blank: Blank,
) -> Result<Bytes, Refusal>
    requires { blank ≡ F.table }
{
    let (fabric, cells) = match blank.name::<F>() {
        Ok(named) => named,
        Err((why, _blank)) => return Err(why),
    };
    let (hub, portals) = match Hub::new(fabric, cells) {
        Ok(made) => made,
        Err((why, _fabric, _cells)) => return Err(why),
    };
    all_run(rt, alloc, &hub, portals.as_slice())
}
