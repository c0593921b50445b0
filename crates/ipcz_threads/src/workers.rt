//! The workers of a table's nodes, by number.
ghost use Rattle.std.specs.Prelude.{◌≡◌, ◌+◌, ◌-◌, ◌<◌, ◌≤◌, ◌^◌, length};
ghost use Rattle.ipcz_threads.specs.Rounds.{AreAsked, IsAskedAt, IsRound, TakesTurns, acts, is_some_starved, left_after};
ghost use Rattle.ipcz_threads.specs.Workers.{CallsAt, holder_from};

use crate::call::Call;
use crate::worker::NodeWorker;
use ipcz_base::{End, Refusal};
use ipcz_fabric::{FabricName, Gate, run_worker};
use ipcz_world::Reply;
use std::thread;
use std::thread::Threads;

/// The first node whose callers hold the end, if some do: these are the workers from a node on.
pub(crate) fn holder_from<'a, F: FabricName, G>(
    workers: &[NodeWorker<'a, F, G>],
    node: usize,
    end: End,
) -> Option<usize>
    requires { node + length workers.now < 2 ^ 64 }
    ensures { result ≡ holder_from workers.now node end }
{
    match workers {
        [] => None,
        [first, rest @ ..] => {
            if first.holds(end) {
                return Some(node);
            }
            holder_from(rest, node + 1, end)
        }
    }
}

/// Makes a call at the node of a number.
pub(crate) fn call_at<'a, F: FabricName, G>(
    workers: &mut [NodeWorker<'a, F, G>],
    node: usize,
    call: Call,
) -> Reply
    ensures { CallsAt F.table workers.old node call result workers.new }
{
    if node < workers.len() {
        workers[node].call(call)
    } else {
        Reply::Refused(Refusal::Stranger)
    }
}

// Whether the node of a number has nothing to do, as its cell finds it.
fn is_quiet_at<'a, F: FabricName, G>(workers: &mut [NodeWorker<'a, F, G>], node: usize) -> bool
    requires { node < length workers.old }
    ensures asked { IsAskedAt F.table workers.old node result workers.new }
    ensures many { length workers.new ≡ length workers.old }
{
    workers[node].quiet()
}

/// Whether so many nodes from one on have nothing to do, as their cells find it. Each is asked.
pub(crate) fn are_quiet<'a, F: FabricName, G>(
    workers: &mut [NodeWorker<'a, F, G>],
    node: usize,
    left: usize,
) -> bool
    requires { node + left ≤ length workers.old }
    ensures asked { AreAsked F.table left node workers.old result workers.new }
    ensures many { length workers.new ≡ length workers.old }
{
    if left == 0 {
        return true;
    }
    let own = is_quiet_at(workers, node);
    let others = are_quiet(workers, node + 1, left - 1);
    own & others
}

/// Whether some node's turn found no memory.
pub(crate) fn is_some_starved<'a, F: FabricName, G>(workers: &[NodeWorker<'a, F, G>]) -> bool
    ensures { result ≡ is_some_starved workers.now }
{
    match workers {
        [] => false,
        [first, rest @ ..] => first.starved || is_some_starved(rest),
    }
}

// What is left of so many acts without those that these workers have taken in a round in which each might take `limit`.
fn without_acts<'a, F: FabricName, G>(
    workers: &[NodeWorker<'a, F, G>],
    limit: u64,
    left: u64,
) -> u64
    ensures { result ≡ left - acts limit workers.now }
{
    match workers {
        [] => left,
        [first, rest @ ..] => {
            let taken = limit.saturating_sub(first.left);
            without_acts(rest, limit, left.saturating_sub(taken))
        }
    }
}

/// How many acts are left of so many after a round in which each worker might take them all: the round uses up those that the workers have
/// taken, and at least one, so that rounds come to an end whatever the gates answer.
pub(crate) fn left_after<'a, F: FabricName, G>(workers: &[NodeWorker<'a, F, G>], limit: u64) -> u64
    ensures left { result ≡ left_after limit workers.now }
    ensures falls { 0 < limit → result < limit }
{
    let left = without_acts(workers, limit, limit);
    left.min(limit.saturating_sub(1))
}

// Lets a worker take its turns of a round.
fn take_turns<'a, F: FabricName, G: Gate>(worker: &mut NodeWorker<'a, F, G>, limit: u64)
    ensures { TakesTurns G.answers F.table limit worker.old worker.new }
{
    worker.left = limit;
    run_worker(worker, limit);
}

/// A round: each worker takes turns in a thread of its own, at most so many acts, and all are joined.
pub(crate) fn take_round<'a, R: Threads + Sync, F: FabricName + Send + Sync, G: Gate + Send>(
    rt: &R,
    workers: &mut [NodeWorker<'a, F, G>],
    limit: u64,
)
    ensures { IsRound G.answers F.table limit workers.old workers.new }
{
    let threads = workers.len();
    if threads == 0 {
        return;
    }
    thread::for_each_mut(
        rt,
        workers,
        threads,
        &|_, worker: &mut NodeWorker<F, G>|
            ensures { TakesTurns G.answers F.table limit worker.entry.now worker.exit.now }
        { take_turns(worker, limit) },
    );
}
