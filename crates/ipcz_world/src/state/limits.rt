//! How many acts are enough for a settle if no item that wasn't read carries an end.

ghost use Rattle.std.specs.Prelude.{◌≡◌, ◌<◌, ◌&&◌, length, map, is_some, option_copied};
ghost use Rattle.ipcz_base.specs.Totals.{total_list};
ghost use Rattle.ipcz_node.specs.Serials.{entries_by};
ghost use Rattle.ipcz_base.specs.Ends.{same_end};
ghost use Rattle.ipcz_router.specs.Router.{is_terminal};
ghost use Rattle.ipcz_node.specs.Node.{first_where};
ghost use Rattle.ipcz_world.specs.SettleLimit.{put_among, put_within, router_limit, node_limit, settle_limit};
ghost use Rattle.ipcz_world.specs.SettleLimit.{put_most, has_within, gone_most, gone_at, gone_held, gone_last, gone_message, highest};
ghost use Rattle.ipcz_world.specs.Taking.{IsRegular};
ghost use Rattle.ipcz_world.specs.Tallies.{Tells};
ghost use Rattle.ipcz_world.specs.World.{node_at};

use crate::state::State;
use crate::tallies::{after_gone, gone_message, higher, plus, times};
use ipcz_base::{End, Item};
use ipcz_node::{NodeState, Outbox};
use ipcz_router::Router;

impl State {
    /// The limit of the world; none if it is no number of 64 bits.
    pub(crate) fn settle_limit(&self) -> Option<u64>
        requires { IsRegular self.now.world }
        ensures { Tells result (settle_limit self.now.world) }
    {
        let mut sum = Some(0);
        for n in 0..self.count {
            sum = plus(sum, self.node_limit(n));
        }
        plus(sum, times(37, self.mail.full_count()))
    }

    // The limit of a node.
    fn node_limit(&self, n: u8) -> Option<u64>
        requires regular { IsRegular self.now.world }
        requires node { n < self.now.world.count }
        ensures { Tells result (node_limit self.now.world (node_at self.now.world n)) }
    {
        let node = self.nodes.node(n);
        let mut sum = Some(0);
        for (_, router) in node.routers() {
            sum = plus(sum, self.router_limit(router));
        }
        let messages = times(38, waiting(node.outboxes()));
        let closes = times(3, Some(node.pending().len() as u64));
        plus(sum, plus(messages, closes))
    }

    // The limit of a router.
    fn router_limit(&self, router: &Router) -> Option<u64>
        requires { IsRegular self.now.world }
        ensures { Tells result (router_limit self.now.world router.now.router) }
    {
        let end = router.end();
        let out = self.put_most(end).saturating_sub(router.out_number());
        let inn = self
            .put_most(end.opposite())
            .saturating_sub(router.in_number());
        let numbers = plus(plus(Some(out), Some(inn)), Some(4));
        let rest = if router.is_terminal() { 17 } else { 61 };
        plus(times(6, numbers), Some(rest))
    }

    // How many items an end has put that its peer hasn't read all: as its terminal tells, or, if none stands, as a Gone that wasn't read.
    fn put_most(&self, end: End) -> u64
        requires { IsRegular self.now.world }
        ensures { result ≡ put_most self.now.world end }
    {
        if self.has_terminal(end) {
            self.put_count(end)
        } else {
            self.gone_most()
        }
    }

    // Whether an end's terminal stands in one of the nodes.
    fn has_terminal(&self, end: End) -> bool
        requires { IsRegular self.now.world }
        ensures { result ≡ has_within end self.now.world.nodes }
    {
        for n in 0..self.count {
            if has_among(end, self.nodes.node(n).routers()) {
                return true;
            }
        }
        false
    }

    // The number after the highest one of a Gone that stands anywhere.
    fn gone_most(&self) -> u64
        requires { IsRegular self.now.world }
        ensures { result ≡ gone_most self.now.world }
    {
        let mut most = 0;
        for n in 0..self.count {
            most = higher(most, gone_at(self.nodes.node(n)));
        }
        higher(most, self.mail.gone_most())
    }

    // How many items an end has put.
    fn put_count(&self, end: End) -> u64
        requires { IsRegular self.now.world }
        ensures { result ≡ put_within end self.now.world.nodes }
    {
        let mut count = 0;
        for n in 0..self.count {
            count = higher(count, put_among(end, self.nodes.node(n).routers()));
        }
        count
    }
}

// How many items an end has put, as its terminal among these routers tells.
fn put_among(end: End, routers: &[(u64, Router)]) -> u64
    ensures { result ≡ put_among end (entries_by (λ x. x.router) routers.now) }
{
    let mut count = 0;
    for (_, router) in routers {
        if router.is_terminal() && router.end() == end {
            count = higher(count, router.next_number());
        }
    }
    count
}

// Whether an end's terminal is among these routers.
#[tactic(auto, unfolding(ipcz_node::specs::Node::first_where))]
fn has_among(end: End, routers: &[(u64, Router)]) -> bool
    ensures { result ≡ is_some (first_where (λ r. is_terminal r && same_end r.end end) (entries_by (λ x. x.router) routers.now)) }
{
    for (_, router) in routers {
        if router.is_terminal() && router.end() == end {
            return true;
        }
    }
    false
}

// The number after the highest one of a Gone in a node's routers and outboxes.
fn gone_at(node: &NodeState) -> u64
    ensures { result ≡ gone_at node.now.node }
{
    higher(gone_among(node.routers()), gone_waiting(node.outboxes()))
}

// The same among these routers.
fn gone_among(routers: &[(u64, Router)]) -> u64
    ensures { result ≡ highest (λ x. gone_held x.1) (entries_by (λ x. x.router) routers.now) }
{
    let mut most = 0;
    for (_, router) in routers {
        most = higher(most, gone_held(router));
    }
    most
}

// The same of a router's queues.
#[tactic(auto, unfolding(crate::specs::SettleLimit::gone_held, crate::specs::SettleLimit::gone_queued))]
fn gone_held(router: &Router) -> u64
    ensures { result ≡ gone_held router.now.router }
{
    higher(gone_last(router.out_last()), gone_last(router.in_last()))
}

// The number after that of the last entry of a queue, if that is Gone.
fn gone_last(last: Option<&(u64, Item)>) -> u64
    ensures { result ≡ gone_last (option_copied last.entry) }
{
    match last {
        Some(entry) => after_gone(entry.0, &entry.1),
        None => 0,
    }
}

// The number after the highest one of a Gone in these queues.
fn gone_waiting(queues: &[Outbox]) -> u64
    ensures { result ≡ highest (λ box. highest gone_message box) (map (λ q. q.messages) queues.now) }
{
    let mut most = 0;
    for queue in queues {
        most = higher(most, gone_in(queue));
    }
    most
}

// The same in one of them.
fn gone_in(queue: &Outbox) -> u64
    ensures { result ≡ highest gone_message queue.now.messages }
{
    let mut most = 0;
    for i in 0..queue.len() {
        let Some(message) = queue.get(i) else {
            unreachable!()
        };
        most = higher(most, gone_message(message));
    }
    most
}

// How many messages wait in these queues.
fn waiting(queues: &[Outbox]) -> Option<u64>
    ensures { Tells result (total_list length (map (λ q. q.messages) queues.now)) }
{
    let mut sum = Some(0);
    for queue in queues {
        sum = plus(sum, Some(queue.len() as u64));
    }
    sum
}
