//! Which act a node takes next.
ghost use Rattle.std.specs.Prelude.{◌≡◌, ◌≤◌, ◌<◌, ℕ, true, false, not};
ghost use Rattle.ipcz_base.specs.Indexed.{place_at};
ghost use Rattle.ipcz_node.specs.Node.{flagged_router};
ghost use Rattle.ipcz_node.specs.RoomyNodes.{IsPossibleAct};
ghost use Rattle.ipcz_node.specs.Acts.{next, first_sender, first_destination, has_mail_for, are_empty, close_turn, router_turn};

use super::NodeState;
use crate::act::{Act, MailSeen};

impl NodeState {
    /// The first act that is possible, for the mailboxes as they were seen: to handle the message in hand, to look into the
    /// full mailbox of the lowest sender, to post to the lowest destination that has messages and an empty mailbox, to close
    /// the first end that is still to be closed, the first act of the flagged router of the lowest serial, or none
    /// (docs/PROTOCOL.md, "Turns").
    ///
    /// What was seen of a node that isn't there counts for nothing. It takes no memory. `commit` takes this act, once `prepare` has made
    /// room for it.
    #[tactic(auto, using(crate::proofs::Choosing::mail_waits), unfolding(crate::specs::Acts::next, crate::specs::Acts::node_turn))]
    pub fn next(&self, seen: &MailSeen) -> Act
        ensures act { result ≡ next self.now.node seen.now }
        ensures possible { IsPossibleAct self.now.node result }
    {
        if let Some(sender) = self.hand {
            return Act::Hand(sender);
        }
        if let Some(sender) = self.first_sender(seen) {
            return Act::Look(sender);
        }
        if let Some(to) = self.first_destination(seen) {
            return Act::Post(to);
        }
        self.next_own()
    }

    /// The first possible act of the node that needs no mailbox and no message in hand: to close the first end that is still to be closed,
    /// the first act of the flagged router of the lowest serial, or none. It takes no memory.
    #[inline(always)]
    #[tactic(auto, unfolding(crate::specs::Acts::close_turn, crate::specs::Acts::first_of))]
    pub fn next_own(&self) -> Act
        ensures act { result ≡ close_turn self.now.node.pending (router_turn (flagged_router self.now.node)) }
        ensures possible { IsPossibleAct self.now.node result }
    {
        match self.pending.as_slice() {
            [end, _rest @ ..] => Act::Close(*end),
            [] => self.router_turn(),
        }
    }

    /// Whether any message waits to be posted. It takes no memory.
    #[inline(always)]
    pub fn has_mail(&self) -> bool
        ensures { result ≡ not (are_empty self.now.node.outboxes) }
    {
        !self.outboxes.are_empty()
    }

    /// Whether a message waits to be posted to a node. It takes no memory.
    pub fn has_mail_for(&self, to: u8) -> bool
        ensures { result ≡ has_mail_for self.now.node to }
    {
        self.outboxes.has_mail(to)
    }

    /// The lowest node from one on, below 64, for which a message waits to be posted, or 64. It takes no memory.
    #[inline(always)]
    pub fn next_with_mail(&self, from: u8) -> u8
        requires { from ≤ 64 }
        ensures from { from ≤ result }
        ensures most { result ≤ 64 }
        ensures none { (n : ℕ) → from ≤ n → n < result → has_mail_for self.now.node n ≡ false }
        ensures there { result < 64 → has_mail_for self.now.node result ≡ true }
    {
        self.outboxes.next_with_mail(from)
    }

    // The lowest node whose mailbox to this one was seen full.
    fn first_sender(&self, seen: &MailSeen) -> Option<u8>
        ensures { result ≡ first_sender self.now.node seen.now }
    {
        for from in 0..self.count {
            if was_seen(&seen.full, from) {
                return Some(from);
            }
        }
        None
    }

    // The lowest node that messages wait for and whose mailbox from this one was seen empty.
    fn first_destination(&self, seen: &MailSeen) -> Option<u8>
        ensures { result ≡ first_destination self.now.node seen.now }
    {
        for to in 0..self.count {
            if self.outboxes.has_mail(to) && was_seen(&seen.empty, to) {
                return Some(to);
            }
        }
        None
    }

    // The first act of the flagged router of the lowest serial.
    #[inline(always)]
    #[tactic(auto, using(crate::proofs::Choosing::next_may), unfolding(crate::specs::Acts::router_turn))]
    fn router_turn(&self) -> Act
        ensures act { result ≡ router_turn (flagged_router self.now.node) }
        ensures possible { IsPossibleAct self.now.node result }
    {
        let Some(serial) = self.routers.first_flagged() else {
            return Act::Idle;
        };
        match self.routers.router(serial) {
            Some(router) => Act::Router(serial, router.next_act()),
            None => unreachable!(),
        }
    }
}

// Whether the mailbox of a node was seen so.
fn was_seen(mailboxes: &[bool; 64], node: u8) -> bool
    ensures { result ≡ place_at false mailboxes.now node }
{
    match mailboxes.get(usize::from(node)) {
        Some(seen) => *seen,
        None => false,
    }
}
