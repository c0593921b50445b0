//! Acts that are asked for by name, in whatever order.

ghost use Rattle.std.specs.Prelude.{◌≡◌, ◌≢◌, ◌<◌, is_some, IfOk, IfErr, OnErr};
ghost use Rattle.ipcz_router.specs.ActTable.{is_rest};
ghost use Rattle.ipcz_world.specs.Asking.{can_act, hand_at, IsActed, WhyNotTaken};
ghost use Rattle.ipcz_world.specs.Turns.{can_take, message_in_hand};
ghost use Rattle.ipcz_base.specs.declared.refusal.Refusal.TheVariants.{OutOfMemory};
ghost use Rattle.ipcz_world.specs.RoomyWorlds.{HasRoomToAct};
ghost use Rattle.ipcz_world.specs.Taking.{IsRegular};

use crate::state::State;
use crate::state::settling::is_idle;
use crate::step::NotTaken;
use ipcz_base::End;
use ipcz_node::{Act, Happened};
use ipcz_router::act::RouterAct;

impl State {
    /// Whether a node is there and may take an act.
    pub(crate) fn can_act(&self, n: u8, act: Act) -> bool
        requires { IsRegular self.now.world }
        ensures { result ≡ can_act self.now.world n act }
    {
        n < self.count && self.can_take(n, act)
    }

    /// The sender of the message in a node's hand, if it is there and has one.
    #[tactic(auto, unfolding(crate::specs::World::node_at))]
    pub(crate) fn hand(&self, n: u8) -> Option<u8>
        requires { IsRegular self.now.world }
        ensures { result ≡ hand_at self.now.world n }
    {
        if n < self.count {
            self.nodes.node(n).hand()
        } else {
            None
        }
    }

    /// Takes an act of a node, if it is there and may take it.
    pub(crate) fn act(&mut self, n: u8, act: Act) -> Result<Happened, NotTaken>
        requires { IsRegular self.old.world }
        ensures acted { IfOk result (λ event. IsActed self.old.world n act event self.new.world) }
        ensures why { IfErr result (λ why. WhyNotTaken self.old.world n act why) }
        ensures full { HasRoomToAct self.old n act → IfErr result (λ why. why ≢ NotTaken.Refused OutOfMemory) }
        ensures err { OnErr result (self.new.world ≡ self.old.world) }
    {
        if !self.can_act(n, act) {
            return Err(NotTaken::NotPossible);
        }
        match self.take(n, act) {
            Ok(event) => Ok(event),
            Err(why) => Err(NotTaken::Refused(why)),
        }
    }

    // Whether a node that is there may take an act.
    #[tactic(auto, unfolding(crate::specs::Turns::can_take))]
    fn can_take(&self, n: u8, act: Act) -> bool
        requires regular { IsRegular self.now.world }
        requires node { n < self.now.world.count }
        ensures { result ≡ can_take self.now.world n act }
    {
        match act {
            Act::Hand(from) => self.can_handle(n, from),
            Act::Look(from) => self.can_look(n, from),
            Act::Post(to) => to < self.count && self.can_post(n, to),
            Act::Close(end) => self.can_close(n, end),
            Act::Router(serial, act) => self.router_may(n, serial, act),
            Act::Idle => is_idle(self.next(n)),
        }
    }

    // Whether the message in a node's hand came from this one.
    #[tactic(auto, using(crate::proofs::code::Asked::hand_of_node), unfolding(crate::specs::Turns::can_take, crate::specs::World::node_at, ipcz_node::specs::Hands::is_hand_of))]
    fn can_handle(&self, n: u8, from: u8) -> bool
        requires regular { IsRegular self.now.world }
        requires node { n < self.now.world.count }
        ensures { result ≡ can_take self.now.world n (Act.Hand from) }
    {
        match self.nodes.node(n).hand() {
            Some(sender) => sender == from && self.has_in_hand(n, from),
            None => false,
        }
    }

    // Whether a message from this node is in a node's hand.
    #[tactic(auto, unfolding(crate::specs::World::mail_at))]
    fn has_in_hand(&self, n: u8, from: u8) -> bool
        requires regular { IsRegular self.now.world }
        requires node { n < self.now.world.count }
        requires from { from < self.now.world.count }
        ensures { result ≡ is_some (message_in_hand self.now.world n from) }
    {
        self.mail.in_hand(self.way(from, n)).is_some()
    }

    // Whether a node's hand is empty and the mailbox from another one is full.
    #[tactic(auto, unfolding(crate::specs::Turns::can_take, crate::specs::World::node_at, crate::specs::World::mail_at))]
    fn can_look(&self, n: u8, from: u8) -> bool
        requires regular { IsRegular self.now.world }
        requires node { n < self.now.world.count }
        ensures { result ≡ can_take self.now.world n (Act.Look from) }
    {
        from < self.count
            && self.nodes.node(n).hand().is_none()
            && self.mail.is_full(self.way(from, n))
    }

    // Whether this end is the first that a node has still to close.
    #[tactic(auto, unfolding(crate::specs::Turns::can_take, crate::specs::Turns::is_first_pending, crate::specs::World::node_at))]
    fn can_close(&self, n: u8, end: End) -> bool
        requires regular { IsRegular self.now.world }
        requires node { n < self.now.world.count }
        ensures { result ≡ can_take self.now.world n (Act.Close end) }
    {
        match self.nodes.node(n).pending() {
            [first, _rest @ ..] => *first == end,
            [] => false,
        }
    }

    // Whether a node's router of this serial is there and may take an act: rest if no other is possible.
    #[tactic(auto, unfolding(crate::specs::Turns::can_take, crate::specs::Turns::may_act, crate::specs::World::node_at, crate::specs::World::router_at))]
    fn router_may(&self, n: u8, serial: u64, act: RouterAct) -> bool
        requires regular { IsRegular self.now.world }
        requires node { n < self.now.world.count }
        ensures { result ≡ can_take self.now.world n (Act.Router serial act) }
    {
        match self.nodes.node(n).find_router(serial) {
            Some(router) => {
                router.is_possible(act) || (is_rest(act) && is_rest(router.next_act()))
            }
            None => false,
        }
    }
}

// Whether an act is rest.
#[tactic(auto, unfolding(ipcz_router::specs::ActTable::is_rest))]
fn is_rest(act: RouterAct) -> bool
    ensures { result ≡ is_rest act }
{
    matches!(act, RouterAct::Rest)
}
