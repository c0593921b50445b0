//! Acts of a node's routers, and what they give their node.
ghost use Rattle.std.specs.Prelude.{ℕ, ◌≡◌, ◌≤◌, ◌+◌, ◌++◌, Some, true, is_some, length, vec_capacity, vec_len, option_to_list, IsSomeAnd};
ghost use Rattle.ipcz_router.specs.Router.{Router as RouterRecord};
ghost use Rattle.ipcz_router.specs.ActTable.{may_take};
ghost use Rattle.ipcz_router.specs.ActEffects.{IsAnswerOf, apply, leaves_by, output_of};
ghost use Rattle.ipcz_node.specs.declared.act.Act.{Act};
ghost use Rattle.ipcz_node.specs.Node.{router_in};
ghost use Rattle.ipcz_node.specs.Sends.{send};
ghost use Rattle.ipcz_node.specs.RoomyNodes.{IsReady, CanTell, IsReadyFor, IsPossibleAct};
ghost use Rattle.ipcz_node.specs.Acts.{has_left, keep_or_drop, commit_router, commit, first_of, post_of, Answers, rest_of};
ghost use Rattle.std.specs.Prelude.{[]};
ghost use Rattle.ipcz_base.specs.Indexed.{place_at, put_place};
ghost use Rattle.ipcz_node.specs.Node.{outbox, with_outbox};
ghost use Rattle.ipcz_node.specs.Events.{act_event, event_of, link_acted, moved_by, router_event};

use super::NodeState;
use crate::act::Act;
use crate::batch::Batch;
use crate::happened::{Happened, act_event, link_of};
use ipcz_base::{End, Ends, Item, LinkId, Message};
use ipcz_router::act::{Answer, Applied, RouterAct};

impl NodeState {
    // These ends are still to be closed.
    fn keep_pending(&mut self, ends: &[End])
        requires { length ends.now ≤ self.old.room.pending }
        ensures { self.new.node ≡ record self.old.node { pending = self.old.node.pending ++ ends.now } }
    {
        copy_ends(&mut self.pending, ends);
    }

    // Does with the node what an act of a router gives it.
    #[tactic(auto, unfolding(crate::specs::Sends::send))]
    #[inline(always)]
    fn send(&mut self, applied: Applied)
        requires { IsReady self.old applied }
        ensures { self.new.node ≡ send self.old.node applied }
    {
        match applied {
            Applied::Nothing => {}
            Applied::Sent(link, n, item) => self.send_item(link, n, item),
            Applied::Message(to, message) => self.outboxes.push(to, message),
            Applied::Discarded(_, Item::Parcel(parcel)) => self.keep_pending(
                parcel.ends.as_slice(),
            ),
            Applied::Discarded(_, Item::Mark | Item::Gone) => {}
        }
    }

    // A router does its act, and leaves if that is what the act is for.
    #[tactic(auto, unfolding(crate::specs::Acts::keep_or_drop, ipcz_router::specs::ActEffects::leaves_by, ipcz_router::specs::ActEffects::output_of))]
    #[inline(always)]
    fn act_router(&mut self, serial: u64, act: RouterAct, answer: Answer) -> Applied
        requires possible { IsSomeAnd (router_in self.old.node serial) (λ r. may_take r act ≡ true) }
        requires answer { IsAnswerOf act answer }
        ensures node { (r : RouterRecord) → router_in self.old.node serial ≡ Some r →
            self.new.node ≡ keep_or_drop self.old.node serial (apply r act answer) (leaves_by r act) }
        ensures output { (r : RouterRecord) → router_in self.old.node serial ≡ Some r → result ≡ output_of r act }
        ensures room { self.new.room ≡ record self.old.room {
          out_rooms = self.new.room.out_rooms;
          in_rooms = self.new.room.in_rooms;
          ends = self.new.room.ends;
        } }
        ensures number { self.new.node.number ≡ self.old.node.number }
        ensures serial { self.new.node.next_peripheral ≡ self.old.node.next_peripheral }
    {
        if act == RouterAct::Leave {
            self.routers.drop_router(serial);
            return Applied::Nothing;
        }
        let applied = self.routers.act(serial, act, answer);
        if has_left(act, &applied) {
            self.routers.drop_router(serial);
        }
        applied
    }
}

impl NodeState {
    // The link that an act of the router of the serial is about.
    #[tactic(auto, unfolding(crate::specs::Events::link_acted))]
    fn link_acted(&self, serial: u64, act: RouterAct) -> LinkId
        requires { is_some (router_in self.now.node serial) ≡ true }
        ensures { (r : RouterRecord) → router_in self.now.node serial ≡ Some r → result ≡ link_acted r act }
    {
        let Some(router) = self.routers.router(serial) else {
            unreachable!()
        };
        let filing = router.filing();
        match act {
            RouterAct::FinishOut => link_of(filing.outward_decaying),
            RouterAct::FinishIn => link_of(filing.inward_decaying),
            _ => link_of(filing.outward),
        }
    }

    // The ends that are moved by what an act gives, in the list that is kept for them.
    #[tactic(auto, unfolding(crate::specs::Events::moved_by))]
    fn copy_moved(&mut self, applied: &Applied) -> Ends
        requires { length (moved_by self.old.node applied.now) ≤ self.old.room.event_ends }
        ensures moved { result ≡ moved_by self.old.node applied.now }
        ensures node { self.new.node ≡ self.old.node }
        ensures room { self.new.room ≡ record self.old.room { event_ends = self.new.room.event_ends } }
    {
        let mut copy = self.event_ends.take(self.alloc);
        if let Applied::Sent(link, _, Item::Parcel(parcel)) = applied {
            if link.other != self.number {
                copy_ends(&mut copy, parcel.ends.as_slice());
            }
        }
        Ends::from_vec(copy)
    }

    // What an act of a router is seen to do, by the link that it is about and what it gave.
    fn event(
        &mut self,
        serial: u64,
        link: LinkId,
        act: RouterAct,
        answer: Answer,
        applied: &Applied,
    ) -> Happened
        requires { length (moved_by self.old.node applied.now) ≤ self.old.room.event_ends }
        ensures event { result ≡ act_event serial link act answer applied.now (moved_by self.old.node applied.now) }
        ensures node { self.new.node ≡ self.old.node }
        ensures room { self.new.room ≡ record self.old.room { event_ends = self.new.room.event_ends } }
    {
        let moved = self.copy_moved(applied);
        act_event(serial, link, act, answer, applied, moved)
    }
}

impl NodeState {
    // A router does an act for which there is room.
    #[tactic(auto, unfolding(crate::specs::Acts::commit_router, crate::specs::Node::on_router))]
    fn commit_act(&mut self, serial: u64, act: RouterAct, answer: Answer) -> Happened
        requires possible { IsSomeAnd (router_in self.old.node serial) (λ r. may_take r act ≡ true) }
        requires answer { IsAnswerOf act answer }
        requires ready { (r : RouterRecord) → router_in self.old.node serial ≡ Some r → IsReady self.old (output_of r act) ×
            CanTell self.old (output_of r act) }
        ensures node { (r : RouterRecord) → router_in self.old.node serial ≡ Some r →
            self.new.node ≡ commit_router self.old.node serial act answer r }
        ensures event { (r : RouterRecord) → router_in self.old.node serial ≡ Some r →
            result ≡ router_event self.old.node serial r act answer }
    {
        let link = self.link_acted(serial, act);
        let applied = self.act_router(serial, act, answer);
        let event = self.event(serial, link, act, answer, &applied);
        self.send(applied);
        event
    }
}

impl NodeState {
    // A router does its act, and what it does is told.
    #[tactic(auto, unfolding(crate::specs::Acts::commit, crate::specs::Events::event_of, crate::specs::Events::event_at, crate::specs::Node::on_router))]
    pub(super) fn commit_router(&mut self, serial: u64, act: RouterAct, answer: Answer) -> Happened
        requires possible { IsPossibleAct self.old.node (Act.Router serial act) }
        requires answer { Answers (Act.Router serial act) answer }
        requires ready { IsReadyFor self.old (Act.Router serial act) }
        ensures node { self.new.node ≡ commit self.old.node (Act.Router serial act) answer }
        ensures event { result ≡ event_of self.old.node (Act.Router serial act) answer }
    {
        self.commit_act(serial, act, answer)
    }

    /// Takes the message of this node's full mailbox into the hand, as `commit` does with that act: its sender is noted.
    #[tactic(auto, unfolding(crate::specs::Acts::commit))]
    pub fn look(&mut self, sender: u8)
        requires { IsPossibleAct self.old.node (Act.Look sender) }
        ensures { self.new.node ≡ commit self.old.node (Act.Look sender) Answer.Plain }
    {
        self.hand = Some(sender);
    }

    /// Takes the first message for a node out of its outbox, as `commit` does with that act. An outbox that is left empty gives its room
    /// back.
    #[tactic(auto, unfolding(crate::specs::Acts::commit, crate::specs::Acts::post_of))]
    pub fn post(&mut self, to: u8) -> Message
        requires { IsPossibleAct self.old.node (Act.Post to) }
        ensures node { self.new.node ≡ commit self.old.node (Act.Post to) Answer.Plain }
        ensures message { Some result ≡ post_of self.old.node (Act.Post to) }
        ensures given_back { rest_of (outbox self.old.node to) ≡ [] → place_at 0 self.new.room.outboxes to ≡ 0 }
    {
        let Some(message) = self.outboxes.pop(self.alloc, to) else {
            unreachable!()
        };
        message
    }

    /// Takes the first message for a node out of its outbox, if there is one, into an empty batch. An outbox that is left empty gives its room back.
    pub fn post_first(&mut self, to: u8, batch: &mut Batch)
        requires { batch.old ≡ [] }
        ensures node { self.new.node ≡ with_outbox self.old.node to (rest_of (outbox self.old.node to)) }
        ensures batch { batch.new ≡ option_to_list (first_of (outbox self.old.node to)) }
    {
        self.outboxes.take_first(self.alloc, to, batch);
    }

    /// Takes all messages for a node out of its outbox, into an empty batch. The outbox has the batch's room then.
    pub fn post_all(&mut self, to: u8, batch: &mut Batch)
        requires { batch.old ≡ [] }
        ensures node { self.new.node ≡ record self.old.node { outboxes = put_place [] self.old.node.outboxes to [] } }
        ensures batch { batch.new ≡ outbox self.old.node to }
    {
        self.outboxes.take_all(to, batch);
    }

    // A router does its act, and nothing is told: inlined where the act is known, so that nothing is made and taken apart for what it
    // doesn't give.
    #[tactic(auto, unfolding(crate::specs::Acts::commit, crate::specs::Acts::commit_router, crate::specs::Node::on_router))]
    #[inline(always)]
    pub(super) fn commit_one(&mut self, serial: u64, act: RouterAct, answer: Answer)
        requires possible { IsPossibleAct self.old.node (Act.Router serial act) }
        requires answer { Answers (Act.Router serial act) answer }
        requires ready { IsReadyFor self.old (Act.Router serial act) }
        ensures { self.new.node ≡ commit self.old.node (Act.Router serial act) answer }
    {
        let given = self.act_router(serial, act, answer);
        self.send(given);
    }

    /// Does a possible act, as the one that `next` gave, for which `prepare` made room, with an answer of its kind. It takes no
    /// memory.
    ///
    /// It gives what happened, and the message of a post, which has left its outbox. A look notes the sender whose message
    /// is in hand from now on; the message in hand itself is not handled by a commit, but delivered (docs/PROTOCOL.md,
    /// "Turns").
    #[tactic(auto, unfolding(crate::specs::Acts::commit, crate::specs::Acts::post_of, crate::specs::Events::event_of))]
    pub fn commit(&mut self, act: Act, answer: Answer) -> (Happened, Option<Message>)
        requires possible { IsPossibleAct self.old.node act }
        requires answer { Answers act answer }
        requires ready { IsReadyFor self.old act }
        ensures node { self.new.node ≡ commit self.old.node act answer }
        ensures event { result.0 ≡ event_of self.old.node act answer }
        ensures message { result.1 ≡ post_of self.old.node act }
        ensures given_back { (to : ℕ) → act ≡ Act.Post to → rest_of (outbox self.old.node to) ≡ [] → place_at 0 self.new.room.outboxes to ≡ 0 }
    {
        match act {
            Act::Look(sender) => {
                self.look(sender);
                (Happened::Look(sender), None)
            }
            Act::Post(to) => (Happened::Post(to), Some(self.post(to))),
            Act::Router(serial, act) => (self.commit_router(serial, act, answer), None),
            Act::Close(end) => {
                self.close_first(end);
                (Happened::Close(end), None)
            }
            Act::Hand(_) => (Happened::Idle, None),
            Act::Idle => (Happened::Idle, None),
        }
    }
}

// Whether a router leaves by an act that gave its node this.
#[tactic(auto, unfolding(crate::specs::Acts::has_left))]
fn has_left(act: RouterAct, given: &Applied) -> bool
    ensures { result ≡ has_left act given.now }
{
    match (act, given) {
        (RouterAct::Leave | RouterAct::Retire, _) => true,
        (RouterAct::Discard, Applied::Discarded(_, item)) => item.is_gone(),
        (_, _) => false,
    }
}

// Copies ends into a list that has room for them.
fn copy_ends(copy: &mut Vec<End>, ends: &[End])
    requires { vec_len copy.old + length ends.now ≤ vec_capacity copy.old }
    ensures { copy.new.items ≡ copy.old.items ++ ends.now }
{
    for end in ends {
        copy.push_reserved(*end);
    }
}
