//! Which act a router takes next, and what it does.
ghost use Rattle.std.specs.Prelude.{◌≡◌, ◌||◌, true, false, [], ◌∷◌};
ghost use Rattle.ipcz_edge.specs.Edge.{edge_decays};
ghost use Rattle.ipcz_base.specs.Links.{word_of};
ghost use Rattle.ipcz_router.specs.RoomyRouters.{KeepsRoom, LeavesRoom};
ghost use Rattle.ipcz_router.specs.Router.{decays, has_no_link, is_on_central, is_terminal};
ghost use Rattle.ipcz_router.specs.ActTable.{first_possible, is_possible, is_rest, next_act, is_ready, can_begin, is_done, is_leaving, can_retire};
ghost use Rattle.ipcz_router.specs.ActTable.{may_take};
ghost use Rattle.ipcz_router.specs.ActEffects.{IsAsked, IsOutputOf, IsBelowNoNumber, apply, output_of, item_output, finish_out, mark_side};
ghost use Rattle.ipcz_router.specs.ActEffects.{finish_in, begin_bypass, wake_other, claim_word, fail_lock, drop_lock};
ghost use Rattle.ipcz_router.specs.Acts.{way_out, way_in, pop_out, send_on, drop_item};

use super::Router;
use crate::act::{Answer, Applied, RouterAct};
use ipcz_base::{Item, LinkEnd, LinkId, Message};

// The word of a link end's link, if there is one and it is central.
#[tactic(auto, unfolding(ipcz_base::specs::Links::word_of))]
fn word_of(end: Option<LinkEnd>) -> Option<u64>
    ensures { result ≡ word_of end }
{
    let end = end?;
    match end.link {
        LinkId::Central(word) => Some(word),
        LinkId::Peripheral { .. } => None,
    }
}

impl Router {
    /// The link that the current item of the out queue goes over, whether that item is there or not.
    pub fn way_out(&self) -> Option<LinkEnd>
        ensures { result ≡ way_out self.now.router }
    {
        self.outward.choose(self.out_queue.current())
    }

    /// The link that the current item of the in queue goes over, whether that item is there or not. A terminal has none.
    #[tactic(auto, unfolding(ipcz_edge::specs::Edge::choose))]
    pub fn way_in(&self) -> Option<LinkEnd>
        ensures { result ≡ way_in self.now.router }
    {
        match &self.inward {
            Some(inward) => inward.choose(self.in_queue.current()),
            None => None,
        }
    }

    pub(super) fn decays(&self) -> bool
        ensures { result ≡ decays self.now.router }
    {
        match &self.inward {
            Some(inward) => self.outward.decays() || inward.decays(),
            None => self.outward.decays(),
        }
    }

    fn has_no_link(&self) -> bool
        ensures { result ≡ has_no_link self.now.router }
    {
        match &self.inward {
            Some(inward) => self.outward.is_empty() && inward.is_empty(),
            None => self.outward.is_empty(),
        }
    }

    pub(super) fn is_on_central(&self) -> bool
        ensures { result ≡ is_on_central self.now.router }
    {
        word_of(self.outward.primary()).is_some()
    }

    fn is_ready(&self) -> bool
        ensures { result ≡ is_ready self.now.router }
    {
        self.inward.is_some()
            && self.is_on_central()
            && self.marked
            && !self.decays()
            && !self.dry
            && !self.tried
    }

    fn can_begin(&self) -> bool
        ensures { result ≡ can_begin self.now.router }
    {
        self.inward.is_some() && self.holds && self.is_on_central() && !self.decays()
    }

    // Whether it is a sink that has discarded the peer's mark and has sent all that was put at it, so that it has only to leave.
    fn is_done(&self) -> bool
        ensures { result ≡ is_done self.now.router }
    {
        self.mark_dropped && self.inward.is_none() && self.closed && self.out_queue.is_empty()
    }

    fn is_leaving(&self) -> bool
        ensures { result ≡ is_leaving self.now.router }
    {
        self.is_done() && self.is_on_central() && self.marked && !self.decays() && !self.tried
    }

    fn can_retire(&self) -> bool
        ensures { result ≡ can_retire self.now.router }
    {
        self.is_done() && self.holds && self.is_on_central() && !self.decays()
    }

    // If nothing decays, which is mostly so, the reach isn't asked.
    #[tactic(auto, unfolding(crate::specs::ActTable::is_possible, ipcz_edge::specs::Edge::can_finish))]
    fn can_finish_out(&self) -> bool
        ensures { result ≡ is_possible self.now.router RouterAct.FinishOut }
    {
        if !self.outward.decays() {
            return false;
        }
        self.outward
            .can_finish(self.out_queue.current(), self.in_queue.reach())
    }

    #[tactic(auto, unfolding(crate::specs::ActTable::is_possible, ipcz_edge::specs::Edge::can_finish))]
    fn can_finish_in(&self) -> bool
        ensures { result ≡ is_possible self.now.router RouterAct.FinishIn }
    {
        match &self.inward {
            Some(inward) => { inward.can_finish(self.in_queue.current(), self.out_queue.reach()) }
            None => false,
        }
    }

    #[inline(always)]
    #[tactic(auto, unfolding(crate::specs::ActTable::is_possible))]
    fn can_discard(&self) -> bool
        ensures { result ≡ is_possible self.now.router RouterAct.Discard }
    {
        self.inward.is_none() && self.closed && self.in_queue.next().is_some()
    }

    #[inline(always)]
    #[tactic(auto, unfolding(crate::specs::ActTable::is_possible))]
    fn can_leave(&self) -> bool
        ensures { result ≡ is_possible self.now.router RouterAct.Leave }
    {
        self.inward.is_some() && (self.has_no_link() || self.gone_sent)
    }

    #[inline(always)]
    #[tactic(auto, unfolding(crate::specs::ActTable::is_possible))]
    fn can_wake(&self) -> bool
        ensures { result ≡ is_possible self.now.router RouterAct.Wake }
    {
        self.wake_owed && self.is_on_central()
    }

    #[inline(always)]
    #[tactic(auto, unfolding(crate::specs::ActTable::is_possible))]
    fn can_claim(&self) -> bool
        ensures { result ≡ is_possible self.now.router RouterAct.Claim }
    {
        self.is_ready() && self.spare.is_none()
    }

    // A proxy locks for its bypass, and a sink to leave.
    #[inline(always)]
    #[tactic(auto, unfolding(crate::specs::ActTable::is_possible))]
    fn can_lock(&self) -> bool
        ensures { result ≡ is_possible self.now.router RouterAct.Lock }
    {
        (self.is_ready() && self.spare.is_some() && !self.holds)
            || (self.is_leaving() && !self.holds)
    }

    /// Whether an act is possible, `Rest` aside: docs/PROTOCOL.md, "Turns", has the condition of each. `Unlock` is possible
    /// if `Begin` or `Retire` is, in whose place it is taken.
    #[tactic(auto, unfolding(crate::specs::ActTable::is_possible))]
    pub fn is_possible(&self, act: RouterAct) -> bool
        ensures { result ≡ is_possible self.now.router act }
    {
        match act {
            RouterAct::SendOut => self.out_queue.next().is_some() && self.way_out().is_some(),
            RouterAct::SendIn => self.in_queue.next().is_some() && self.way_in().is_some(),
            RouterAct::Discard => self.can_discard(),
            RouterAct::FinishOut => self.can_finish_out(),
            RouterAct::FinishIn => self.can_finish_in(),
            RouterAct::Leave => self.can_leave(),
            RouterAct::Mark => self.is_on_central() && !self.marked && !self.decays(),
            RouterAct::Wake => self.can_wake(),
            RouterAct::Claim => self.can_claim(),
            RouterAct::Lock => self.can_lock(),
            RouterAct::Begin => self.can_begin(),
            RouterAct::Retire => self.can_retire(),
            RouterAct::Unlock => self.can_begin() || self.can_retire(),
            RouterAct::Rest => false,
        }
    }

    /// The first possible act in the order of [`RouterAct`], `Unlock` left out, else `Rest`.
    #[tactic(auto, unfolding(crate::specs::ActTable::next_act, crate::specs::ActTable::is_rest))]
    pub fn next_act(&self) -> RouterAct
        ensures first { result ≡ next_act self.now.router }
        ensures possible { may_take self.now.router result ≡ true }
    {
        if self.is_possible(RouterAct::SendOut) {
            return RouterAct::SendOut;
        }
        if self.is_terminal() && !self.closed && !self.outward.decays() {
            return self.next_at_terminal();
        }
        self.next_later()
    }

    // The first possible act, in that order, of an open terminal where nothing decays, behind a send outward: these are most routers.
    #[inline(always)]
    #[tactic(auto, using(crate::proofs::NextActs::terminal_next), unfolding(crate::specs::ActTable::is_rest))]
    fn next_at_terminal(&self) -> RouterAct
        requires terminal { is_terminal self.now.router ≡ true }
        requires open { self.now.router.closed ≡ false }
        requires whole { edge_decays self.now.router.outward ≡ false }
        requires sent { is_possible self.now.router RouterAct.SendOut ≡ false }
        ensures first { result ≡ next_act self.now.router }
        ensures possible { may_take self.now.router result ≡ true }
    {
        if self.is_possible(RouterAct::Mark) {
            return RouterAct::Mark;
        }
        if self.is_possible(RouterAct::Wake) {
            return RouterAct::Wake;
        }
        RouterAct::Rest
    }

    // The first possible act, in that order, behind a send outward.
    #[inline(never)]
    #[tactic(auto, unfolding(crate::specs::ActTable::next_act, crate::specs::ActTable::is_rest))]
    fn next_later(&self) -> RouterAct
        requires sent { is_possible self.now.router RouterAct.SendOut ≡ false }
        ensures first { result ≡ next_act self.now.router }
        ensures possible { may_take self.now.router result ≡ true }
    {
        if self.is_possible(RouterAct::SendIn) {
            return RouterAct::SendIn;
        }
        if self.is_possible(RouterAct::Discard) {
            return RouterAct::Discard;
        }
        if self.is_possible(RouterAct::FinishOut) {
            return RouterAct::FinishOut;
        }
        if self.is_possible(RouterAct::FinishIn) {
            return RouterAct::FinishIn;
        }
        if self.is_possible(RouterAct::Leave) {
            return RouterAct::Leave;
        }
        if self.is_possible(RouterAct::Mark) {
            return RouterAct::Mark;
        }
        if self.is_possible(RouterAct::Wake) {
            return RouterAct::Wake;
        }
        self.next_to_go()
    }

    // The first possible act of those by which a router gets out of the way, else `Rest`.
    #[tactic(auto, unfolding(crate::specs::ActTable::is_rest))]
    fn next_to_go(&self) -> RouterAct
        ensures first { result ≡ first_possible self.now.router
            (RouterAct.Claim ∷ RouterAct.Lock ∷ RouterAct.Begin ∷ RouterAct.Retire ∷ []) }
        ensures possible { (is_possible self.now.router result || is_rest result) ≡ true }
    {
        if self.is_possible(RouterAct::Claim) {
            return RouterAct::Claim;
        }
        if self.is_possible(RouterAct::Lock) {
            return RouterAct::Lock;
        }
        if self.is_possible(RouterAct::Begin) {
            return RouterAct::Begin;
        }
        if self.is_possible(RouterAct::Retire) {
            return RouterAct::Retire;
        }
        RouterAct::Rest
    }

    #[tactic(auto, unfolding(crate::specs::ActTable::is_possible, crate::specs::ActEffects::item_output, crate::specs::ActEffects::output_of))]
    fn do_send_out(&mut self) -> Applied
        requires { is_possible self.old.router RouterAct.SendOut ≡ true }
        ensures router { self.new.router ≡ pop_out self.old.router }
        ensures sent { result ≡ output_of self.old.router RouterAct.SendOut }
        ensures kind { IsOutputOf RouterAct.SendOut result }
        ensures number { IsBelowNoNumber result }
        ensures room { LeavesRoom self.old self.new 0 0 }
    {
        let (link, n) = (self.way_out(), self.out_queue.current());
        item_output(link, n, self.pop_out())
    }

    #[tactic(auto, unfolding(crate::specs::ActTable::is_possible, crate::specs::Acts::item_passes, crate::specs::ActEffects::item_output, crate::specs::ActEffects::output_of))]
    fn do_send_in(&mut self) -> Applied
        requires { is_possible self.old.router RouterAct.SendIn ≡ true }
        ensures router { self.new.router ≡ send_on self.old.router }
        ensures sent { result ≡ output_of self.old.router RouterAct.SendIn }
        ensures kind { IsOutputOf RouterAct.SendIn result }
        ensures number { IsBelowNoNumber result }
        ensures room { LeavesRoom self.old self.new 0 0 }
    {
        let (link, n) = (self.way_in(), self.in_queue.current());
        let Some(item) = self.pop_in() else {
            unreachable!()
        };
        self.gone_sent = self.gone_sent || item.is_gone();
        item_output(link, n, Some(item))
    }

    #[tactic(auto, unfolding(crate::specs::ActTable::is_possible, crate::specs::Acts::item_passes, crate::specs::ActEffects::discard_output, crate::specs::ActEffects::output_of))]
    fn discard(&mut self) -> Applied
        requires { is_possible self.old.router RouterAct.Discard ≡ true }
        ensures router { self.new.router ≡ drop_item self.old.router }
        ensures dropped { result ≡ output_of self.old.router RouterAct.Discard }
        ensures kind { IsOutputOf RouterAct.Discard result }
        ensures number { IsBelowNoNumber result }
        ensures room { LeavesRoom self.old self.new 0 0 }
    {
        let n = self.in_queue.current();
        let Some(item) = self.pop_in() else {
            unreachable!()
        };
        self.mark_dropped = self.mark_dropped || item.is_mark();
        Applied::Discarded(n, item)
    }

    #[inline(always)]
    #[tactic(auto, unfolding(crate::specs::ActTable::is_possible))]
    fn finish_out(&mut self)
        requires { is_possible self.old.router RouterAct.FinishOut ≡ true }
        ensures router { self.new.router ≡ finish_out self.old.router }
        ensures room { KeepsRoom self.old self.new }
    {
        let _finished = self
            .outward
            .finish(self.out_queue.current(), self.in_queue.reach());
    }

    #[inline(always)]
    #[tactic(auto, unfolding(crate::specs::ActTable::is_possible, ipcz_edge::specs::Edge::can_finish))]
    fn finish_in(&mut self)
        requires { is_possible self.old.router RouterAct.FinishIn ≡ true }
        ensures router { self.new.router ≡ finish_in self.old.router }
        ensures room { KeepsRoom self.old self.new }
    {
        let (sent, received) = (self.in_queue.current(), self.out_queue.reach());
        if let Some(inward) = &mut self.inward {
            let _finished = inward.finish(sent, received);
        }
    }

    #[inline(always)]
    #[tactic(auto, unfolding(crate::specs::ActEffects::begin_message, crate::specs::ActEffects::message_output, crate::specs::ActEffects::output_of))]
    pub(super) fn begin_output(&self) -> Applied
        ensures output { result ≡ output_of self.now.router RouterAct.Begin }
        ensures kind { IsOutputOf RouterAct.Begin result }
        ensures number { IsBelowNoNumber result }
    {
        let Some(inward) = &self.inward else {
            return Applied::Nothing;
        };
        let Some(inner) = inward.primary() else {
            return Applied::Nothing;
        };
        let Some(outer) = self.outward.primary() else {
            return Applied::Nothing;
        };
        let Some(fresh) = self.spare else {
            return Applied::Nothing;
        };
        let Some(old) = word_of(Some(outer)) else {
            return Applied::Nothing;
        };
        Applied::Message(
            inner.other,
            Message::BypassPeer {
                link: inner.link,
                side: inner.side.opposite(),
                old,
                target: outer.other,
                fresh,
            },
        )
    }

    #[inline(always)]
    fn begin(&mut self)
        requires { can_begin self.old.router ≡ true }
        ensures router { self.new.router ≡ begin_bypass self.old.router }
        ensures room { KeepsRoom self.old self.new }
    {
        self.outward.begin_decay();
        if let Some(inward) = &mut self.inward {
            inward.begin_decay();
        }
        self.spare = None;
        self.marked = false;
        self.tried = false;
        self.wake_owed = false;
        self.holds = false;
    }

    #[tactic(auto, using(crate::proofs::Numbers::reach_ends), unfolding(ipcz_base::specs::Links::word_of, crate::specs::ActEffects::retire_output, crate::specs::ActEffects::output_of))]
    fn retire_output(&self) -> Applied
        requires { can_retire self.now.router ≡ true }
        ensures output { result ≡ output_of self.now.router RouterAct.Retire }
        ensures kind { IsOutputOf RouterAct.Retire result }
        ensures number { IsBelowNoNumber result }
    {
        let Some(link) = self.outward.primary() else {
            unreachable!()
        };
        Applied::Sent(link, self.out_queue.reach(), Item::Gone)
    }

    #[tactic(auto, unfolding(ipcz_base::specs::Links::word_of, crate::specs::ActTable::is_possible, crate::specs::ActEffects::flush_message, crate::specs::ActEffects::message_output, crate::specs::ActEffects::output_of))]
    fn wake_output(&self) -> Applied
        requires { is_possible self.now.router RouterAct.Wake ≡ true }
        ensures output { result ≡ output_of self.now.router RouterAct.Wake }
        ensures kind { IsOutputOf RouterAct.Wake result }
        ensures number { IsBelowNoNumber result }
    {
        let Some(link) = self.outward.primary() else {
            unreachable!()
        };
        Applied::Message(
            link.other,
            Message::Flush {
                link: link.link,
                side: link.side.opposite(),
            },
        )
    }

    // Its side is marked, and the wake is owed if the other side was waiting.
    fn mark_side(&mut self, was_waiting: bool)
        ensures router { self.new.router ≡ mark_side self.old.router was_waiting }
        ensures room { KeepsRoom self.old self.new }
    {
        self.marked = true;
        self.wake_owed = was_waiting;
    }

    // The other side is woken.
    fn wake_other(&mut self)
        ensures router { self.new.router ≡ wake_other self.old.router }
        ensures room { KeepsRoom self.old self.new }
    {
        self.wake_owed = false;
    }

    // A word is claimed for the link of its bypass.
    fn claim_word(&mut self, word: u64)
        ensures router { self.new.router ≡ claim_word self.old.router word }
        ensures room { KeepsRoom self.old self.new }
    {
        self.spare = Some(word);
    }

    // The lock is not got.
    fn fail_lock(&mut self)
        ensures router { self.new.router ≡ fail_lock self.old.router }
        ensures room { KeepsRoom self.old self.new }
    {
        self.tried = true;
    }

    // The lock is given back, and the router stays flagged.
    fn drop_lock(&mut self)
        ensures router { self.new.router ≡ drop_lock self.old.router }
        ensures room { KeepsRoom self.old self.new }
    {
        self.holds = false;
        self.flagged = true;
    }

    /// Does an act that is possible, with an answer of its kind, and answers what its node is to do with it: an item to send,
    /// one that was dropped, a message, or nothing. A begin that nobody inward could be told of gives nothing.
    ///
    /// `Leave` and `Retire` change nothing here: it is for the node to take the router out, as it is when Gone is discarded.
    #[tactic(auto, unfolding(crate::specs::ActTable::is_possible, crate::specs::ActTable::is_rest, crate::specs::ActEffects::apply, crate::specs::ActEffects::output_of))]
    #[inline(always)]
    pub fn apply(&mut self, act: RouterAct, answer: Answer) -> Applied
        requires { IsAsked self.old.router act answer }
        ensures router { self.new.router ≡ apply self.old.router act answer }
        ensures output { result ≡ output_of self.old.router act }
        ensures kind { IsOutputOf act result }
        ensures number { IsBelowNoNumber result }
        ensures room { LeavesRoom self.old self.new 0 0 }
    {
        match (act, answer) {
            (RouterAct::SendOut, _) => self.do_send_out(),
            (RouterAct::SendIn, _) => self.do_send_in(),
            (RouterAct::Discard, _) => self.discard(),
            (RouterAct::FinishOut, _) => {
                self.finish_out();
                Applied::Nothing
            }
            (RouterAct::FinishIn, _) => {
                self.finish_in();
                Applied::Nothing
            }
            (RouterAct::Leave, _) => Applied::Nothing,
            (RouterAct::Mark, Answer::Marked(_, was_waiting)) => {
                self.mark_side(was_waiting);
                Applied::Nothing
            }
            (RouterAct::Wake, _) => {
                let output = self.wake_output();
                self.wake_other();
                output
            }
            (RouterAct::Claim, Answer::Claimed(word)) => {
                self.claim_word(word);
                Applied::Nothing
            }
            (RouterAct::Claim, Answer::NoWord) => {
                self.dry = true;
                Applied::Nothing
            }
            (RouterAct::Lock, Answer::Locked(_)) => {
                self.holds = true;
                Applied::Nothing
            }
            (RouterAct::Lock, Answer::Waiting(_) | Answer::Refused(_)) => {
                self.fail_lock();
                Applied::Nothing
            }
            (RouterAct::Begin, _) => {
                let output = self.begin_output();
                self.begin();
                output
            }
            (RouterAct::Retire, _) => self.retire_output(),
            (RouterAct::Unlock, _) => {
                self.drop_lock();
                Applied::Nothing
            }
            (RouterAct::Rest, _) => {
                self.flagged = false;
                Applied::Nothing
            }
            (RouterAct::Mark, _) => unreachable!(),
            (RouterAct::Claim, _) => unreachable!(),
            (RouterAct::Lock, _) => unreachable!(),
        }
    }
}

// An item over a link end, if there are both.
#[tactic(auto, unfolding(crate::specs::ActEffects::item_output))]
fn item_output(link: Option<LinkEnd>, n: u64, item: Option<Item>) -> Applied
    ensures { result ≡ item_output link n item }
{
    match (link, item) {
        (Some(link), Some(item)) => Applied::Sent(link, n, item),
        (_, _) => Applied::Nothing,
    }
}
