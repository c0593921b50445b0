//! The turns of the nodes: which act comes first, and what each act does to the world.

ghost use Rattle.std.specs.Prelude.{◌≡◌, ◌≢◌, ◌<◌, ◌&&◌, ℕ, true, length, Some, IfSome, IfNone, IfOk, IfErr, Ok, Err};
ghost use Rattle.ipcz_base.specs.Indexed.{place_at};
ghost use Rattle.ipcz_base.specs.declared.message.Message.{Message as MessageData};
ghost use Rattle.ipcz_world.specs.World.{node_at, mail_at, way};
ghost use Rattle.ipcz_node.specs.Acts.{first_destination, first_sender, has_mail_for, stand_in};
ghost use Rattle.ipcz_world.specs.declared.mail.Mail.TheVariants.{Empty};
ghost use Rattle.ipcz_world.specs.Turns.{hand_message, is_clear, seen_at, next_at, can_take, turn_event};
ghost use Rattle.ipcz_world.specs.Steps.{StepFirst};
ghost use Rattle.ipcz_world.specs.WordAnswers.{source_for};
ghost use Rattle.ipcz_world.specs.Wordless.{is_wordless};
ghost use Rattle.ipcz_world.specs.RoomyWorlds.{HasRoomToAct};
ghost use Rattle.ipcz_world.specs.Taking.{IsRegular, IsTaken, ToldTurn};

use crate::state::State;
use crate::step::{Reply, Step};
use ipcz_base::{End, Message, Refusal};
use ipcz_node::{Act, Happened, Told};
use ipcz_router::act::{Answer, RouterAct};

impl State {
    /// The number of the mailbox from one node to another.
    pub(crate) fn way(&self, from: u8, to: u8) -> usize
        requires from { from < self.now.world.count }
        requires to { to < self.now.world.count }
        ensures way { result ≡ way self.now.world from to }
        ensures within { IsRegular self.now.world → result < length self.now.world.mail }
    {
        from as usize * self.count as usize + to as usize
    }

    // The lowest node whose mailbox to this one is full.
    fn first_sender(&self, n: u8) -> Option<u8>
        requires regular { IsRegular self.now.world }
        requires node { n < self.now.world.count }
        ensures { result ≡ first_sender (node_at self.now.world n) (seen_at self.now.world n) }
    {
        if !self.mail.has_full() {
            return None;
        }
        for from in 0..self.count {
            if self.mail.is_full(self.way(from, n)) {
                return Some(from);
            }
        }
        None
    }

    // The lowest node that messages of this one wait for and whose mailbox from this one is empty.
    fn first_destination(&self, n: u8) -> Option<u8>
        requires regular { IsRegular self.now.world }
        requires node { n < self.now.world.count }
        ensures { result ≡ first_destination (node_at self.now.world n) (seen_at self.now.world n) }
    {
        if !self.nodes.node(n).has_mail() {
            return None;
        }
        for to in 0..self.count {
            if self.can_post(n, to) {
                return Some(to);
            }
        }
        None
    }

    /// Whether messages of a node wait for another and the mailbox between them is empty.
    #[tactic(auto, unfolding(crate::specs::World::node_at, crate::specs::World::mail_at))]
    pub(crate) fn can_post(&self, n: u8, to: u8) -> bool
        requires regular { IsRegular self.now.world }
        requires node { n < self.now.world.count }
        requires to { to < self.now.world.count }
        ensures { result ≡ (has_mail_for (node_at self.now.world n) to && is_clear (mail_at self.now.world (way self.now.world n to))) }
    {
        self.nodes.node(n).has_mail_for(to) && self.mail.is_clear(self.way(n, to))
    }

    /// The first possible act of a node.
    #[inline(always)]
    #[tactic(auto, using(crate::proofs::OwnTurns::idle_own), unfolding(crate::specs::Turns::next_at, crate::specs::World::node_at, ipcz_node::specs::Acts::next, ipcz_node::specs::Acts::node_turn))]
    pub(crate) fn next(&self, n: u8) -> Act
        requires regular { IsRegular self.now.world }
        requires node { n < self.now.world.count }
        ensures { result ≡ next_at self.now.world n }
    {
        let node = self.nodes.node(n);
        if let Some(sender) = node.hand() {
            return Act::Hand(sender);
        }
        if let Some(sender) = self.first_sender(n) {
            return Act::Look(sender);
        }
        if let Some(to) = self.first_destination(n) {
            return Act::Post(to);
        }
        if node.quiet() {
            return Act::Idle;
        }
        node.next_own()
    }

    /// Takes the first possible act of a node, which is given; if it finds no memory, what stands in for it. T says whether what happened is
    /// told.
    pub(crate) fn take_first<T: Told>(&mut self, n: u8, act: Act) -> Result<T, Refusal>
        requires regular { IsRegular self.old.world }
        requires node { n < self.old.world.count }
        requires first { act ≡ next_at self.old.world n }
        ensures turned { IfOk result (λ told. ToldTurn T.tells self.old.world n told self.new.world) }
        ensures refused { IfErr result (λ why. StepFirst self.old.world (Step.Turn n) (Reply.Refused why) self.new.world) }
        ensures full { HasRoomToAct self.old n act → IsTaken T.tells self.old.world n act result self.new.world × IfErr result (λ why. why ≢ Refusal.OutOfMemory) }
    {
        match self.take(n, act) {
            Ok(told) => Ok(told),
            Err(why) => self.give_up(n, why),
        }
    }

    // The first act was refused: if that is for want of memory, what stands in for it is taken. The act is looked for once more, so that a
    // turn which is taken keeps no copy of it.
    #[inline(never)]
    fn give_up<T: Told>(&mut self, n: u8, why: Refusal) -> Result<T, Refusal>
        requires regular { IsRegular self.old.world }
        requires node { n < self.old.world.count }
        requires refused { IsTaken T.tells self.old.world n (next_at self.old.world n) (Err why) self.old.world }
        ensures turned { IfOk result (λ told. ToldTurn T.tells self.old.world n told self.new.world) }
        ensures refused { IfErr result (λ why. StepFirst self.old.world (Step.Turn n) (Reply.Refused why) self.new.world) }
        ensures ended { why ≡ Refusal.NumbersEnd → (result ≡ Err why) × (self.new.world ≡ self.old.world) }
    {
        if let Refusal::NumbersEnd = why {
            return Err(Refusal::NumbersEnd);
        }
        let Some(other) = stand_in(self.next(n)) else {
            return Err(why);
        };
        match self.take::<Happened>(n, other) {
            Ok(event) => Ok(T::told(event)),
            Err(why) => Err(why),
        }
    }

    /// Takes an act that is possible, or is refused it.
    pub(crate) fn take<T: Told>(&mut self, n: u8, act: Act) -> Result<T, Refusal>
        requires regular { IsRegular self.old.world }
        requires node { n < self.old.world.count }
        requires possible { can_take self.old.world n act ≡ true }
        ensures taken { IsTaken T.tells self.old.world n act result self.new.world }
        ensures full { HasRoomToAct self.old n act → IfErr result (λ why. why ≢ Refusal.OutOfMemory) }
    {
        match act {
            Act::Hand(from) => self.handle(n, from),
            Act::Router(serial, act) => self.take_router_act(n, serial, act),
            Act::Look(from) => Ok(self.look(n, from)),
            Act::Post(to) => Ok(self.post(n, to)),
            Act::Close(end) => self.close_pending(n, end),
            Act::Idle => Ok(T::told(Happened::Idle)),
        }
    }

    // The node that may send the message, as the word of the old link names it: asked only of an AcceptBypass.
    #[tactic(auto, unfolding(crate::specs::WordAnswers::source_for, crate::specs::World::word_at))]
    fn source_for(&self, message: &Message) -> Option<u8>
        ensures { result ≡ source_for self.now.world message.now }
    {
        match message {
            Message::AcceptBypass { old, .. } => self.words.source(*old),
            Message::Item { .. }
            | Message::BypassPeer { .. }
            | Message::StopProxying { .. }
            | Message::ProxyWillStop { .. }
            | Message::Flush { .. } => None,
        }
    }

    // The same of the message in hand in a mailbox.
    fn source_in_hand(&self, place: usize) -> Option<u8>
        requires { place < length self.now.world.mail }
        ensures { (m : MessageData) → hand_message (place_at Empty self.now.world.mail place) ≡ Some m → result ≡ source_for self.now.world m }
    {
        match self.mail.in_hand(place) {
            Some(message) => self.source_for(message),
            None => None,
        }
    }

    // What is told of handling the message in hand, before it is handled.
    #[inline(always)]
    fn hand_told<T: Told>(&self, n: u8, from: u8) -> T
        requires regular { IsRegular self.now.world }
        requires node { n < self.now.world.count }
        requires possible { can_take self.now.world n (Act.Hand from) ≡ true }
        ensures { T.tells (turn_event self.now.world n (Act.Hand from)) result }
    {
        match T::nothing() {
            Some(told) => told,
            None => T::told(self.hand_event(n, from)),
        }
    }

    // What handling the message in hand is seen to do.
    fn hand_event(&self, n: u8, from: u8) -> Happened
        requires regular { IsRegular self.now.world }
        requires node { n < self.now.world.count }
        requires possible { can_take self.now.world n (Act.Hand from) ≡ true }
        ensures { result ≡ turn_event self.now.world n (Act.Hand from) }
    {
        let place = self.way(from, n);
        let Some(message) = self.mail.in_hand(place) else {
            unreachable!()
        };
        let source = self.source_for(message);
        self.nodes.node(n).hand_event(from, message, source)
    }

    // Handles the message in hand; if that finds no memory or no serials, the message stays in hand.
    fn handle<T: Told>(&mut self, n: u8, from: u8) -> Result<T, Refusal>
        requires regular { IsRegular self.old.world }
        requires node { n < self.old.world.count }
        requires possible { can_take self.old.world n (Act.Hand from) ≡ true }
        ensures taken { IsTaken T.tells self.old.world n (Act.Hand from) result self.new.world }
        ensures full { HasRoomToAct self.old n (Act.Hand from) → IfErr result (λ why. why ≢ Refusal.OutOfMemory) }
    {
        let told = self.hand_told(n, from);
        let place = self.way(from, n);
        match self.mail.hand_over(place, self.nodes.node_mut(n), from) {
            Ok(true) => Ok(told),
            Ok(false) => self.handle_any(n, from, told),
            Err(why) => Err(why),
        }
    }

    // The same for each message, of which it is known what is told.
    #[inline(never)]
    fn handle_any<T: Told>(&mut self, n: u8, from: u8, told: T) -> Result<T, Refusal>
        requires regular { IsRegular self.old.world }
        requires node { n < self.old.world.count }
        requires possible { can_take self.old.world n (Act.Hand from) ≡ true }
        requires told { T.tells (turn_event self.old.world n (Act.Hand from)) told }
        ensures taken { IsTaken T.tells self.old.world n (Act.Hand from) result self.new.world }
        ensures full { HasRoomToAct self.old n (Act.Hand from) → IfErr result (λ why. why ≢ Refusal.OutOfMemory) }
    {
        let place = self.way(from, n);
        let source = self.source_in_hand(place);
        if let Err(why) = self
            .mail
            .hand_any(place, self.nodes.node_mut(n), from, source)
        {
            return Err(why);
        }
        Ok(told)
    }

    // Takes the message of a full mailbox into the hand.
    fn look<T: Told>(&mut self, n: u8, from: u8) -> T
        requires regular { IsRegular self.old.world }
        requires node { n < self.old.world.count }
        requires possible { can_take self.old.world n (Act.Look from) ≡ true }
        ensures { IsTaken T.tells self.old.world n (Act.Look from) (Ok result) self.new.world }
    {
        let place = self.way(from, n);
        self.nodes.node_mut(n).look(from);
        self.mail.take_up(place);
        T::told(Happened::Look(from))
    }

    // Posts the first message for a node into its empty mailbox.
    #[inline(always)]
    fn post<T: Told>(&mut self, n: u8, to: u8) -> T
        requires regular { IsRegular self.old.world }
        requires node { n < self.old.world.count }
        requires possible { can_take self.old.world n (Act.Post to) ≡ true }
        ensures { IsTaken T.tells self.old.world n (Act.Post to) (Ok result) self.new.world }
    {
        let place = self.way(n, to);
        let message = self.nodes.node_mut(n).post(to);
        self.mail.post(place, message);
        T::told(Happened::Post(to))
    }

    // Closes an end that travelled in a parcel which a sink has dropped.
    #[inline(never)]
    fn close_pending<T: Told>(&mut self, n: u8, end: End) -> Result<T, Refusal>
        requires regular { IsRegular self.old.world }
        requires node { n < self.old.world.count }
        requires possible { can_take self.old.world n (Act.Close end) ≡ true }
        ensures taken { IsTaken T.tells self.old.world n (Act.Close end) result self.new.world }
        ensures full { HasRoomToAct self.old n (Act.Close end) → IfErr result (λ why. why ≢ Refusal.OutOfMemory) }
    {
        let node = self.nodes.node_mut(n);
        if let Err(why) = node.prepare(&Act::Close(end)) {
            return Err(why);
        }
        let (event, _) = node.commit(Act::Close(end), Answer::Plain);
        Ok(T::told(event))
    }

    // Lets a router do an act.
    fn take_router_act<T: Told>(&mut self, n: u8, serial: u64, act: RouterAct) -> Result<T, Refusal>
        requires regular { IsRegular self.old.world }
        requires node { n < self.old.world.count }
        requires possible { can_take self.old.world n (Act.Router serial act) ≡ true }
        ensures taken { IsTaken T.tells self.old.world n (Act.Router serial act) result self.new.world }
        ensures full { HasRoomToAct self.old n (Act.Router serial act) → IfErr result (λ why. why ≢ Refusal.OutOfMemory) }
    {
        if is_wordless(act) {
            self.take_plain_act(n, serial, act)
        } else {
            self.take_word_act(n, serial, act)
        }
    }

    // The same of an act that touches no word.
    fn take_plain_act<T: Told>(&mut self, n: u8, serial: u64, act: RouterAct) -> Result<T, Refusal>
        requires regular { IsRegular self.old.world }
        requires node { n < self.old.world.count }
        requires possible { can_take self.old.world n (Act.Router serial act) ≡ true }
        requires wordless { is_wordless act ≡ true }
        ensures taken { IsTaken T.tells self.old.world n (Act.Router serial act) result self.new.world }
        ensures full { HasRoomToAct self.old n (Act.Router serial act) → IfErr result (λ why. why ≢ Refusal.OutOfMemory) }
    {
        self.nodes.node_mut(n).act_plainly(serial, act)
    }

    // The same of each act, with what the link words answer to it.
    #[inline(never)]
    fn take_word_act<T: Told>(&mut self, n: u8, serial: u64, act: RouterAct) -> Result<T, Refusal>
        requires regular { IsRegular self.old.world }
        requires node { n < self.old.world.count }
        requires possible { can_take self.old.world n (Act.Router serial act) ≡ true }
        ensures taken { IsTaken T.tells self.old.world n (Act.Router serial act) result self.new.world }
        ensures full { HasRoomToAct self.old n (Act.Router serial act) → IfErr result (λ why. why ≢ Refusal.OutOfMemory) }
    {
        let node = self.nodes.node_mut(n);
        if let Err(why) = node.prepare(&Act::Router(serial, act)) {
            return Err(why);
        }
        let answer = self
            .words
            .answer(node.source_of(serial), act, node.word_of(serial));
        Ok(T::commit(node, serial, act, answer))
    }
}

// Whether an act touches no link word.
fn is_wordless(act: RouterAct) -> bool
    ensures { result ≡ is_wordless act }
{
    !matches!(
        act,
        RouterAct::Mark | RouterAct::Wake | RouterAct::Claim | RouterAct::Lock | RouterAct::Unlock
    )
}

// The act that stands in for one which found no memory, if there is another: an unlock for a begin or a retire.
#[tactic(auto, unfolding(ipcz_node::specs::Acts::stand_in))]
fn stand_in(act: Act) -> Option<Act>
    ensures other { IfSome result (λ other. other ≡ stand_in act) }
    ensures none { IfNone result (act ≡ stand_in act) }
{
    match act {
        Act::Router(serial, act) => match other_act(act) {
            Some(other) => Some(Act::Router(serial, other)),
            None => None,
        },
        Act::Hand(_) | Act::Look(_) | Act::Post(_) | Act::Close(_) | Act::Idle => None,
    }
}

// The act of a router that stands in for one which found no memory.
#[tactic(auto, unfolding(ipcz_node::specs::Acts::stand_in))]
fn other_act(act: RouterAct) -> Option<RouterAct>
    ensures other { IfSome result (λ other. (serial : ℕ) → Act.Router serial other ≡ stand_in (Act.Router serial act)) }
    ensures none { IfNone result ((serial : ℕ) → Act.Router serial act ≡ stand_in (Act.Router serial act)) }
{
    match act {
        RouterAct::Begin | RouterAct::Retire => Some(RouterAct::Unlock),
        _ => None,
    }
}
