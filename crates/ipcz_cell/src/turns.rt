//! The turns of a cell.
ghost use Rattle.std.specs.Prelude.{◌≡◌, ◌≤◌, ◌<◌, ◌⊎◌, ℕ, true, false, None, Some, Ok};
ghost use Rattle.ipcz_base.specs.declared.side.Side.{Side as SideValue};
ghost use Rattle.ipcz_node.specs.RoomyNodes.{IsPossibleAct};
ghost use Rattle.ipcz_cell.specs.Mails.{IsTold};
ghost use Rattle.ipcz_cell.specs.Turns.{Chooses, FindsFull, CanPost, FindsEmpty, IsInside};
ghost use Rattle.ipcz_cell.specs.TurnEnds.{try_event, Acts, Turns};
ghost use Rattle.ipcz_node.specs.Acts.{close_turn, has_mail_for, router_turn};
ghost use Rattle.ipcz_node.specs.Node.{flagged_router, word_side};

use crate::bells::{Ringer, Waking};
use crate::cell::NodeCell;
use crate::fabric::{Fabric, FabricName};
use crate::inbox::inbox_place;
use crate::letting::GivenUp;
use crate::mail::{mail_place, tell};
use crate::words::LockTry;
use ipcz_base::{End, LinkId, Refusal};
use ipcz_node::{Act, Happened, Told, next_set};
use ipcz_router::act::RouterAct;
use ipcz_word::LockPlan;

impl<F: FabricName> NodeCell<F> {
    // The lowest node of whose batch something is left, or whose mailbox to this one is found full. The inbox is loaded, and then the mailboxes of those whose bits are set there, in
    // order, up to that one. The table's numbers are read once, not again after each load.
    fn first_full(&mut self, fabric: &Fabric<F>) -> Option<u8>
        requires { self.old.part.state.hand ≡ None }
        ensures { FindsFull F.table self.old result self.new }
    {
        let node = self.node();
        let nodes = fabric.nodes;
        let slots = fabric.slots;
        let batch = self.held.lowest();
        let end = batch.unwrap_or(nodes);
        let inbox = self.load_at(fabric, slots, inbox_place::<F>(node));
        let mut from = next_set(inbox, 0);
        for looked in 0..nodes {
            let _looked = looked;
            if from >= end {
                return batch;
            }
            let place = mail_place::<F>(nodes, from, node);
            if self.load_at(fabric, slots, place) == 1 {
                return Some(from);
            }
            from = next_set(inbox, from + 1);
        }
        batch
    }

    // The lowest node from one on that messages wait for, below 64, or 64.
    #[inline(always)]
    fn next_with_mail(&self, from: u8) -> u8
        requires { from ≤ 64 }
        ensures from { from ≤ result }
        ensures most { result ≤ 64 }
        ensures none { (n : ℕ) → from ≤ n → n < result → has_mail_for self.now.part.state n ≡ false }
        ensures there { result < 64 → has_mail_for self.now.part.state result ≡ true }
    {
        self.state.next_with_mail(from)
    }

    // Whether the mailbox to a node that messages wait for is this node's already, or is found empty.
    fn can_post(&mut self, fabric: &Fabric<F>, to: u8) -> bool
        requires inside { to < F.table.count }
        requires mail { has_mail_for self.old.part.state to ≡ true }
        ensures { CanPost F.table to self.old result self.new }
    {
        if self.probed.has(to) {
            return true;
        }
        let node = self.node();
        self.load_mail(fabric, node, to) == 0
    }

    // The lowest node that messages wait for and whose mailbox is this node's already, or is found empty. The mailboxes to those that messages wait for
    // are loaded in order, up to that one.
    fn first_empty(&mut self, fabric: &Fabric<F>) -> Option<u8>
        ensures { FindsEmpty F.table self.old result self.new }
    {
        let nodes = fabric.nodes;
        let mut to = self.next_with_mail(0);
        for tried in 0..nodes {
            let _tried = tried;
            if to >= nodes {
                return None;
            }
            if self.can_post(fabric, to) {
                return Some(to);
            }
            to = self.next_with_mail(to + 1);
        }
        None
    }

    // The sender of the message in hand, if there is one.
    fn hand(&self) -> Option<u8>
        ensures { result ≡ self.now.part.state.hand }
    {
        self.state.hand()
    }

    // The first possible act of a node that has no message in hand and sees no mailbox.
    #[inline(always)]
    fn next_else(&self) -> Act
        ensures act { result ≡ close_turn self.now.part.state.pending (router_turn (flagged_router self.now.part.state)) }
        ensures possible { IsPossibleAct self.now.part.state result }
    {
        self.state.next_own()
    }

    /// The act that a turn would take, for the mailboxes as it finds them: the first of those in docs/PROTOCOL.md, "Turns". A mailbox that
    /// was probed counts as empty. It takes no memory.
    ///
    /// It is never refused.
    ///
    /// In a table at its start `cell.act(&fabric)` is `Act::Idle`.
    #[inline(always)]
    pub fn act(&mut self, fabric: &Fabric<F>) -> Act
        ensures first { Chooses F.table self.old result self.new }
        ensures possible { IsPossibleAct self.old.part.state result }
    {
        if let Some(from) = self.hand() {
            return Act::Hand(from);
        }
        if let Some(from) = self.first_full(fabric) {
            return Act::Look(from);
        }
        if let Some(to) = self.first_empty(fabric) {
            return Act::Post(to);
        }
        self.next_else()
    }
}

// What a try for the lock is seen to do.
fn try_event(serial: u64, tried: LockTry) -> Happened
    ensures { result ≡ try_event serial tried.word tried.found tried.plan }
{
    let link = LinkId::Central(tried.word);
    match tried.plan {
        LockPlan::Lock(new) => Happened::Lock(serial, link, new),
        LockPlan::Wait(new) => Happened::Wait(serial, link, new),
        LockPlan::Refused => Happened::Refused(serial, link, tried.found),
    }
}

impl<F: FabricName> NodeCell<F> {
    // The link of a router's word, for its events.
    fn word_link(&self, serial: u64) -> LinkId
        ensures { (word : ℕ) → (side : SideValue) → word_side self.now.part.state serial ≡ Some (word, side) →
            result ≡ LinkId.Central word }
    {
        match self.state.word_of(serial) {
            Some((word, _)) => LinkId::Central(word),
            None => LinkId::Central(0),
        }
    }

    // Looks into the mailbox of a node.
    #[inline(always)]
    fn look_turn<T: Told>(&mut self, fabric: &Fabric<F>, from: u8) -> Result<T, Refusal>
        requires inside { from < F.table.count }
        requires idle { self.old.part.state.hand ≡ None }
        ensures { IsTold T.tells (λ done. Acts F.table (Act.Look from) self.old done self.new) result }
    {
        if self.mail_look(fabric, from) {
            Ok(T::told(Happened::Look(from)))
        } else {
            Err(Refusal::Raced)
        }
    }

    // Posts what waits for a node, whose mailbox it takes first if it hasn't got it.
    #[inline(always)]
    fn post_turn<T: Told, R: Ringer>(&mut self, fabric: &Fabric<F>, to: u8) -> Result<T, Refusal>
        requires inside { to < F.table.count }
        requires mail { has_mail_for self.old.part.state to ≡ true }
        ensures { IsTold T.tells (λ done. Acts F.table (Act.Post to) self.old done self.new) result }
    {
        if !self.mail_probe(fabric, to) {
            return Err(Refusal::Raced);
        }
        self.post_by::<R>(fabric, to);
        Ok(T::told(Happened::Post(to)))
    }

    // Closes an end that travelled in a parcel which a sink has dropped.
    fn close_turn(&mut self, fabric: &Fabric<F>, end: End) -> Result<Happened, Refusal>
        requires { IsPossibleAct self.old.part.state (Act.Close end) }
        ensures { Acts F.table (Act.Close end) self.old result self.new }
    {
        self.prepare(&Act::Close(end))?;
        Ok(self.touch_act(fabric, Act::Close(end)))
    }

    // A router's side becomes stable.
    fn mark_turn(&mut self, fabric: &Fabric<F>, serial: u64) -> Happened
        requires { IsPossibleAct self.old.part.state (Act.Router serial RouterAct.Mark) }
        ensures { Acts F.table (Act.Router serial RouterAct.Mark) self.old (Ok result) self.new }
    {
        let link = self.word_link(serial);
        Happened::Mark(serial, link, self.word_mark(fabric, serial))
    }

    // A router gives its lock back.
    fn unlock_turn(&mut self, fabric: &Fabric<F>, serial: u64) -> Happened
        requires { IsPossibleAct self.old.part.state (Act.Router serial RouterAct.Unlock) }
        ensures { Acts F.table (Act.Router serial RouterAct.Unlock) self.old (Ok result) self.new }
    {
        let link = self.word_link(serial);
        Happened::Unlock(serial, link, self.word_unlock(fabric, serial))
    }

    // A router wakes the one across, for which it sends a Flush.
    fn wake_turn(&mut self, fabric: &Fabric<F>, serial: u64) -> Result<Happened, Refusal>
        requires { IsPossibleAct self.old.part.state (Act.Router serial RouterAct.Wake) }
        ensures { Acts F.table (Act.Router serial RouterAct.Wake) self.old result self.new }
    {
        self.prepare(&Act::Router(serial, RouterAct::Wake))?;
        let link = self.word_link(serial);
        Ok(Happened::Wake(serial, link, self.word_take_waiting(fabric, serial)))
    }

    // A router tries for the lock.
    fn lock_turn(&mut self, fabric: &Fabric<F>, serial: u64) -> Result<Happened, Refusal>
        requires { IsPossibleAct self.old.part.state (Act.Router serial RouterAct.Lock) }
        ensures { Acts F.table (Act.Router serial RouterAct.Lock) self.old result self.new }
    {
        let tried = self.lock_word(fabric, serial)?;
        Ok(try_event(serial, tried))
    }

    // A proxy claims a word.
    fn claim_turn(&mut self, fabric: &Fabric<F>, serial: u64) -> Result<Happened, Refusal>
        requires { IsPossibleAct self.old.part.state (Act.Router serial RouterAct.Claim) }
        ensures { Acts F.table (Act.Router serial RouterAct.Claim) self.old result self.new }
    {
        match self.word_claim_for(fabric, serial) {
            Ok(word) => Ok(Happened::Claim(serial, word)),
            Err(Refusal::NoWord) => Ok(Happened::ClaimNoWord(serial)),
            Err(why) => Err(why),
        }
    }

    // A proxy begins its bypass or a sink retires, each under its lock; or it gives its lock back if no memory is found for that.
    fn held_turn(
        &mut self,
        fabric: &Fabric<F>,
        serial: u64,
        act: RouterAct,
    ) -> Result<Happened, Refusal>
        requires held { (act ≡ RouterAct.Begin) ⊎ (act ≡ RouterAct.Retire) }
        requires possible { IsPossibleAct self.old.part.state (Act.Router serial act) }
        ensures { Acts F.table (Act.Router serial act) self.old result self.new }
    {
        let held = Act::Router(serial, act);
        match self.prepare(&held) {
            Ok(()) => Ok(self.touch_act(fabric, held)),
            Err(Refusal::OutOfMemory) => Ok(self.unlock_turn(fabric, serial)),
            Err(why) => Err(why),
        }
    }

    // An act of a router on the word of its link or under its lock, or one that may give an end of it up.
    #[inline(never)]
    fn word_turn(
        &mut self,
        fabric: &Fabric<F>,
        serial: u64,
        act: RouterAct,
    ) -> Result<Happened, Refusal>
        requires { IsPossibleAct self.old.part.state (Act.Router serial act) }
        ensures { Acts F.table (Act.Router serial act) self.old result self.new }
    {
        match act {
            RouterAct::Mark => Ok(self.mark_turn(fabric, serial)),
            RouterAct::Unlock => Ok(self.unlock_turn(fabric, serial)),
            RouterAct::Wake => self.wake_turn(fabric, serial),
            RouterAct::Lock => self.lock_turn(fabric, serial),
            RouterAct::Claim => self.claim_turn(fabric, serial),
            RouterAct::Begin | RouterAct::Retire => self.held_turn(fabric, serial, act),
            _ => self.act_plainly(fabric, serial, act),
        }
    }

    // An act of a router. The acts of most parcels touch no word and give nothing up.
    #[inline(always)]
    fn router_turn<T: Told>(
        &mut self,
        fabric: &Fabric<F>,
        serial: u64,
        act: RouterAct,
    ) -> Result<T, Refusal>
        requires { IsPossibleAct self.old.part.state (Act.Router serial act) }
        ensures { IsTold T.tells (λ done. Acts F.table (Act.Router serial act) self.old done self.new) result }
    {
        match act {
            RouterAct::Mark
            | RouterAct::Unlock
            | RouterAct::Wake
            | RouterAct::Lock
            | RouterAct::Claim
            | RouterAct::Begin
            | RouterAct::Retire
            | RouterAct::Discard
            | RouterAct::FinishOut
            | RouterAct::Leave => tell(self.word_turn(fabric, serial, act)),
            _ => self.act_giving(fabric, serial, act, GivenUp::Nothing),
        }
    }

    // Takes an act that is possible, and rings as R does. T says whether what happened is told.
    #[inline(always)]
    pub(crate) fn take<T: Told, R: Ringer>(
        &mut self,
        fabric: &Fabric<F>,
        act: Act,
    ) -> Result<T, Refusal>
        requires inside { IsInside F.table act }
        requires possible { IsPossibleAct self.old.part.state act }
        ensures { IsTold T.tells (λ done. Acts F.table act self.old done self.new) result }
    {
        match act {
            Act::Hand(from) => self.handle_as::<T, R>(fabric, from),
            Act::Look(from) => self.look_turn(fabric, from),
            Act::Post(to) => self.post_turn::<T, R>(fabric, to),
            Act::Close(end) => tell(self.close_turn(fabric, end)),
            Act::Router(serial, act) => self.router_turn(fabric, serial, act),
            Act::Idle => Ok(T::told(Happened::Idle)),
        }
    }

    /// Takes one turn: the first act that is possible for the mailboxes as it finds them, as `act` answers it, is done whole, and what it
    /// did is told.
    ///
    /// It is refused `NumbersEnd` if the act wants more serials than are left, `OutOfMemory` if there is no room for what it wants and
    /// none is found, and `Raced` if another thread came between the load of a word and its exchange: then the turn may be taken again.
    /// A begin or a retire for which there is no room and none is found is done as an unlock. A refused turn changes nothing. A claim that
    /// finds no word is an act done.
    ///
    /// In a table at its start `cell.turn(&fabric)` is `Ok(Happened::Idle)`.
    pub fn turn(&mut self, fabric: &Fabric<F>) -> Result<Happened, Refusal>
        ensures { Turns F.table self.old result self.new }
    {
        let act = self.act(fabric);
        self.take::<Happened, Waking>(fabric, act)
    }
}
