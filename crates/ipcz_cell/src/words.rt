//! The link words of a cell.
ghost use Rattle.ipcz_cell.specs.Seats.{mine_of, SlotsStay};
ghost use Rattle.std.specs.Prelude.{◌≡◌, ◌<◌, ◌-◌, true, false, [], ◌∷◌, Some, None};
ghost use Rattle.ipcz_word.specs.Layout.{word_of_bits, bits_of, stable_bit, waiting_bit, locked_bit};
ghost use Rattle.ipcz_base.specs.Sides.{opposite};
ghost use Rattle.ipcz_node.specs.RoomyNodes.{IsPossibleAct, IsReadyFor};
ghost use Rattle.ipcz_node.specs.Acts.{act_lacks_serials, commit};
ghost use Rattle.ipcz_node.specs.Preparing.{act_grows};
ghost use Rattle.ipcz_node.specs.Node.{word_side, source_in};
ghost use Rattle.ipcz_router.specs.ActEffects.{IsAnswerOf};
ghost use Rattle.ipcz_rule.specs.Steps.{is_on_word};
ghost use Rattle.ipcz_world.specs.WordAnswers.{word_after};
ghost use Rattle.ipcz_cell.specs.CellStates.{part_in, roomy};
ghost use Rattle.ipcz_cell.specs.Cells.{AreSound};
ghost use Rattle.ipcz_cell.specs.Outcomes.{IsPicked, worded, is_refused_at, always};
ghost use Rattle.ipcz_cell.specs.Words.{CanWord, TriesLock, LocksWord, ActsOnWord, is_refused_plan};
ghost use Rattle.std.specs.Prelude.{eqb};

use crate::cell::NodeCell;
use crate::fabric::{Fabric, FabricName};
use crate::plays::{Outcome, exchange_link, keep_link, load_link, set_link};
use crate::seat::TableSeat;
use ipcz_base::{Refusal, Side};
use ipcz_node::{Act, NodeState};
use ipcz_router::act::{Answer, RouterAct};
use ipcz_word::{LockPlan, try_lock};
use ipcz_world::answer_act;
use std::marker::Brand;

// A load of a link's word by a router that wants its lock, which would name the source. X is what it tells.
fn status_here<F: FabricName, X: Outcome>(
    seat: &mut TableSeat,
    fabric: &Fabric<F>,
    i: u64,
    serial: u64,
    side: Side,
    source: Option<u8>,
) -> u64
    requires picked { IsPicked X.tells (worded i serial side source RouterAct.Lock (is_refused_at side)) }
    requires own { seat.old.table_id ≡ F.table.id }
    requires whole { seat.old.me.0.view.parts ≡ part_in seat.old.me.0.view ∷ [] }
    requires can { CanWord (part_in seat.old.me.0.view).state serial side RouterAct.Lock i }
    requires named { source ≡ source_in (part_in seat.old.me.0.view).state serial }
    requires inside { i < F.table.size }
    ensures table { seat.new.table_id ≡ seat.old.table_id }
    ensures done { worded i serial side source RouterAct.Lock (is_refused_at side) (mine_of seat.old.me) result (mine_of seat.new.me) }
    ensures sound { AreSound F.table.count F.table.size seat.new.me.0.view }
    ensures slots { SlotsStay seat.old.me seat.new.me }
{
    let (_nodes, _source) = (fabric.nodes, source);
    load_link::<F, X>(seat, fabric, i)
}

// An exchange of a link's word for the word after a try for its lock, which names the source. X is what it tells.
fn lock_here<F: FabricName, X: Outcome>(
    seat: &mut TableSeat,
    fabric: &Fabric<F>,
    i: u64,
    serial: u64,
    side: Side,
    source: Option<u8>,
    found: u64,
    new: u64,
) -> u64
    requires picked { IsPicked X.tells (worded i serial side source RouterAct.Lock (λ n. eqb n found)) }
    requires own { seat.old.table_id ≡ F.table.id }
    requires whole { seat.old.me.0.view.parts ≡ part_in seat.old.me.0.view ∷ [] }
    requires can { CanWord (part_in seat.old.me.0.view).state serial side RouterAct.Lock i }
    requires named { source ≡ source_in (part_in seat.old.me.0.view).state serial }
    requires inside { i < F.table.size }
    requires new { bits_of (word_after (word_of_bits found) side source RouterAct.Lock) ≡ new }
    ensures table { seat.new.table_id ≡ seat.old.table_id }
    ensures done { worded i serial side source RouterAct.Lock (λ n. eqb n found) (mine_of seat.old.me) result (mine_of seat.new.me) }
    ensures sound { AreSound F.table.count F.table.size seat.new.me.0.view }
    ensures slots { SlotsStay seat.old.me seat.new.me }
{
    let (_nodes, _source) = (fabric.nodes, source);
    exchange_link::<F, X>(seat, fabric, i, found, new)
}

// Sets the bit that says that the side is stable. X is what it tells.
fn mark_here<F: FabricName, X: Outcome>(
    seat: &mut TableSeat,
    fabric: &Fabric<F>,
    i: u64,
    serial: u64,
    side: Side,
) -> u64
    requires picked { IsPicked X.tells (worded i serial side None RouterAct.Mark always) }
    requires own { seat.old.table_id ≡ F.table.id }
    requires whole { seat.old.me.0.view.parts ≡ part_in seat.old.me.0.view ∷ [] }
    requires can { CanWord (part_in seat.old.me.0.view).state serial side RouterAct.Mark i }
    requires inside { i < F.table.size }
    ensures table { seat.new.table_id ≡ seat.old.table_id }
    ensures done { worded i serial side None RouterAct.Mark always (mine_of seat.old.me) result (mine_of seat.new.me) }
    ensures sound { AreSound F.table.count F.table.size seat.new.me.0.view }
    ensures slots { SlotsStay seat.old.me seat.new.me }
{
    let _nodes = fabric.nodes;
    let bit = stable_bit(side);
    set_link::<F, X>(seat, fabric, i, bit)
}

// Clears the bit that says that the side holds the lock, and the bits of the source. X is what it tells.
fn unlock_here<F: FabricName, X: Outcome>(
    seat: &mut TableSeat,
    fabric: &Fabric<F>,
    i: u64,
    serial: u64,
    side: Side,
) -> u64
    requires picked { IsPicked X.tells (worded i serial side None RouterAct.Unlock always) }
    requires own { seat.old.table_id ≡ F.table.id }
    requires whole { seat.old.me.0.view.parts ≡ part_in seat.old.me.0.view ∷ [] }
    requires can { CanWord (part_in seat.old.me.0.view).state serial side RouterAct.Unlock i }
    requires inside { i < F.table.size }
    ensures table { seat.new.table_id ≡ seat.old.table_id }
    ensures done { worded i serial side None RouterAct.Unlock always (mine_of seat.old.me) result (mine_of seat.new.me) }
    ensures sound { AreSound F.table.count F.table.size seat.new.me.0.view }
    ensures slots { SlotsStay seat.old.me seat.new.me }
{
    let _nodes = fabric.nodes;
    let kept = unlock_mask(side);
    keep_link::<F, X>(seat, fabric, i, kept)
}

// Clears the bit that says that the other side waits. X is what it tells.
fn wake_here<F: FabricName, X: Outcome>(
    seat: &mut TableSeat,
    fabric: &Fabric<F>,
    i: u64,
    serial: u64,
    side: Side,
) -> u64
    requires picked { IsPicked X.tells (worded i serial side None RouterAct.Wake always) }
    requires own { seat.old.table_id ≡ F.table.id }
    requires whole { seat.old.me.0.view.parts ≡ part_in seat.old.me.0.view ∷ [] }
    requires can { CanWord (part_in seat.old.me.0.view).state serial side RouterAct.Wake i }
    requires inside { i < F.table.size }
    ensures table { seat.new.table_id ≡ seat.old.table_id }
    ensures done { worded i serial side None RouterAct.Wake always (mine_of seat.old.me) result (mine_of seat.new.me) }
    ensures sound { AreSound F.table.count F.table.size seat.new.me.0.view }
    ensures slots { SlotsStay seat.old.me seat.new.me }
{
    let _nodes = fabric.nodes;
    let kept = wake_mask(side);
    keep_link::<F, X>(seat, fabric, i, kept)
}

// All bits but the one that says that the other side waits.
fn wake_mask(side: Side) -> u64
    ensures { result ≡ 18446744073709551615 - waiting_bit (opposite side) }
{
    match side {
        Side::A => 18446744073709551607,
        Side::B => 18446744073709551611,
    }
}

// The word and the side of a router's outward primary link, for an act on it that is ready.
fn word_named(state: &NodeState, serial: u64, act: RouterAct) -> (u64, Side)
    requires possible { IsPossibleAct state.now.node (Act.Router serial act) }
    requires on_word { is_on_word act ≡ true }
    requires serials { act_lacks_serials state.now.node (Act.Router serial act) ≡ false }
    ensures named { word_side state.now.node serial ≡ Some (result.0, result.1) }
    ensures can { CanWord state.now.node serial result.1 act result.0 }
{
    let _act = act;
    let Some((i, side)) = state.word_of(serial) else {
        unreachable!()
    };
    (i, side)
}

fn stable_bit(side: Side) -> u64
    ensures { result ≡ stable_bit side }
{
    match side {
        Side::A => 1,
        Side::B => 2,
    }
}

// All bits but the one that says that the side holds the lock, and bits 8 to 15, where the source stands.
fn unlock_mask(side: Side) -> u64
    ensures { result ≡ 18446744073709486335 - locked_bit side }
{
    match side {
        Side::A => 18446744073709486319,
        Side::B => 18446744073709486303,
    }
}

// The word and the side of a router's outward primary link, for an act on it, which is made ready.
fn word_here(state: &mut NodeState, serial: u64, act: RouterAct) -> (u64, Side)
    requires possible { IsPossibleAct state.old.node (Act.Router serial act) }
    requires on_word { is_on_word act ≡ true }
    requires grows { act_grows state.old.node (Act.Router serial act) ≡ false }
    ensures node { state.new.node ≡ state.old.node }
    ensures ready { IsReadyFor state.new (Act.Router serial act) }
    ensures named { word_side state.old.node serial ≡ Some (result.0, result.1) }
    ensures can { CanWord state.old.node serial result.1 act result.0 }
{
    let Ok(()) = state.prepare(&Act::Router(serial, act)) else {
        unreachable!()
    };
    let Some((i, side)) = state.word_of(serial) else {
        unreachable!()
    };
    (i, side)
}

// Whether a plan is that the lock is refused.
fn is_refused(plan: LockPlan) -> bool
    ensures { result ≡ is_refused_plan plan }
{
    match plan {
        LockPlan::Refused => true,
        LockPlan::Lock(_) | LockPlan::Wait(_) => false,
    }
}

// The node does its part of an act on a word.
pub(crate) fn commit_word(state: &mut NodeState, serial: u64, act: RouterAct, answer: Answer)
    requires possible { IsPossibleAct state.old.node (Act.Router serial act) }
    requires answer { IsAnswerOf act answer }
    requires ready { IsReadyFor state.old (Act.Router serial act) }
    ensures { state.new.node ≡ commit state.old.node (Act.Router serial act) answer }
{
    let _done = state.commit(Act::Router(serial, act), answer);
}

/// A try for the lock: the plan by what the load has found, and of which word.
#[derive(Clone, Copy)]
pub(crate) struct LockTry {
    pub(crate) plan: LockPlan,
    pub(crate) word: u64,
    pub(crate) found: u64,
}

impl<F: FabricName> NodeCell<F> {
    // Tries for the lock of the word of a router's outward primary link, and tells which word that is and what the load found. The lock
    // names the node inward of the router.
    pub(crate) fn lock_word(&mut self, fabric: &Fabric<F>, serial: u64) -> Result<LockTry, Refusal>
        requires { IsPossibleAct self.old.part.state (Act.Router serial RouterAct.Lock) }
        ensures { LocksWord F.table.size serial self.old result self.new }
    {
        let (word, side) = word_here(&mut self.state, serial, RouterAct::Lock);
        let source = self.state.source_of(serial);
        let found = status_here::<F, Brand>(&mut self.seat, fabric, word, serial, side, source);
        let answered = answer_act(found, side, source, RouterAct::Lock);
        let plan = try_lock(found, side, source);
        let refused = is_refused(plan);
        if refused {
            commit_word(&mut self.state, serial, RouterAct::Lock, answered.answer);
            return Ok(LockTry { plan, word, found });
        }
        let now = lock_here::<F, Brand>(
            &mut self.seat,
            fabric,
            word,
            serial,
            side,
            source,
            found,
            answered.word,
        );
        if now != found {
            return Err(Refusal::Raced);
        }
        commit_word(&mut self.state, serial, RouterAct::Lock, answered.answer);
        Ok(LockTry { plan, word, found })
    }

    /// Tries for the lock of the word of a router's outward primary link: one load, and one exchange unless the load found that the lock is
    /// refused. The lock names the node inward of the router: its AcceptBypass is taken only from there. It answers `Raced` only
    /// if the exchange found another word than the load; then nothing but what was seen has changed. It takes no memory.
    ///
    /// Where the word is 3, stable at both sides and free, it answers a `LockPlan::Lock`.
    pub fn word_try_lock(&mut self, fabric: &Fabric<F>, serial: u64) -> Result<LockPlan, Refusal>
        requires { IsPossibleAct self.old.part.state (Act.Router serial RouterAct.Lock) }
        ensures { TriesLock F.table.size serial self.old result self.new }
    {
        let tried = self.lock_word(fabric, serial)?;
        Ok(tried.plan)
    }

    /// Marks a router's side of the word of its outward primary link stable, and answers the word after. It takes no memory.
    ///
    /// It is never refused.
    ///
    /// Where the word is 0, the mark of side A answers 1.
    pub fn word_mark(&mut self, fabric: &Fabric<F>, serial: u64) -> u64
        requires { IsPossibleAct self.old.part.state (Act.Router serial RouterAct.Mark) }
        ensures { ActsOnWord serial RouterAct.Mark self.old result self.new }
    {
        let (i, side) = word_here(&mut self.state, serial, RouterAct::Mark);
        let found = mark_here::<F, Brand>(&mut self.seat, fabric, i, serial, side);
        let answered = answer_act(found, side, None, RouterAct::Mark);
        commit_word(&mut self.state, serial, RouterAct::Mark, answered.answer);
        answered.word
    }

    /// Gives back the lock of the word of a router's outward primary link, which then names no source, and answers the word after. It takes
    /// no memory.
    ///
    /// It is never refused. Of a word that is stable at both sides and has nobody waiting it answers 3.
    pub fn word_unlock(&mut self, fabric: &Fabric<F>, serial: u64) -> u64
        requires { IsPossibleAct self.old.part.state (Act.Router serial RouterAct.Unlock) }
        ensures { ActsOnWord serial RouterAct.Unlock self.old result self.new }
    {
        let (i, side) = word_here(&mut self.state, serial, RouterAct::Unlock);
        let found = unlock_here::<F, Brand>(&mut self.seat, fabric, i, serial, side);
        let answered = answer_act(found, side, None, RouterAct::Unlock);
        commit_word(&mut self.state, serial, RouterAct::Unlock, answered.answer);
        answered.word
    }

    /// Takes away the waiting bit of the side across a router's outward primary link, for which `prepare` made room, and answers the word
    /// after. It takes no memory.
    ///
    /// It is never refused. Of a word that is stable at both sides and free, with the side across waiting, it answers 3.
    pub fn word_take_waiting(&mut self, fabric: &Fabric<F>, serial: u64) -> u64
        requires possible { IsPossibleAct self.old.part.state (Act.Router serial RouterAct.Wake) }
        requires serials { act_lacks_serials self.old.part.state (Act.Router serial RouterAct.Wake) ≡ false }
        requires ready { IsReadyFor (roomy self.old) (Act.Router serial RouterAct.Wake) }
        ensures { ActsOnWord serial RouterAct.Wake self.old result self.new }
    {
        let (i, side) = word_named(&self.state, serial, RouterAct::Wake);
        let found = wake_here::<F, Brand>(&mut self.seat, fabric, i, serial, side);
        let answered = answer_act(found, side, None, RouterAct::Wake);
        commit_word(&mut self.state, serial, RouterAct::Wake, answered.answer);
        answered.word
    }
}
