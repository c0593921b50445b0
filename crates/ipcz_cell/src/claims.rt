//! The claim count of a cell.
ghost use Rattle.ipcz_cell.specs.Seats.{mine_of, HasNoSlots, HasSlotFor, SlotsStay};
ghost use Rattle.std.specs.Prelude.{◌≡◌, [], ◌∷◌, eqb, MatchBool};
ghost use Rattle.ipcz_node.specs.RoomyNodes.{IsPossibleAct, IsReadyFor};
ghost use Rattle.ipcz_cell.specs.CellStates.{part_in};
ghost use Rattle.ipcz_cell.specs.Cells.{AreSound};
ghost use Rattle.ipcz_cell.specs.Outcomes.{IsPicked};
ghost use Rattle.ipcz_cell.specs.Claims.{CanClaim, IsNumberAt, Answered, counted, claimed};

use crate::cell::{NodeCell, dry_here};
use crate::fabric::{Fabric, FabricName};
use crate::plays::{Outcome, claim_step, load_step};
use crate::seat::TableSeat;
use crate::slots::{leave_slot, number_at};
use crate::words::commit_word;
use ipcz_base::Refusal;
use ipcz_node::{Act, NodeState};
use ipcz_router::act::{Answer, RouterAct};
use std::marker::Brand;

// A load of the claim count by a proxy that wants a word. X is what it tells.
fn count_here<F: FabricName, X: Outcome>(
    seat: &mut TableSeat,
    fabric: &Fabric<F>,
    serial: u64,
) -> u64
    requires picked { IsPicked X.tells (counted F.table.size serial) }
    requires own { seat.old.table_id ≡ F.table.id }
    requires whole { seat.old.me.0.view.parts ≡ part_in seat.old.me.0.view ∷ [] }
    requires can { CanClaim (part_in seat.old.me.0.view).state serial }
    ensures table { seat.new.table_id ≡ seat.old.table_id }
    ensures done { counted F.table.size serial (mine_of seat.old.me) result (mine_of seat.new.me) }
    ensures sound { AreSound F.table.count F.table.size seat.new.me.0.view }
    ensures slots { SlotsStay seat.old.me seat.new.me }
{
    let (_serial, _words) = (serial, fabric.words);
    load_step::<F, X>(seat, fabric, 0)
}

// An exchange of the claim count for the number behind one. X is what it tells.
fn claim_here<F: FabricName, X: Outcome>(
    seat: &mut TableSeat,
    fabric: &Fabric<F>,
    serial: u64,
    count: u64,
    number: u64,
) -> u64
    requires picked { IsPicked X.tells (claimed F.table.size serial count number) }
    requires own { seat.old.table_id ≡ F.table.id }
    requires whole { seat.old.me.0.view.parts ≡ part_in seat.old.me.0.view ∷ [] }
    requires can { CanClaim (part_in seat.old.me.0.view).state serial }
    requires number { IsNumberAt F.table count number }
    requires slot { HasSlotFor F.table number seat.old.me.0 }
    ensures table { seat.new.table_id ≡ seat.old.table_id }
    ensures done { claimed F.table.size serial count number (mine_of seat.old.me) result (mine_of seat.new.me) }
    ensures sound { AreSound F.table.count F.table.size seat.new.me.0.view }
    ensures slots { MatchBool (eqb result count) (HasNoSlots seat.new.me.0) (SlotsStay seat.old.me seat.new.me) }
{
    let (_serial, _words) = (serial, fabric.words);
    claim_step::<F, X>(seat, fabric, count, number)
}

// A proxy's claim is made ready.
fn claim_ready(state: &mut NodeState, serial: u64)
    requires { IsPossibleAct state.old.node (Act.Router serial RouterAct.Claim) }
    ensures node { state.new.node ≡ state.old.node }
    ensures ready { IsReadyFor state.new (Act.Router serial RouterAct.Claim) }
    ensures can { CanClaim state.old.node serial }
{
    let Ok(()) = state.prepare(&Act::Router(serial, RouterAct::Claim)) else {
        unreachable!()
    };
}

impl<F: FabricName> NodeCell<F> {
    /// Claims a number for the bypass of a proxy: a load of the claim count, and an exchange for the number behind it. It answers `NoWord` if
    /// the load found that each number was claimed, or if slots are used again and none is to be had; the proxy is dry then. It answers
    /// `Raced` only if the exchange found another count than the load; then nothing but what was seen has changed. It takes no memory.
    pub(crate) fn word_claim_for(&mut self, fabric: &Fabric<F>, serial: u64) -> Result<u64, Refusal>
        requires { IsPossibleAct self.old.part.state (Act.Router serial RouterAct.Claim) }
        ensures { Answered F.table serial self.old self.new result }
    {
        claim_ready(&mut self.state, serial);
        let found = count_here::<F, Brand>(&mut self.seat, fabric, serial);
        if found == fabric.words {
            commit_word(&mut self.state, serial, RouterAct::Claim, Answer::NoWord);
            return Err(Refusal::NoWord);
        }
        let Some(number) = number_at(&mut self.seat, fabric, found) else {
            let node = self.state.number();
            dry_here::<F, Brand>(&mut self.seat, fabric, node, serial);
            commit_word(&mut self.state, serial, RouterAct::Claim, Answer::NoWord);
            return Err(Refusal::NoWord);
        };
        let now = claim_here::<F, Brand>(&mut self.seat, fabric, serial, found, number);
        if now != found {
            leave_slot(&mut self.seat, fabric, number);
            return Err(Refusal::Raced);
        }
        commit_word(
            &mut self.state,
            serial,
            RouterAct::Claim,
            Answer::Claimed(number),
        );
        Ok(number)
    }
}
