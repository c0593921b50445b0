//! Room for an act, made before it.
ghost use Rattle.std.specs.Prelude.{◌≡◌, ◌≤◌, true, false, if◌then◌else◌, OnOk, IfErr, IsOk};
ghost use Rattle.ipcz_base.specs.Limits.{has_serials};
ghost use Rattle.ipcz_node.specs.declared.act.Act.{Act};
ghost use Rattle.ipcz_node.specs.Node.{router_in};
ghost use Rattle.ipcz_node.specs.RoomyNodes.{IsReadyFor, RoomIsKept};
ghost use Rattle.ipcz_node.specs.Acts.{act_lacks_serials};
ghost use Rattle.ipcz_node.specs.Preparing.{IsReadyAs, act_grows, outlook_at, outlook_grows, serials_as};

use super::NodeState;
use crate::act::Act;
use ipcz_base::{End, Refusal};
use ipcz_router::Outlook;
use ipcz_router::act::RouterAct;
use std::alloc::AllocError;

impl NodeState {
    // Makes room for the ends that are moved by an item to a node.
    fn reserve_moves(&mut self, count: usize) -> Result<(), AllocError>
        ensures node { self.new.node ≡ self.old.node }
        ensures kept { RoomIsKept self.old.room self.new.room }
        ensures links { OnOk result (count ≤ self.new.room.links) }
        ensures moves { OnOk result (count ≤ self.new.room.moves) }
        ensures event_ends { OnOk result (count ≤ self.new.room.event_ends) }
        ensures outboxes { self.new.room.outboxes ≡ self.old.room.outboxes }
        ensures full { count ≤ self.old.room.links → count ≤ self.old.room.moves → count ≤ self.old.room.event_ends → IsOk result }
    {
        if count == 0 {
            return Ok(());
        }
        self.routers.reserve(0, count)?;
        self.moves.reserve(count)?;
        self.event_ends.reserve(count)
    }

    // How many serials of peripheral links an act of this outlook takes.
    fn serials_as(&self, outlook: Outlook) -> usize
        ensures { result ≡ serials_as self.now.node outlook }
    {
        match outlook {
            Outlook::Item(to, ends) => { if to == self.number { 0 } else { ends } }
            _ => 0,
        }
    }

    // Makes room for what an act of this outlook gives.
    fn make_room(&mut self, outlook: Outlook) -> Result<(), AllocError>
        requires { has_serials self.old.node.next_peripheral (serials_as self.old.node outlook) ≡ true }
        ensures node { self.new.node ≡ self.old.node }
        ensures kept { RoomIsKept self.old.room self.new.room }
        ensures ready { OnOk result (IsReadyAs self.new outlook) }
        ensures grows { outlook_grows self.old.node outlook ≡ false → IsOk result }
        ensures full { IsReadyAs self.old outlook → IsOk result }
    {
        match outlook {
            Outlook::Nothing => Ok(()),
            Outlook::Item(to, _) => {
                let count = self.serials_as(outlook);
                self.outboxes.reserve(to)?;
                self.reserve_moves(count)
            }
            Outlook::Message(to) => self.outboxes.reserve(to),
            Outlook::Closing(ends) => self.pending.reserve(ends),
        }
    }

    // Asks for the serials that an act of this outlook takes, and makes room for what it gives.
    #[tactic(auto, using(crate::proofs::Growing::takes_none))]
    fn reserve(&mut self, outlook: Outlook) -> Result<(), Refusal>
        ensures node { self.new.node ≡ self.old.node }
        ensures kept { RoomIsKept self.old.room self.new.room }
        ensures ready { OnOk result (IsReadyAs self.new outlook) }
        ensures allowed { OnOk result (has_serials self.old.node.next_peripheral (serials_as self.old.node outlook) ≡ true) }
        ensures why { IfErr result
            (λ e. e ≡ (if has_serials self.old.node.next_peripheral (serials_as self.old.node outlook)
            then Refusal.OutOfMemory else Refusal.NumbersEnd)) }
        ensures grows { outlook_grows self.old.node outlook ≡ false → IsOk result }
        ensures full { IsReadyAs self.old outlook → IsOk result }
    {
        let count = self.serials_as(outlook);
        if self.next_peripheral > u64::MAX - count as u64 {
            return Err(Refusal::NumbersEnd);
        }
        match self.make_room(outlook) {
            Ok(()) => Ok(()),
            Err(_) => Err(Refusal::OutOfMemory),
        }
    }

    // The outlook of an act of the router of the serial.
    #[inline(always)]
    pub(super) fn outlook(&self, serial: u64, act: RouterAct) -> Outlook
        ensures { result ≡ outlook_at (router_in self.now.node serial) act }
    {
        match self.routers.router(serial) {
            Some(router) => router.outlook(act),
            None => Outlook::Nothing,
        }
    }

    // Makes room for what an act of the router of the serial gives.
    #[tactic(auto, using(crate::proofs::Preparing::serials_there, crate::proofs::Preparing::ready_at, crate::proofs::Preparing::wants_at), unfolding(crate::specs::Acts::act_lacks_serials, crate::specs::Preparing::act_grows))]
    pub(super) fn prepare_router(&mut self, serial: u64, act: RouterAct) -> Result<(), Refusal>
        ensures node { self.new.node ≡ self.old.node }
        ensures kept { RoomIsKept self.old.room self.new.room }
        ensures ready { OnOk result (IsReadyFor self.new (Act.Router serial act)) }
        ensures allowed { OnOk result (act_lacks_serials self.old.node (Act.Router serial act) ≡ false) }
        ensures why { IfErr result
            (λ e. e ≡ (if act_lacks_serials self.old.node (Act.Router serial act) then Refusal.NumbersEnd else Refusal.OutOfMemory)) }
        ensures grows { act_grows self.old.node (Act.Router serial act) ≡ false → IsOk result }
        ensures full { IsReadyFor self.old (Act.Router serial act) → IsOk result }
    {
        let outlook = self.outlook(serial, act);
        self.reserve(outlook)
    }

    // Makes room for the mark at the open terminal of an end, if there is one.
    fn prepare_close(&mut self, end: End) -> Result<(), Refusal>
        ensures node { self.new.node ≡ self.old.node }
        ensures kept { RoomIsKept self.old.room self.new.room }
        ensures ready { OnOk result (IsReadyFor self.new (Act.Close end)) }
        ensures why { IfErr result (λ e. e ≡ Refusal.OutOfMemory) }
        ensures full { IsReadyFor self.old (Act.Close end) → IsOk result }
    {
        match self.terminal_serial(end) {
            Some(serial) => self.routers.reserve_out(serial),
            None => Ok(()),
        }
    }

    /// Makes all the room that an act wants, so that `commit` takes no memory. What is to be seen of the node stays as it is.
    ///
    /// It answers `NumbersEnd` if the act would move more ends than serials of peripheral links are left for, else
    /// `OutOfMemory` if there was no room and none was found. An act that makes nothing grow is never refused,
    /// nor is one that the node is ready for, as after a `prepare` before. What it or an `open_prepare` before it made room for
    /// stays (docs/PROTOCOL.md, "Turns").
    #[tactic(auto, unfolding(crate::specs::Acts::act_lacks_serials, crate::specs::Preparing::act_grows))]
    pub fn prepare(&mut self, act: &Act) -> Result<(), Refusal>
        ensures node { self.new.node ≡ self.old.node }
        ensures kept { RoomIsKept self.old.room self.new.room }
        ensures ready { OnOk result (IsReadyFor self.new act.now) }
        ensures allowed { OnOk result (act_lacks_serials self.old.node act.now ≡ false) }
        ensures why { IfErr result
            (λ e. e ≡ (if act_lacks_serials self.old.node act.now then Refusal.NumbersEnd else Refusal.OutOfMemory)) }
        ensures grows { act_grows self.old.node act.now ≡ false → IsOk result }
        ensures full { IsReadyFor self.old act.now → IsOk result }
    {
        match act {
            Act::Router(serial, act) => self.prepare_router(*serial, *act),
            Act::Close(end) => self.prepare_close(*end),
            Act::Hand(_) => Ok(()),
            Act::Look(_) => Ok(()),
            Act::Post(_) => Ok(()),
            Act::Idle => Ok(()),
        }
    }
}
