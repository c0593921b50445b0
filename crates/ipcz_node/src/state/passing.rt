//! The acts of routers that touch no link word, each prepared and done in one go; those that most parcels take have a way of their own.

ghost use Rattle.std.specs.Prelude.{ℕ, ◌≡◌, ◌<◌, false, true, [], Some, is_some, if◌then◌else◌, IsOk, OnOk, OnErr, IfOk, IfErr, IsSomeAnd};
ghost use Rattle.ipcz_router.specs.ActTable.{may_take};
ghost use Rattle.ipcz_router.specs.ActEffects.{IsAnswerOf};
ghost use Rattle.ipcz_node.specs.Node.{router_in};
ghost use Rattle.ipcz_base.specs.Indexed.{place_at};
ghost use Rattle.ipcz_node.specs.RoomyNodes.{IsPossibleAct, IsReadyFor};
ghost use Rattle.ipcz_node.specs.Acts.{commit, act_lacks_serials};
ghost use Rattle.ipcz_node.specs.Preparing.{act_grows, outlook_at};
ghost use Rattle.ipcz_node.specs.Events.{event_of};
ghost use Rattle.ipcz_router.specs.Carrying.{carried_by};
ghost use Rattle.ipcz_base.specs.declared.item.Item.{Item as ItemValue};
ghost use Rattle.ipcz_base.specs.declared.link_end.LinkEnd.{LinkEnd as LinkEndValue};

use super::{NodeState, Told};
use crate::act::Act;
use crate::happened::Happened;
use ipcz_base::{Ends, LinkId, Message, Refusal};
use ipcz_router::Outlook;
use ipcz_router::act::{Answer, Applied, RouterAct};

impl NodeState {
    /// Lets a router do a possible act that touches no link word: makes room for it, as `prepare` does, and does it, as `commit` does with
    /// the answer `Plain`. T says whether what happened is told.
    ///
    /// It answers `NumbersEnd` if the act would move more ends than serials of peripheral links are left for, else `OutOfMemory` if
    /// there was no room and none was found; then what is to be seen of the node stays as it is. An act that makes nothing grow is never
    /// refused, nor is one that the node is ready for, as after a `prepare`.
    pub fn act_plainly<T: Told>(&mut self, serial: u64, act: RouterAct) -> Result<T, Refusal>
        requires possible { IsPossibleAct self.old.node (Act.Router serial act) }
        requires plain { IsAnswerOf act Answer.Plain }
        ensures ok { OnOk result (self.new.node ≡ commit self.old.node (Act.Router serial act) Answer.Plain) }
        ensures event { IfOk result (λ told. T.tells (event_of self.old.node (Act.Router serial act) Answer.Plain) told) }
        ensures allowed { OnOk result (act_lacks_serials self.old.node (Act.Router serial act) ≡ false) }
        ensures why { IfErr result
            (λ e. e ≡ (if act_lacks_serials self.old.node (Act.Router serial act) then Refusal.NumbersEnd else Refusal.OutOfMemory)) }
        ensures grows { act_grows self.old.node (Act.Router serial act) ≡ false → IsOk result }
        ensures full { IsReadyFor self.old (Act.Router serial act) → IsOk result }
        ensures err { OnErr result (self.new.node ≡ self.old.node) }
    {
        match act {
            RouterAct::SendOut => self.send_out(serial),
            RouterAct::Rest => {
                self.rest(serial);
                Ok(T::told(Happened::Rest(serial)))
            }
            _ => self.act_prepared(serial, act),
        }
    }

    // The same by `prepare` and `commit`.
    #[inline(never)]
    fn act_prepared<T: Told>(&mut self, serial: u64, act: RouterAct) -> Result<T, Refusal>
        requires possible { IsPossibleAct self.old.node (Act.Router serial act) }
        requires plain { IsAnswerOf act Answer.Plain }
        ensures ok { OnOk result (self.new.node ≡ commit self.old.node (Act.Router serial act) Answer.Plain) }
        ensures event { IfOk result (λ told. T.tells (event_of self.old.node (Act.Router serial act) Answer.Plain) told) }
        ensures allowed { OnOk result (act_lacks_serials self.old.node (Act.Router serial act) ≡ false) }
        ensures why { IfErr result
            (λ e. e ≡ (if act_lacks_serials self.old.node (Act.Router serial act) then Refusal.NumbersEnd else Refusal.OutOfMemory)) }
        ensures grows { act_grows self.old.node (Act.Router serial act) ≡ false → IsOk result }
        ensures full { IsReadyFor self.old (Act.Router serial act) → IsOk result }
        ensures err { OnErr result (self.new.node ≡ self.old.node) }
    {
        if let Err(why) = self.prepare_router(serial, act) {
            return Err(why);
        }
        Ok(T::commit(self, serial, act, Answer::Plain))
    }

    // A router sends outward.
    #[tactic(auto, using(crate::proofs::Preparing::wants_at, crate::proofs::Growing::send_lone))]
    fn send_out<T: Told>(&mut self, serial: u64) -> Result<T, Refusal>
        requires { IsPossibleAct self.old.node (Act.Router serial RouterAct.SendOut) }
        ensures ok { OnOk result (self.new.node ≡ commit self.old.node (Act.Router serial RouterAct.SendOut) Answer.Plain) }
        ensures event { IfOk result (λ told. T.tells (event_of self.old.node (Act.Router serial RouterAct.SendOut) Answer.Plain) told) }
        ensures allowed { OnOk result (act_lacks_serials self.old.node (Act.Router serial RouterAct.SendOut) ≡ false) }
        ensures why { IfErr result
            (λ e. e ≡ (if act_lacks_serials self.old.node (Act.Router serial RouterAct.SendOut)
            then Refusal.NumbersEnd else Refusal.OutOfMemory)) }
        ensures grows { act_grows self.old.node (Act.Router serial RouterAct.SendOut) ≡ false → IsOk result }
        ensures full { IsReadyFor self.old (Act.Router serial RouterAct.SendOut) → IsOk result }
        ensures err { OnErr result (self.new.node ≡ self.old.node) }
    {
        match self.outlook(serial, RouterAct::SendOut) {
            Outlook::Item(to, 0) => match self.send_lone(serial, to) {
                Ok((n, link)) => {
                    let moved = Ends::from_vec(Vec::new(self.alloc));
                    Ok(T::told(Happened::SendOut {
                        serial,
                        n,
                        link,
                        moved,
                    }))
                }
                Err(why) => Err(why),
            },
            _ => self.act_prepared(serial, RouterAct::SendOut),
        }
    }

    // A router sends an item without ends outward, to a node. It gives the number of the item and its link.
    #[tactic(auto, using(crate::proofs::Carrying::lacks_none))]
    #[inline(always)]
    fn send_lone(&mut self, serial: u64, to: u8) -> Result<(u64, LinkId), Refusal>
        requires possible { IsSomeAnd (router_in self.old.node serial) (λ r. may_take r RouterAct.SendOut ≡ true) }
        requires alone { outlook_at (router_in self.old.node serial) RouterAct.SendOut ≡ Outlook.Item to 0 }
        ensures ok { OnOk result (self.new.node ≡ commit self.old.node (Act.Router serial RouterAct.SendOut) Answer.Plain) }
        ensures sent { IfOk result
            (λ s. Happened.SendOut serial s.0 s.1 [] ≡ event_of self.old.node (Act.Router serial RouterAct.SendOut) Answer.Plain) }
        ensures allowed { act_lacks_serials self.old.node (Act.Router serial RouterAct.SendOut) ≡ false }
        ensures why { IfErr result (λ e. e ≡ Refusal.OutOfMemory) }
        ensures empty { place_at [] self.old.node.outboxes to ≡ [] → IsOk result }
        ensures full { 0 < place_at 0 self.old.room.outboxes to → IsOk result }
        ensures err { OnErr result (self.new.node ≡ self.old.node) }
    {
        self.counts_serials();
        if self.outboxes.reserve(to).is_err() {
            return Err(Refusal::OutOfMemory);
        }
        let message = self.routers.send_out(self.alloc, serial);
        let sent = sent_as(&message);
        self.outboxes.push(to, message);
        Ok(sent)
    }

    /// Lets a router rest: its act `Rest`. It takes no memory.
    #[tactic(auto, using(crate::proofs::Carrying::rests_without), unfolding(crate::specs::Acts::commit, crate::specs::Acts::commit_router, crate::specs::Acts::keep_or_drop, crate::specs::Node::on_router, crate::specs::Sends::send, ipcz_router::specs::ActEffects::leaves_by, ipcz_router::specs::ActEffects::output_of))]
    pub fn rest(&mut self, serial: u64)
        requires { is_some (router_in self.old.node serial) ≡ true }
        ensures node { self.new.node ≡ commit self.old.node (Act.Router serial RouterAct.Rest) Answer.Plain }
        ensures allowed { act_lacks_serials self.old.node (Act.Router serial RouterAct.Rest) ≡ false }
    {
        self.counts_serials();
        self.routers.rest(serial);
    }
}

// The number and the link of the item that a message carries.
#[tactic(auto, unfolding(ipcz_router::specs::Carrying::carried_by))]
fn sent_as(message: &Message) -> (u64, LinkId)
    ensures { (link : LinkEndValue) → (n : ℕ) → (item : ItemValue) → Some message.now ≡ carried_by (Applied.Sent link n item) →
        result ≡ (n, link.link) }
{
    match message {
        Message::Item { link, n, .. } => (*n, *link),
        _ => (0, LinkId::Central(0)),
    }
}
