//! The acts that most parcels take, each by a call of its own: a send outward and a rest.

ghost use Rattle.std.specs.Prelude.{◌≡◌, Some, true};
ghost use Rattle.ipcz_router.specs.RoomyRouters.{KeepsRoom, LeavesRoom};
ghost use Rattle.ipcz_router.specs.ActTable.{is_possible};
ghost use Rattle.ipcz_router.specs.ActEffects.{apply, output_of};
ghost use Rattle.ipcz_router.specs.Carrying.{carried_by};

use super::Router;
use crate::act::{Answer, RouterAct};
use ipcz_base::{Message, Moves};
use std::alloc::Global;

impl Router {
    /// Does the act `SendOut`, as `apply` does, and gives the message that carries the item without moves. It takes no memory; `alloc`
    /// is for the message's empty list of them.
    #[inline(always)]
    #[tactic(auto, unfolding(crate::specs::ActTable::is_possible, crate::specs::ActEffects::apply, crate::specs::ActEffects::item_output, crate::specs::ActEffects::output_of, crate::specs::Carrying::carried_by))]
    pub fn send_out(&mut self, alloc: Global) -> Message
        requires { is_possible self.old.router RouterAct.SendOut ≡ true }
        ensures router { self.new.router ≡ apply self.old.router RouterAct.SendOut Answer.Plain }
        ensures message { Some result ≡ carried_by (output_of self.old.router RouterAct.SendOut) }
        ensures room { LeavesRoom self.old self.new 0 0 }
    {
        let Some(link) = self.way_out() else {
            unreachable!()
        };
        let n = self.out_queue.current();
        let item = self.pop_out_ready();
        Message::Item {
            link: link.link,
            side: link.side.opposite(),
            n,
            item,
            moves: Moves::from_vec(Vec::new(alloc)),
        }
    }

    /// Does the act `Rest`, as `apply` does: its flag is taken away.
    #[tactic(auto, unfolding(crate::specs::ActEffects::apply))]
    pub fn rest(&mut self)
        ensures router { self.new.router ≡ apply self.old.router RouterAct.Rest Answer.Plain }
        ensures room { KeepsRoom self.old self.new }
    {
        self.flagged = false;
    }
}
