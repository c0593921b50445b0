//! What an act of a router is about to give its node.
ghost use Rattle.std.specs.Prelude.{◌≡◌};
ghost use Rattle.ipcz_router.specs.ActEffects.{output_of};
ghost use Rattle.ipcz_router.specs.Outlooks.{outlook_of};

use super::Router;
use crate::act::RouterAct;
use crate::outlook::Outlook;

impl Router {
    /// What an act is about to give its node, as far as the node needs room for it. It takes no memory.
    #[inline(always)]
    #[tactic(auto, unfolding(crate::specs::ActEffects::output_of, crate::specs::ActEffects::item_output, crate::specs::ActEffects::discard_output, crate::specs::Outlooks::item_outlook, crate::specs::Outlooks::closing_outlook))]
    pub fn outlook(&self, act: RouterAct) -> Outlook
        ensures { result ≡ outlook_of (output_of self.now.router act) }
    {
        match act {
            RouterAct::SendOut => Outlook::of_item(self.way_out(), self.out_queue.next()),
            RouterAct::SendIn => Outlook::of_item(self.way_in(), self.in_queue.next()),
            RouterAct::Discard => Outlook::of_dropped(self.in_queue.next()),
            RouterAct::Wake => self.wake_outlook(),
            RouterAct::Begin => Outlook::of(&self.begin_output()),
            RouterAct::Retire => self.retire_outlook(),
            _ => Outlook::Nothing,
        }
    }

    #[tactic(auto, unfolding(crate::specs::ActEffects::output_of, crate::specs::ActEffects::flush_message, crate::specs::ActEffects::message_output))]
    fn wake_outlook(&self) -> Outlook
        ensures { result ≡ outlook_of (output_of self.now.router RouterAct.Wake) }
    {
        match self.outward.primary() {
            Some(link) => Outlook::Message(link.other),
            None => Outlook::Nothing,
        }
    }

    #[tactic(auto, unfolding(crate::specs::ActEffects::output_of, crate::specs::ActEffects::retire_output))]
    fn retire_outlook(&self) -> Outlook
        ensures { result ≡ outlook_of (output_of self.now.router RouterAct.Retire) }
    {
        match self.outward.primary() {
            Some(link) => Outlook::Item(link.other, 0),
            None => Outlook::Nothing,
        }
    }
}
