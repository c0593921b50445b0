//! What a router gives up by an act.
ghost use Rattle.std.specs.Prelude.{◌≡◌};
ghost use Rattle.ipcz_router.specs.ActEffects.{leaves_by};
ghost use Rattle.ipcz_router.specs.LettingGo.{word_end, edge_end, let_go_end, let_go_spare};

use super::Router;
use crate::act::RouterAct;
use ipcz_base::{LinkEnd, LinkId, Side};
use ipcz_edge::Edge;

// The end of a word that a link end is, if there is one and its link is central.
#[tactic(auto, unfolding(ipcz_base::specs::Links::word_of, crate::specs::LettingGo::word_end))]
fn word_end(end: Option<LinkEnd>) -> Option<(u64, Side)>
    ensures { result ≡ word_end end }
{
    let end = end?;
    match end.link {
        LinkId::Central(word) => Some((word, end.side)),
        LinkId::Peripheral { .. } => None,
    }
}

// The end of a word by which an edge stands on a central link.
#[tactic(auto, unfolding(crate::specs::LettingGo::first_of))]
fn edge_end(edge: Edge) -> Option<(u64, Side)>
    ensures { result ≡ edge_end edge }
{
    match word_end(edge.primary()) {
        Some(end) => Some(end),
        None => word_end(edge.decaying()),
    }
}

impl Router {
    // Whether it leaves its node by an act.
    #[tactic(auto, unfolding(crate::specs::ActEffects::leaves_by, crate::specs::Acts::item_passes))]
    fn leaves_by(&self, act: RouterAct) -> bool
        ensures { result ≡ leaves_by self.now.router act }
    {
        match act {
            RouterAct::Leave | RouterAct::Retire => true,
            RouterAct::Discard => match self.in_queue.next() {
                Some(item) => item.is_gone(),
                None => false,
            },
            _ => false,
        }
    }

    /// The end of a link word that it gives up by an act, if it can do it: the word's number, and the side. A router that finishes its
    /// decaying outward link gives that link's end up, and one that leaves its node that of its outward edge. There is none if the act is
    /// another, or no such link is central.
    #[tactic(auto, unfolding(crate::specs::LettingGo::let_go_end))]
    pub fn let_go_end(&self, act: RouterAct) -> Option<(u64, Side)>
        ensures { result ≡ let_go_end self.now.router act }
    {
        if act == RouterAct::FinishOut {
            return word_end(self.outward.decaying());
        }
        if self.leaves_by(act) {
            return edge_end(self.outward);
        }
        None
    }

    /// The word that it has claimed for a bypass, if it leaves its node by the act and hasn't used it.
    pub fn let_go_spare(&self, act: RouterAct) -> Option<u64>
        ensures { result ≡ let_go_spare self.now.router act }
    {
        if self.leaves_by(act) {
            return self.spare;
        }
        None
    }
}
