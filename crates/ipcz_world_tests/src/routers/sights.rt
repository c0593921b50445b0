//! What can be seen of a router.

use ipcz_base::{End, LinkEnd, LinkId, Refusal, Side};
use ipcz_edge::Edge;
use ipcz_router::Router;
use ipcz_router::act::RouterAct;

/// What is seen of a router, with what it is.
#[derive(Clone, Copy)]
pub(super) enum Sight {
    Flagged(bool),
    /// Whether it is a terminal that isn't closed.
    Open(bool),
    Proxy,
    At(End),
    StandsOn(LinkId, Side, bool),
    /// The link over which the current item of the out queue goes.
    WayOut(Option<LinkEnd>),
    /// The node to which the current item of the in queue goes.
    NodeInward(u8),
    /// The first possible act.
    Next(RouterAct),
    Possible(RouterAct, bool),
    Word(Option<(u64, Side)>),
    /// Why a put would be refused.
    PutRefused(Refusal),
    /// The highest number that stands in the out queue.
    OutLast(Option<u64>),
    /// The highest number that stands in the in queue, and whether it is that of Gone.
    InLast(Option<(u64, bool)>),
    /// The outward edge decays: its primary link, and the lengths to its other end and from it.
    Outward(Option<LinkEnd>, Option<u64>, Option<u64>),
    /// The inward edge decays and has no primary link; the lengths to its other end and from it.
    Inward(Option<u64>, Option<u64>),
}

// Whether an edge decays, and has this primary link and these lengths to the other end of the decaying one and from it.
fn is_parted(edge: Edge, primary: Option<LinkEnd>, to: Option<u64>, from: Option<u64>) -> bool {
    edge.decays()
        && edge.primary() == primary
        && edge.length_to() == to
        && edge.length_from() == from
}

fn out_last(router: &Router) -> Option<u64> {
    match router.out_last() {
        Some(entry) => Some(entry.0),
        None => None,
    }
}

fn in_last(router: &Router) -> Option<(u64, bool)> {
    match router.in_last() {
        Some(entry) => Some((entry.0, entry.1.is_gone())),
        None => None,
    }
}

impl Sight {
    /// Whether a router is so.
    pub(super) fn is(&self, router: &Router) -> bool {
        match *self {
            Sight::Flagged(want) => router.is_flagged() == want,
            Sight::Open(want) => router.is_open_terminal() == want,
            Sight::Proxy => !router.is_terminal(),
            Sight::At(end) => router.end() == end,
            Sight::Next(act) => router.next_act() == act,
            Sight::Possible(act, want) => router.is_possible(act) == want,
            Sight::PutRefused(why) => router.put_refusal() == Some(why),
            Sight::OutLast(n) => out_last(router) == n,
            Sight::InLast(last) => in_last(router) == last,
            _ => self.is_of_links(router),
        }
    }

    // Whether its links are so.
    fn is_of_links(&self, router: &Router) -> bool {
        match *self {
            Sight::StandsOn(link, side, want) => router.stands_on(link, side) == want,
            Sight::WayOut(way) => router.way_out() == way,
            Sight::NodeInward(node) => match router.way_in() {
                Some(link) => link.other == node,
                None => false,
            },
            Sight::Word(word) => router.word() == word,
            Sight::Outward(primary, to, from) => is_parted(router.outward(), primary, to, from),
            Sight::Inward(to, from) => match router.inward() {
                Some(inward) => is_parted(inward, None, to, from),
                None => false,
            },
            _ => false,
        }
    }
}
