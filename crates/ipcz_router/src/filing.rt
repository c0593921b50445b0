//! What a node has to know of a router to file it.
ghost use Rattle.std.specs.Prelude.{◌≡◌};
ghost use Rattle.ipcz_base.specs.Links.{has_link};
ghost use Rattle.ipcz_router.specs.Filings.{is_under};

use ipcz_base::{End, LinkEnd, LinkId, Side};

/// Where a router is filed at its node: the links that it has, the end that it is the router of, whether it is the open
/// terminal of that, and its flag.
#[derive(Clone, Copy, Debug)]
pub struct Filing {
    pub outward: Option<LinkEnd>,
    pub outward_decaying: Option<LinkEnd>,
    pub inward: Option<LinkEnd>,
    pub inward_decaying: Option<LinkEnd>,
    pub end: End,
    pub is_open: bool,
    pub flagged: bool,
}

impl Filing {
    /// Whether it is filed under this link at this side.
    #[inline(always)]
    pub fn is_under(&self, link: LinkId, side: Side) -> bool
        ensures { result ≡ is_under self.now link side }
    {
        is_link(self.outward, link, side)
            || is_link(self.outward_decaying, link, side)
            || is_link(self.inward, link, side)
            || is_link(self.inward_decaying, link, side)
    }
}

// Whether there is a link end and it is this link at this side.
#[tactic(auto, unfolding(ipcz_base::specs::Links::has_link))]
pub(crate) fn is_link(end: Option<LinkEnd>, link: LinkId, side: Side) -> bool
    ensures { result ≡ has_link end link side }
{
    match end {
        Some(end) => end.link == link && end.side == side,
        None => false,
    }
}
