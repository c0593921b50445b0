//! The order in which a node keeps its links.
ghost use Rattle.std.specs.Prelude.{◌≡◌};
ghost use Rattle.ipcz_node.specs.LinkPlaces.{link_place};

use ipcz_base::{LinkId, Side};

/// A link at a side, in the order in which a node keeps its links: by their numbers first, since each node makes its links with ever
/// greater ones. So a new link, whoever made it, goes near the end of a sorted list of places, and few others move up for it.
#[derive(Clone, Copy, PartialEq, Eq, PartialOrd, Ord)]
pub struct LinkPlace {
    number: u64,
    maker: LinkMaker,
    side: Side,
}

/// Whose numbers the link is numbered by: those of the link words, or those of the node that made it.
#[derive(Clone, Copy, PartialEq, Eq, PartialOrd, Ord)]
pub enum LinkMaker {
    Words,
    Node(u8),
}

impl LinkPlace {
    /// The place of a link at a side.
    #[tactic(auto, unfolding(crate::specs::LinkPlaces::link_place))]
    pub fn of(link: LinkId, side: Side) -> Self
        ensures { result ≡ link_place link side }
    {
        match link {
            LinkId::Central(word) => LinkPlace {
                number: u64::from(word),
                maker: LinkMaker::Words,
                side,
            },
            LinkId::Peripheral { node, serial } => LinkPlace {
                number: serial,
                maker: LinkMaker::Node(node),
                side,
            },
        }
    }

    /// The number of the link, among those of its maker.
    pub fn link_number(&self) -> u64 {
        self.number
    }

    /// The side.
    pub fn side(&self) -> Side {
        self.side
    }
}
