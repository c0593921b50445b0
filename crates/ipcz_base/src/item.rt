//! Items: what routers queue and send to each other.
ghost use Rattle.std.specs.Prelude.{◌≡◌};
ghost use Rattle.ipcz_base.specs.Items.{is_mark, is_gone_item, sizes_in};

use crate::parcel::{Parcel, Sizes};

/// What stands in a router's queues and travels over its links: a parcel, the mark that says that its portal was closed, or what says that its
/// sink has left (docs/PROTOCOL.md, "Parcels and items").
#[derive(Debug, Drop)]
pub enum Item {
    Parcel(Parcel),
    Mark,
    /// The sink that put it has left. No portal gets it.
    Gone,
}

impl Item {
    /// Whether it is the mark.
    pub fn is_mark(&self) -> bool
        ensures { result ≡ is_mark self.now }
    {
        match self {
            Item::Parcel(_) => false,
            Item::Mark => true,
            Item::Gone => false,
        }
    }

    /// How many bytes and ends its parcel has, if it is one.
    #[tactic(auto, unfolding(crate::specs::Items::sizes_in))]
    pub fn sizes(&self) -> Option<Sizes>
        ensures { result ≡ sizes_in self.now }
    {
        match self {
            Item::Parcel(parcel) => Some(parcel.sizes()),
            Item::Mark | Item::Gone => None,
        }
    }

    /// Whether it says that its sink has left.
    pub fn is_gone(&self) -> bool
        ensures { result ≡ is_gone_item self.now }
    {
        match self {
            Item::Parcel(_) | Item::Mark => false,
            Item::Gone => true,
        }
    }
}
