//! What an act is about to give its node, in kind and amount.
ghost use Rattle.std.specs.Prelude.{◌≡◌, length, option_copied};
ghost use Rattle.ipcz_base.specs.Items.{ends_in};
ghost use Rattle.ipcz_router.specs.Outlooks.{outlook_of, item_outlook, closing_outlook};

use crate::act::Applied;
use ipcz_base::{Item, LinkEnd};

/// What an act of a router is about to give its node, as far as the node needs room for it.
#[derive(Clone, Copy, Debug, PartialEq, Eq)]
pub enum Outlook {
    Nothing,
    /// An item with so many ends, to a node.
    Item(u8, usize),
    /// A message without ends, to a node.
    Message(u8),
    /// So many ends that are to be closed.
    Closing(usize),
}

impl Outlook {
    // Of what an act gives.
    pub(crate) fn of(applied: &Applied) -> Outlook
        ensures { result ≡ outlook_of applied.now }
    {
        match applied {
            Applied::Nothing => Outlook::Nothing,
            Applied::Sent(link, _, item) => Outlook::Item(link.other, ends_count(item)),
            Applied::Message(to, _) => Outlook::Message(*to),
            Applied::Discarded(_, item) => Outlook::Closing(ends_count(item)),
        }
    }

    // Of an item that goes over a link end, if there are both.
    #[tactic(auto, unfolding(crate::specs::Outlooks::item_outlook))]
    pub(crate) fn of_item(link: Option<LinkEnd>, item: Option<&Item>) -> Outlook
        ensures { result ≡ item_outlook link (option_copied item.entry) }
    {
        match (link, item) {
            (Some(link), Some(item)) => Outlook::Item(link.other, ends_count(item)),
            (_, _) => Outlook::Nothing,
        }
    }

    // Of an item that is dropped, if there is one.
    #[tactic(auto, unfolding(crate::specs::Outlooks::closing_outlook))]
    pub(crate) fn of_dropped(item: Option<&Item>) -> Outlook
        ensures { result ≡ closing_outlook (option_copied item.entry) }
    {
        match item {
            Some(item) => Outlook::Closing(ends_count(item)),
            None => Outlook::Nothing,
        }
    }
}

// How many ends are in an item.
fn ends_count(item: &Item) -> usize
    ensures { result ≡ length (ends_in item.now) }
{
    match item {
        Item::Parcel(parcel) => parcel.ends.len(),
        Item::Mark | Item::Gone => 0,
    }
}
