//! A place for a link end that takes half the room of an `Option`.
ghost use Rattle.std.specs.Prelude.{◌≡◌};

use ipcz_base::{LinkEnd, LinkId, Side};
use std::marker::Model;

/// A place for a link end: an `Option<LinkEnd>` in half of its room, since side, node and word stand beside the tag.
#[derive(Clone, Copy, Debug)]
pub struct LinkSlot {
    kept: Kept,
}

#[derive(Clone, Copy, Debug)]
enum Kept {
    Nothing,
    Central {
        side: Side,
        other: u8,
        word: u64,
    },
    Peripheral {
        side: Side,
        other: u8,
        node: u8,
        serial: u64,
    },
}

impl Model for LinkSlot {
    ghost use Rattle.std.specs.Prelude.{Option};
    ghost use Rattle.std.specs.Coded.{codes};
    ghost use Rattle.ipcz_base.specs.declared.link_end.LinkEnd.{LinkEnd};
    ghost use Rattle.ipcz_edge.specs.LinkSlots.{end_kept, kept_end, got_back};

    ghost Value = { Option LinkEnd };

    ghost coded = { Prim.hlevel (codes) };

    ghost view = { λ a. end_kept a.kept };

    ghost inverse = { λ end. record { kept = kept_end end } };

    ghost inverse_ok = { λ a h. got_back (λ k. record { kept = k }) a.kept };
}

impl LinkSlot {
    /// The slot of a link end, if there is one.
    #[tactic(auto, unfolding(crate::specs::LinkSlots::end_kept))]
    pub fn of(end: Option<LinkEnd>) -> LinkSlot
        ensures { result ≡ end }
    {
        let Some(LinkEnd { link, side, other }) = end else {
            return LinkSlot {
                kept: Kept::Nothing,
            };
        };
        let kept = match link {
            LinkId::Central(word) => Kept::Central { side, other, word },
            LinkId::Peripheral { node, serial } => Kept::Peripheral {
                side,
                other,
                node,
                serial,
            },
        };
        LinkSlot { kept }
    }

    /// The link end, if there is one.
    #[tactic(auto, unfolding(crate::specs::LinkSlots::end_kept))]
    pub fn end(&self) -> Option<LinkEnd>
        ensures { result ≡ self.now }
    {
        let (link, side, other) = match self.kept {
            Kept::Central { side, other, word } => (LinkId::Central(word), side, other),
            Kept::Peripheral {
                side,
                other,
                node,
                serial,
            } => (LinkId::Peripheral { node, serial }, side, other),
            Kept::Nothing => return None,
        };
        Some(LinkEnd { link, side, other })
    }
}
