//! What came of a retry.

/// What a node that let a proxy ask again for its slot has found.
#[derive(Clone, Copy, Debug, PartialEq, Eq)]
pub enum Retry {
    /// No router of the node was told that there is no slot.
    NoneWaits,
    /// A router was told so, and still none is to be had.
    NoSlot,
    /// The router of this serial was told so, and asks again at the node's next turns.
    Again(u64),
}
