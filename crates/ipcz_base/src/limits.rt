//! The limit of the numbers that items have.

/// The greatest number that the mark of an end has, u64::MAX - 2 (docs/PROTOCOL.md, "Parcels and items").
///
/// A put whose number would be this one is refused, so that the mark still has one, and Gone behind it the next. Each length is then at most
/// u64::MAX - 1.
pub const LAST: u64 = u64::MAX - 2;
