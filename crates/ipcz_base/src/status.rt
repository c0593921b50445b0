//! What a look at a portal tells.
use crate::parcel::Sizes;

/// What a look at a portal tells: what gets at it would answer, one after the other.
///
/// Where two parcels of five bytes have come, and nothing else, it is
/// `PortalStatus { next: 0, sizes: Some(Sizes { bytes: 5, ends: 0 }), waiting: 2, peer_closed: false }`.
#[derive(Clone, Copy, Debug, PartialEq, Eq)]
pub struct PortalStatus {
    /// The number that the next parcel has, whether it has come or not.
    pub next: u64,
    /// How many bytes and ends the next parcel has, if it has come.
    pub sizes: Option<Sizes>,
    /// How many gets would give a parcel each. A parcel behind a gap isn't counted.
    pub waiting: u64,
    /// Whether the get after these would answer `PeerClosed`; if not, it would answer `Empty`.
    pub peer_closed: bool,
}
