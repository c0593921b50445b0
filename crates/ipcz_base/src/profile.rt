//! What the bytes of a parcel may be.

/// Which bytes a put takes (docs/PROTOCOL.md, "Parcels and items").
#[derive(Clone, Copy, Debug, PartialEq, Eq)]
pub enum Profile {
    /// At most 256 bytes, each from 0x20 to 0x7E: those that a transcript prints as they are.
    Printed,
    /// At most 65,536 bytes, each of any value.
    Wide,
}
