//! The types that every crate of the portal routers names: sides and ends of pairs, links, parcels, items and
//! messages, and refusals. The devices of `ipcz_device` are passed on.
#![tactic(auto)]

mod bytes;
mod descriptor;
mod end;
mod item;
mod limits;
mod link_end;
mod link_id;
mod message;
mod parcel;
mod profile;
mod refusal;
mod sequence;
mod side;
mod status;

pub use bytes::Bytes;
pub use descriptor::Descriptor;
pub use end::End;
pub use ipcz_device::Device;
pub use item::Item;
pub use limits::LAST;
pub use link_end::LinkEnd;
pub use link_id::LinkId;
pub use message::Message;
pub use parcel::{Parcel, Sizes};
pub use profile::Profile;
pub use refusal::Refusal;
pub use sequence::{Ends, Moves, Sequence};
pub use side::Side;
pub use status::PortalStatus;
