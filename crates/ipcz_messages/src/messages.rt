//! The messages between nodes, as a transcript tells them: made by a router, posted, looked at and handled.
//!
//! A mailbox keeps one message, so a look takes the last post of its two nodes; and a node has one message in hand, so it
//! handles what it looked at last. Behind a settle nothing is known of mailboxes and hands.

ghost use Rattle.std.specs.Prelude.{◌≡◌, None};

mod births;
mod bypasses;
mod joining;
mod leftovers;
mod made;
mod mailbox;
mod making;
pub mod namings;
mod newborns;
mod receivers;

pub use births::note_births;
use ipcz_lines::{Kind, Link};
pub use mailbox::is_settle;
pub use making::messages;

/// A message, with the indices of the lines at which it was made, posted, looked at and handled, and of its routers, if
/// they are known.
#[derive(Clone, Copy)]
pub struct Message<'a> {
    pub from: Option<u8>,
    pub to: u8,
    pub made: Option<usize>,
    pub maker: Option<usize>,
    pub posted: Option<usize>,
    pub looked: Option<usize>,
    pub handled: Option<usize>,
    pub receiver: Option<usize>,
    pub kind: Option<Kind>,
    pub link: Option<Link>,
    /// The ends that moved with an item, as `1A,1B`, or nothing.
    pub moves: &'a [u8],
    pub unfit: bool,
    /// The settle in which it got out of sight, or the post that took its place.
    pub lost: Option<usize>,
    /// The settle behind which it came into sight.
    pub gained: Option<usize>,
}

impl<'a> Message<'a> {
    fn unseen(from: Option<u8>, to: u8, gained: Option<usize>) -> Self
        ensures from { result.from ≡ from }
        ensures to { result.to ≡ to }
        ensures posted { result.posted ≡ None }
        ensures looked { result.looked ≡ None }
        ensures handled { result.handled ≡ None }
    {
        Message {
            from,
            to,
            made: None,
            maker: None,
            posted: None,
            looked: None,
            handled: None,
            receiver: None,
            kind: None,
            link: None,
            moves: b"".as_slice(),
            unfit: false,
            lost: None,
            gained,
        }
    }
}
