//! How many links a message brings a router.
ghost use Rattle.std.specs.Prelude.{◌≡◌, ◌≤◌};
ghost use Rattle.ipcz_router.specs.Hearing.{links_brought};

use ipcz_base::Message;

/// How many links more a router may have once it has heard a message.
#[tactic(auto, unfolding(crate::specs::Hearing::links_brought))]
pub fn links_brought(message: &Message) -> usize
    ensures count { result ≡ links_brought message.now }
    ensures bound { result ≤ 1 }
{
    match message {
        Message::BypassPeer { .. } | Message::AcceptBypass { .. } => 1,
        Message::StopProxying { .. }
        | Message::ProxyWillStop { .. }
        | Message::Flush { .. }
        | Message::Item { .. } => 0,
    }
}
