//! A message that is heard whole, whichever of the messages of a bypass it is, or a Flush.

ghost use Rattle.std.specs.Prelude.{◌≡◌, Ok, Err, if◌then◌else◌, OnOk, OnErr, option_map};
ghost use Rattle.ipcz_router.specs.RoomyRouters.{KeepsRoom};
ghost use Rattle.ipcz_router.specs.Hearing.{hears, deafness, hear, answer_to};

use super::Router;
use crate::sending::Sending;
use crate::source::is_source;
use ipcz_base::{Message, Refusal};

impl Router {
    /// Whether the router hears a message from the node `sender`, as far as the router tells, if the word of an old link names
    /// `source`. An item is none of these messages: it is for `accept`.
    #[tactic(auto, unfolding(crate::specs::Hearing::hears))]
    pub fn hears(&self, sender: u8, message: &Message, source: Option<u8>) -> bool
        ensures { result ≡ hears self.now.router sender message.now source }
    {
        match message {
            Message::BypassPeer { link, side, .. } => self.fits_bypass_peer(*link, *side),
            Message::AcceptBypass { old, side, .. } => {
                self.fits_accept_bypass(*old, *side) && is_source(sender, source)
            }
            Message::StopProxying { old, side, .. } => self.fits_stop_proxying(*old, *side),
            Message::ProxyWillStop { link, side, .. } => self.fits_proxy_will_stop(*link, *side),
            Message::Flush { .. } => true,
            Message::Item { .. } => false,
        }
    }

    /// Hears a message from the node `sender`, by the call that is named as the message, or is roused by a Flush. The answer is what
    /// is to be sent next.
    ///
    /// It is `Forged` if an AcceptBypass fits and only `source` isn't `sender`, and `Stranger` if the router hears no such
    /// message otherwise; then nothing has changed.
    #[tactic(auto, unfolding(crate::specs::Hearing::hears, crate::specs::Hearing::deafness, crate::specs::Hearing::hear, crate::specs::Hearing::answer_to))]
    pub fn hear(
        &mut self,
        sender: u8,
        message: &Message,
        source: Option<u8>,
    ) -> Result<Option<Sending>, Refusal>
        ensures sending { let r = self.old.router in
            result ≡ (if hears r sender message.now source then Ok (answer_to r message.now) else Err (deafness r message.now)) }
        ensures ok { OnOk result (self.new.router ≡ hear self.old.router sender message.now) }
        ensures err { OnErr result (self.new.router ≡ self.old.router) }
        ensures room { KeepsRoom self.old self.new }
    {
        match message {
            Message::BypassPeer {
                link,
                side,
                old,
                target,
                fresh,
            } => self.bypass_peer(*link, *side, *old, *target, *fresh),
            Message::AcceptBypass {
                old,
                side,
                fresh,
                length,
            } => self.accept_bypass(sender, *old, *side, *fresh, *length, source),
            Message::StopProxying {
                old,
                side,
                in_length,
                out_length,
            } => self.stop_proxying(*old, *side, *in_length, *out_length),
            Message::ProxyWillStop {
                link,
                side,
                in_length,
            } => self.proxy_will_stop(*link, *side, *in_length),
            Message::Flush { .. } => {
                self.rouse();
                Ok(None)
            }
            Message::Item { .. } => Err(Refusal::Stranger),
        }
    }

    /// The node that the next message goes to, if the router sends one once it has heard this one.
    #[tactic(auto, unfolding(crate::specs::Hearing::answer_to, crate::specs::Bypass::stop_message, crate::specs::Bypass::will_stop_message))]
    pub fn next_addressee(&self, message: &Message) -> Option<u8>
        ensures { result ≡ option_map (λ s. s.to) (answer_to self.now.router message.now) }
    {
        match message {
            Message::BypassPeer { target, .. } => Some(*target),
            Message::AcceptBypass { .. } => self.outward.primary().map(|link| link.other),
            Message::StopProxying { .. } => match &self.inward {
                Some(inward) => inward.decaying().map(|link| link.other),
                None => None,
            },
            Message::ProxyWillStop { .. } | Message::Flush { .. } | Message::Item { .. } => None,
        }
    }
}
