//! The messages of a bypass, as a router hears them.
ghost use Rattle.std.specs.Prelude.{◌≡◌, Some, None, Ok, Err, true, false, is_some, if◌then◌else◌, OnOk, OnErr};
ghost use Rattle.ipcz_edge.specs.Edge.{edge_decays};
ghost use Rattle.ipcz_router.specs.Router.{inward_edge};
ghost use Rattle.ipcz_router.specs.RoomyRouters.{KeepsRoom};
ghost use Rattle.ipcz_router.specs.Bypass.{relink, outward_onto, decays_unknown, fits_bypass_peer, bypass_peer, accept_message};
ghost use Rattle.ipcz_router.specs.Bypass.{fits_accept_bypass, is_source, accept_bypass, stop_message, fits_stop_proxying, stop_proxying};
ghost use Rattle.ipcz_router.specs.Bypass.{will_stop_message, fits_proxy_will_stop, proxy_will_stop};

use super::Router;
use crate::filing::is_link;
use crate::sending::Sending;
use crate::source::is_source;
use ipcz_base::{LinkEnd, LinkId, Message, Refusal, Side};
use ipcz_edge::Edge;

impl Router {
    /// Whether a BypassPeer fits: `link` at `side` is the outward primary link, peripheral, and that edge doesn't decay.
    #[tactic(auto, unfolding(ipcz_base::specs::Links::is_central))]
    pub fn fits_bypass_peer(&self, link: LinkId, side: Side) -> bool
        ensures { result ≡ fits_bypass_peer self.now.router link side }
    {
        let is_central = matches!(link, LinkId::Central(_));
        is_link(self.outward.primary(), link, side) && !is_central && !self.outward.decays()
    }

    /// Takes a BypassPeer, which a proxy sent: the outward link to that proxy decays, as long as the number of the item that
    /// goes out next, and the new primary link is that of the word `fresh`, toward the node `target`.
    ///
    /// The answer tells the router across, which has the link of the word `old`. It is `Stranger` if the message doesn't
    /// fit; then nothing has changed. The router is flagged.
    #[tactic(auto, unfolding(ipcz_base::specs::Links::has_link))]
    pub fn bypass_peer(
        &mut self,
        link: LinkId,
        side: Side,
        old: u64,
        target: u8,
        fresh: u64,
    ) -> Result<Option<Sending>, Refusal>
        ensures sending { let r = self.old.router in
            result ≡ (if fits_bypass_peer r link side then Ok (Some (accept_message r old target fresh)) else Err Refusal.Stranger) }
        ensures ok { OnOk result (self.new.router ≡ bypass_peer self.old.router target fresh) }
        ensures err { OnErr result (self.new.router ≡ self.old.router) }
        ensures room { KeepsRoom self.old self.new }
    {
        if !self.fits_bypass_peer(link, side) {
            return Err(Refusal::Stranger);
        }
        let message = Message::AcceptBypass {
            old,
            side: self.end.side.opposite(),
            fresh,
            length: self.out_queue.current(),
        };
        self.relink(fresh, self.end.side, target);
        Ok(Some(Sending {
            to: target,
            message,
        }))
    }

    /// Whether an AcceptBypass fits: the link of the word `old` at `side` is the outward primary one, and that edge doesn't
    /// decay.
    pub fn fits_accept_bypass(&self, old: u64, side: Side) -> bool
        ensures { result ≡ fits_accept_bypass self.now.router old side }
    {
        is_link(self.outward.primary(), LinkId::Central(old), side) && !self.outward.decays()
    }

    /// Takes an AcceptBypass, which came past the proxy from the node `sender`: the old link decays, as long to the proxy as
    /// the number of the item that goes out next and as long from it as `length`, and the new primary link is that of the
    /// word `fresh`, toward `sender`.
    ///
    /// The answer tells the proxy both lengths. It is `Stranger` if the message doesn't fit, and else `Forged` if `source`,
    /// the node that the old link's word names, isn't `sender`; then nothing has changed. The router is flagged.
    #[tactic(auto, unfolding(ipcz_base::specs::Links::has_link, crate::specs::Bypass::stop_message))]
    pub fn accept_bypass(
        &mut self,
        sender: u8,
        old: u64,
        side: Side,
        fresh: u64,
        length: u64,
        source: Option<u8>,
    ) -> Result<Option<Sending>, Refusal>
        ensures sending { let r = self.old.router in
            result ≡ (if fits_accept_bypass r old side
            then (if is_source sender source then Ok (stop_message r r.outward.primary old side length) else Err Refusal.Forged)
            else Err Refusal.Stranger) }
        ensures ok { OnOk result (self.new.router ≡ accept_bypass self.old.router sender side fresh length) }
        ensures err { OnErr result (self.new.router ≡ self.old.router) }
        ensures room { KeepsRoom self.old self.new }
    {
        if !self.fits_accept_bypass(old, side) {
            return Err(Refusal::Stranger);
        }
        if !is_source(sender, source) {
            return Err(Refusal::Forged);
        }
        let Some(proxy) = self.outward.primary() else {
            unreachable!()
        };
        let message = Message::StopProxying {
            old,
            side: side.opposite(),
            in_length: self.out_queue.current(),
            out_length: length,
        };
        self.relink(fresh, side, sender);
        self.outward.set_length_from(length);
        Ok(Some(Sending {
            to: proxy.other,
            message,
        }))
    }

    /// Whether a StopProxying fits: the link of the word `old` at `side` is the outward decaying one, and both edges decay
    /// with both lengths unknown.
    pub fn fits_stop_proxying(&self, old: u64, side: Side) -> bool
        ensures { result ≡ fits_stop_proxying self.now.router old side }
    {
        let Some(inward) = &self.inward else {
            return false;
        };
        is_link(self.outward.decaying(), LinkId::Central(old), side)
            && decays_unknown(&self.outward)
            && decays_unknown(inward)
    }

    /// Takes a StopProxying: both decaying links of the proxy have their lengths. `in_length` is that of what comes from
    /// outward and goes inward, `out_length` that of what comes from inward and goes outward.
    ///
    /// The answer tells the router inward how long the link to it is. It is `Stranger` if the message doesn't fit; then
    /// nothing has changed. The proxy is flagged.
    #[tactic(auto, unfolding(ipcz_base::specs::Links::has_link, crate::specs::Bypass::will_stop_message))]
    pub fn stop_proxying(
        &mut self,
        old: u64,
        side: Side,
        in_length: u64,
        out_length: u64,
    ) -> Result<Option<Sending>, Refusal>
        ensures sending { let r = self.old.router in
            result ≡ (if fits_stop_proxying r old side
            then Ok (will_stop_message (inward_edge r).decaying in_length) else Err Refusal.Stranger) }
        ensures ok { OnOk result (self.new.router ≡ stop_proxying self.old.router in_length out_length) }
        ensures err { OnErr result (self.new.router ≡ self.old.router) }
        ensures room { KeepsRoom self.old self.new }
    {
        if !self.fits_stop_proxying(old, side) {
            return Err(Refusal::Stranger);
        }
        self.outward.set_length_to(out_length);
        self.outward.set_length_from(in_length);
        self.rouse();
        let Some(inward) = &mut self.inward else {
            unreachable!()
        };
        inward.set_length_to(in_length);
        inward.set_length_from(out_length);
        Ok(inward.decaying().map(|link| will_stop(link, in_length)))
    }

    /// Whether a ProxyWillStop fits: `link` at `side` is the outward decaying link, and its length from the proxy is
    /// unknown.
    pub fn fits_proxy_will_stop(&self, link: LinkId, side: Side) -> bool
        ensures { result ≡ fits_proxy_will_stop self.now.router link side }
    {
        is_link(self.outward.decaying(), link, side) && self.outward.length_from().is_none()
    }

    /// Takes a ProxyWillStop: items below `in_length` still come over the decaying link, and none from there on.
    ///
    /// Nothing is sent next. The answer is `Stranger` if the message doesn't fit; then nothing has changed. The router is
    /// flagged.
    #[tactic(auto, unfolding(ipcz_base::specs::Links::has_link))]
    pub fn proxy_will_stop(
        &mut self,
        link: LinkId,
        side: Side,
        in_length: u64,
    ) -> Result<Option<Sending>, Refusal>
        ensures sending { result ≡ (if fits_proxy_will_stop self.old.router link side then Ok None else Err Refusal.Stranger) }
        ensures ok { OnOk result (self.new.router ≡ proxy_will_stop self.old.router in_length) }
        ensures err { OnErr result (self.new.router ≡ self.old.router) }
        ensures room { KeepsRoom self.old self.new }
    {
        if !self.fits_proxy_will_stop(link, side) {
            return Err(Refusal::Stranger);
        }
        self.outward.set_length_from(in_length);
        self.rouse();
        Ok(None)
    }

    // The outward edge decays toward a new central link, and the router is flagged.
    fn relink(&mut self, fresh: u64, side: Side, other: u8)
        requires { (edge_decays self.old.router.outward ≡ false) × (is_some self.old.router.outward.primary ≡ true) }
        ensures router { self.new.router
            ≡ record (relink self.old.router (outward_onto self.old.router fresh side other)) { flagged = true } }
        ensures room { KeepsRoom self.old self.new }
    {
        self.outward.begin_decay();
        self.outward.set_primary(LinkEnd {
            link: LinkId::Central(fresh),
            side,
            other,
        });
        self.outward.set_length_to(self.out_queue.current());
        self.marked = false;
        self.tried = false;
        self.wake_owed = false;
        self.holds = false;
        self.flagged = true;
    }
}

// Whether an edge decays with both lengths unknown.
fn decays_unknown(edge: &Edge) -> bool
    ensures { result ≡ decays_unknown edge.now }
{
    edge.decays() && edge.length_to().is_none() && edge.length_from().is_none()
}

// What tells the router at the other end of a proxy's inward link that no more than `in_length` items come over it.
#[tactic(auto, unfolding(crate::specs::Bypass::will_stop_message))]
fn will_stop(link: LinkEnd, in_length: u64) -> Sending
    ensures { Some result ≡ will_stop_message (Some link) in_length }
{
    Sending {
        to: link.other,
        message: Message::ProxyWillStop {
            link: link.link,
            side: link.side.opposite(),
            in_length,
        },
    }
}
