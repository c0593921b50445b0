//! A router that is given a message whole, or is roused by one, is filed again.

ghost use Rattle.std.specs.Prelude.{◌≡◌, ◌≤◌, Some, true, IsSomeAnd};
ghost use Rattle.std.specs.FinMap.{get};
ghost use Rattle.ipcz_router.specs.Router.{Router as RouterRecord};
ghost use Rattle.ipcz_router.specs.Hearing.{hears, hear, answer_to, links_brought};
ghost use Rattle.ipcz_node.specs.Rooms.{hear_filed};

use super::Directory;
use super::filing::follow;
use ipcz_base::Message;
use ipcz_router::{Router, Sending, links_brought};

impl Directory {
    /// Brings a message from the node `sender` to the router of the serial, which hears it, as `Router::hear`. The answer is what is to
    /// be sent next.
    pub fn hear(
        &mut self,
        serial: u64,
        sender: u8,
        message: &Message,
        source: Option<u8>,
    ) -> Option<Sending>
        requires hears { IsSomeAnd (get self.old.filed.routers serial) (λ r. hears r sender message.now source ≡ true) }
        requires room { links_brought message.now ≤ self.old.filed.links }
        ensures router { (r : RouterRecord) → get self.old.filed.routers serial ≡ Some r →
            self.new.filed ≡ hear_filed self.old.filed serial r sender message.now }
        ensures sending { (r : RouterRecord) → get self.old.filed.routers serial ≡ Some r → result ≡ answer_to r message.now }
    {
        if links_brought(message) == 0 {
            self.hear_in_place(serial, sender, message, source)
        } else {
            self.hear_on_links(serial, sender, message, source)
        }
    }

    // A message that brings no link: only the flag of its router is to be filed.
    #[inline(always)]
    fn hear_in_place(
        &mut self,
        serial: u64,
        sender: u8,
        message: &Message,
        source: Option<u8>,
    ) -> Option<Sending>
        requires hears { IsSomeAnd (get self.old.filed.routers serial) (λ r. hears r sender message.now source ≡ true) }
        requires none { links_brought message.now ≡ 0 }
        ensures router { (r : RouterRecord) → get self.old.filed.routers serial ≡ Some r →
            self.new.filed ≡ hear_filed self.old.filed serial r sender message.now }
        ensures sending { (r : RouterRecord) → get self.old.filed.routers serial ≡ Some r → result ≡ answer_to r message.now }
    {
        let router = self.routers.router_mut(serial);
        let was = router.is_flagged();
        let answer = hear(router, sender, message, source);
        let is = router.is_flagged();
        follow(&mut self.files.flagged, serial, was, is);
        answer
    }

    // A message that may bring a link.
    #[inline(always)]
    fn hear_on_links(
        &mut self,
        serial: u64,
        sender: u8,
        message: &Message,
        source: Option<u8>,
    ) -> Option<Sending>
        requires hears { IsSomeAnd (get self.old.filed.routers serial) (λ r. hears r sender message.now source ≡ true) }
        requires room { links_brought message.now ≤ self.old.filed.links }
        ensures router { (r : RouterRecord) → get self.old.filed.routers serial ≡ Some r →
            self.new.filed ≡ hear_filed self.old.filed serial r sender message.now }
        ensures sending { (r : RouterRecord) → get self.old.filed.routers serial ≡ Some r → result ≡ answer_to r message.now }
    {
        let router = self.routers.router_mut(serial);
        let was = router.filing();
        let answer = hear(router, sender, message, source);
        let is = router.filing();
        self.files.refile(serial, &was, &is);
        self.more -= links_brought(message);
        answer
    }
}

// The call of the router, which hears the message.
fn hear(router: &mut Router, sender: u8, message: &Message, source: Option<u8>) -> Option<Sending>
    requires { hears router.old.router sender message.now source ≡ true }
    ensures router { router.new.router ≡ hear router.old.router sender message.now }
    ensures sending { result ≡ answer_to router.old.router message.now }
{
    let Ok(sending) = router.hear(sender, message, source) else {
        unreachable!()
    };
    sending
}
