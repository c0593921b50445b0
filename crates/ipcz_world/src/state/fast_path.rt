//! A lone parcel: if it is all that the world has to do, it is carried all its way in one go. Several parcels go over one by one: those of one
//! router to another node, and those of several routers within a node.

ghost use Rattle.std.specs.Prelude.{◌≡◌, ◌≤◌, ◌<◌, ◌+◌, ◌⊎◌, ℕ, Option, true, false, [], None, IfSome, IfNone};
ghost use Rattle.ipcz_base.specs.declared.link_end.LinkEnd.{LinkEnd as LinkEndRecord};
ghost use Rattle.ipcz_base.specs.Sides.{opposite};
ghost use Rattle.ipcz_node.specs.Acts.{is_quiet};
ghost use Rattle.ipcz_node.specs.Hands.{deliver, message_lacks_serials};
ghost use Rattle.ipcz_node.specs.Lone.{RestsNext, SendsNext};
ghost use Rattle.ipcz_world.specs.FastPath.{AreQuiet, IsCarried, IsLap, IsLone, IsLoneNode, IsLoneSender, IsPassing, lone_message, with_hand};
ghost use Rattle.ipcz_world.specs.Settling.{next_node};
ghost use Rattle.ipcz_world.specs.Soundness.{HasLengths};
ghost use Rattle.ipcz_world.specs.World.{World, node_at, mail_at, set_node, way};
ghost use Rattle.ipcz_world.specs.Taking.{IsRegular};
ghost use Rattle.ipcz_world.specs.Visiting.{AreIdle, IsPlace, Walk};

use crate::mail::Mail;
use crate::state::State;
use ipcz_base::{Item, LinkEnd, LinkId, Message, Moves};

impl State {
    /// Carries a lone parcel all its way in one go: a send out, a post, a look, a hand, and a rest of each router. It gives how many acts that
    /// was, at most `most`, and the node that is visited next. After six acts no node has an act. If the receiver finds no memory for the
    /// parcel, it stays in hand there: that is after four acts, or three within one node. If there is more to do, or `most` is below 6, nothing
    /// is done.
    #[inline(always)]
    pub(crate) fn carry(&mut self, most: u64) -> (u64, u8)
        requires { IsRegular self.old.world }
        ensures walk { Walk self.old.world self.new.world result.0 result.1 }
        ensures place { IsPlace self.new.world result.1 }
        ensures within { result.0 ≤ most }
        ensures idle { result.0 ≡ 6 → AreIdle self.new.world 0 self.new.world.count }
        ensures carried { 6 ≤ most → (n serial : ℕ) → (link : LinkEndRecord) → IsLone self.old.world n serial link → IsCarried self.old.world self.new.world result.0 }
        ensures none { result.0 ≡ 0 → self.new.world ≡ self.old.world }
    {
        if most < 6 {
            return (0, 0);
        }
        match self.lone_parcel() {
            Some((n, serial, link)) => {
                if n == link.other {
                    self.carry_within(n, serial, link)
                } else {
                    self.carry_over(n, serial, link)
                }
            }
            None => (0, 0),
        }
    }

    // Carries a lone parcel over its link within one node. Of its two routers that of the lower serial rests first, which makes no difference
    // to the node after both.
    #[inline(always)]
    fn carry_within(&mut self, n: u8, serial: u64, link: LinkEnd) -> (u64, u8)
        requires regular { IsRegular self.old.world }
        requires lone { IsLone self.old.world n serial link }
        requires same { n ≡ link.other }
        ensures walk { Walk self.old.world self.new.world result.0 result.1 }
        ensures place { IsPlace self.new.world result.1 }
        ensures within { result.0 ≤ 6 }
        ensures idle { result.0 ≡ 6 → AreIdle self.new.world 0 self.new.world.count }
        ensures begun { 3 ≤ result.0 }
        ensures carried { IsCarried self.old.world self.new.world result.0 }
    {
        let (number, mut item) = self.nodes.node_mut(n).send_next(serial);
        let across = link.side.opposite();
        if self
            .nodes
            .node_mut(n)
            .take_last(link.link, across, number, &mut item)
        {
            self.nodes.node_mut(n).rest(serial);
            return (6, self.next_node(n));
        }
        self.leave_in_hand(n, link, number, item);
        (3, self.next_node(n))
    }

    // Carries a lone parcel over its link to another node.
    #[inline(always)]
    fn carry_over(&mut self, n: u8, serial: u64, link: LinkEnd) -> (u64, u8)
        requires regular { IsRegular self.old.world }
        requires lone { IsLone self.old.world n serial link }
        requires apart { n ≡ link.other → ⊥ }
        ensures walk { Walk self.old.world self.new.world result.0 result.1 }
        ensures place { IsPlace self.new.world result.1 }
        ensures within { result.0 ≤ 6 }
        ensures idle { result.0 ≡ 6 → AreIdle self.new.world 0 self.new.world.count }
        ensures begun { 3 ≤ result.0 }
        ensures carried { IsCarried self.old.world self.new.world result.0 }
    {
        let (number, mut item) = self.nodes.node_mut(n).send_last(serial);
        let side = link.side.opposite();
        if self
            .nodes
            .node_mut(link.other)
            .take_last(link.link, side, number, &mut item)
        {
            return (6, self.next_node(link.other));
        }
        self.leave_in_hand(n, link, number, item);
        (4, self.next_node(n))
    }

    // Leaves an item without ends in the hand of the node at the other end of its link. The link end is made anew, field by field, so that the
    // given one needn't lie in memory, nor the bytes between its fields be copied from place to place.
    #[inline(always)]
    fn leave_in_hand(&mut self, n: u8, link: LinkEnd, number: u64, item: Item)
        requires lengths { HasLengths self.old.world }
        requires here { n < self.old.world.count }
        requires there { link.other < self.old.world.count }
        requires hand { (node_at self.old.world link.other).hand ≡ None }
        requires clear { mail_at self.old.world (way self.old.world n link.other) ≡ Mail.Empty }
        ensures { self.new.world ≡ with_hand self.old.world n link.other (Message.Item link.link (opposite link.side) number item []) }
    {
        let over = LinkEnd {
            link: made_anew(link.link),
            side: link.side,
            other: link.other,
        };
        self.leave_item(n, over, number, item);
    }

    // The same. It stands apart, since it is seldom wanted.
    #[cold]
    #[inline(never)]
    fn leave_item(&mut self, n: u8, link: LinkEnd, number: u64, item: Item)
        requires lengths { HasLengths self.old.world }
        requires here { n < self.old.world.count }
        requires there { link.other < self.old.world.count }
        requires hand { (node_at self.old.world link.other).hand ≡ None }
        requires clear { mail_at self.old.world (way self.old.world n link.other) ≡ Mail.Empty }
        ensures { self.new.world ≡ with_hand self.old.world n link.other (Message.Item link.link (opposite link.side) number item []) }
    {
        let place = self.way(n, link.other);
        self.nodes.node_mut(link.other).look(n);
        let message = Message::Item {
            link: link.link,
            side: link.side.opposite(),
            n: number,
            item,
            moves: Moves::from_vec(Vec::new(self.alloc)),
        };
        self.mail.put_back(place, message);
    }

    /// Carries items of the only node that isn't quiet, one after the other, if its first act is to send one: the first of them at least leaves
    /// its router and comes to its mailbox, or further. It gives how many acts that was, at most `limit`, and the node that is visited next. What
    /// is left to do then is left. If `limit` is below 6, nothing is done.
    #[inline(never)]
    pub(crate) fn carry_several(&mut self, limit: u64) -> (u64, u8)
        requires { IsRegular self.old.world }
        ensures walk { Walk self.old.world self.new.world result.0 result.1 }
        ensures place { IsPlace self.new.world result.1 }
        ensures within { result.0 ≤ limit }
        ensures begun { 6 ≤ limit → (n serial : ℕ) → (link : LinkEndRecord) → IsLoneSender self.old.world n serial link → 3 ≤ result.0 }
    {
        if limit < 6 {
            return (0, 0);
        }
        match self.lone_sender() {
            Some((n, serial, link)) => {
                if n == link.other {
                    self.pass_within(n, limit)
                } else {
                    self.pass_over(n, serial, link, limit)
                }
            }
            None => (0, 0),
        }
    }

    // Passes items to another node, one after the other, and leaves the last of them in its hand. It gives how many acts that was, and the node
    // that is visited next.
    #[inline(always)]
    fn pass_over(&mut self, n: u8, serial: u64, link: LinkEnd, most: u64) -> (u64, u8)
        requires regular { IsRegular self.old.world }
        requires lone { IsLoneSender self.old.world n serial link }
        requires apart { n ≡ link.other → ⊥ }
        requires enough { 6 ≤ most }
        ensures walk { Walk self.old.world self.new.world result.0 result.1 }
        ensures place { IsPlace self.new.world result.1 }
        ensures within { result.0 ≤ most }
        ensures begun { 3 ≤ result.0 }
    {
        let to = link.other;
        let (first, sent) = self.nodes.node_mut(n).send_next(serial);
        let mut over = link;
        let mut number = first;
        let mut item = sent;
        let mut acts = 3;
        while most - acts >= 4 && self.pass_on(n, &mut over, &mut number, &mut item) {
            acts += 4;
        }
        self.leave_in_hand(n, over, number, item);
        (acts, self.next_node(to))
    }

    // Passes an item on that has left its router and that its taker is to find in its hand: before it is handed, the next item leaves, and is
    // posted and looked at after that. If there is no next one for the same node, or the item isn't taken, nothing is done.
    #[inline(always)]
    fn pass_on(&mut self, n: u8, over: &mut LinkEnd, number: &mut u64, item: &mut Item) -> bool
        requires passing { IsPassing self.old.world n over.old.other }
        requires apart { n ≡ over.old.other → ⊥ }
        ensures passing { result ≡ true → IsPassing self.new.world n over.old.other }
        ensures to { over.new.other ≡ over.old.other }
        ensures walk { result ≡ true → (w : World) → (acts : ℕ) →
            Walk w (with_hand self.old.world n over.old.other (lone_message over.old number.old item.old)) acts (next_node self.old.world over.old.other) →
            Walk w (with_hand self.new.world n over.old.other (lone_message over.new number.new item.new)) (acts + 4)
            (next_node self.new.world over.old.other) }
        ensures left { result ≡ false → (self.new.world ≡ self.old.world) × (over.new ≡ over.old) × (number.new ≡ number.old) × (item.new ≡ item.old) }
    {
        let to = over.other;
        let Some((serial, link)) = self.nodes.node(n).next_sender() else {
            return false;
        };
        if link.other != to {
            return false;
        }
        if !self.hand_lone(n, over, *number, item) {
            return false;
        }
        let (next, sent) = self.nodes.node_mut(n).send_next(serial);
        *over = link;
        *number = next;
        *item = sent;
        true
    }

    // Passes items to a node's own routers, one after the other, and lets its routers rest between them: until the next act is neither a send of
    // an item nor a rest, or an item is left in hand.
    #[inline(always)]
    fn pass_within(&mut self, n: u8, most: u64) -> (u64, u8)
        requires passing { IsPassing self.old.world n n }
        requires sends { (serial : ℕ) × (link : LinkEndRecord) × SendsNext (node_at self.old.world n) serial link × (n ≡ link.other) }
        requires enough { 6 ≤ most }
        ensures walk { Walk self.old.world self.new.world result.0 result.1 }
        ensures place { IsPlace self.new.world result.1 }
        ensures within { result.0 ≤ most }
        ensures begun { 3 ≤ result.0 }
    {
        let mut acts = self.pass_at(n);
        let mut goes_on = acts == 4;
        while goes_on && most - acts >= 4 {
            let more = self.pass_or_rest(n);
            goes_on = more == 4 || more == 1;
            acts += more;
        }
        (acts, self.next_node(n))
    }

    // Passes an item within a node, or if its first act is a rest, lets that router rest. It gives how many acts that was: as `pass_at`, or 1.
    #[inline(always)]
    fn pass_or_rest(&mut self, n: u8) -> u64
        requires { IsPassing self.old.world n n }
        ensures acts { IsLap result }
        ensures passing { (result ≡ 4) ⊎ (result ≡ 1) → IsPassing self.new.world n n }
        ensures none { result ≡ 0 → self.new.world ≡ self.old.world }
        ensures walk { 1 ≤ result → (w : World) → (acts from : ℕ) → Walk w self.old.world acts from → IsPlace self.old.world from →
            Walk w self.new.world (acts + result) (next_node self.new.world n) }
        ensures count { self.new.world.count ≡ self.old.world.count }
    {
        match self.rest_at(n) {
            0 => self.pass_at(n),
            acts => acts,
        }
    }

    // Lets the router of a node rest whose rest is the node's first act. It gives how many acts that was: 1, or 0 if that isn't a rest.
    #[inline(always)]
    fn rest_at(&mut self, n: u8) -> u64
        requires { IsPassing self.old.world n n }
        ensures acts { (result ≡ 0) ⊎ (result ≡ 1) }
        ensures passing { IsPassing self.new.world n n }
        ensures none { result ≡ 0 → self.new.world ≡ self.old.world }
        ensures walk { result ≡ 1 → (w : World) → (acts from : ℕ) → Walk w self.old.world acts from → IsPlace self.old.world from →
            Walk w self.new.world (acts + 1) (next_node self.new.world n) }
        ensures count { self.new.world.count ≡ self.old.world.count }
        ensures rests { (serial : ℕ) → RestsNext (node_at self.old.world n) serial → result ≡ 1 }
    {
        let Some(serial) = self.nodes.node(n).next_rest() else {
            return 0;
        };
        self.nodes.node_mut(n).rest(serial);
        1
    }

    // Passes an item within a node: it leaves its router, is posted, looked at and handed. It gives how many acts that was: 4, or 3 if the item
    // isn't taken and stays in hand, or 0 if the first act isn't such a send.
    #[inline(always)]
    fn pass_at(&mut self, n: u8) -> u64
        requires { IsPassing self.old.world n n }
        ensures passing { result ≡ 4 → IsPassing self.new.world n n }
        ensures acts { (result ≡ 0) ⊎ (result ≡ 3) ⊎ (result ≡ 4) }
        ensures none { result ≡ 0 → self.new.world ≡ self.old.world }
        ensures walk { 3 ≤ result → (w : World) → (acts from : ℕ) → Walk w self.old.world acts from → IsPlace self.old.world from →
            Walk w self.new.world (acts + result) (next_node self.new.world n) }
        ensures count { self.new.world.count ≡ self.old.world.count }
        ensures begun { (serial : ℕ) → (link : LinkEndRecord) → SendsNext (node_at self.old.world n) serial link → n ≡ link.other → 3 ≤ result }
    {
        let Some((serial, link)) = self.nodes.node(n).next_sender() else {
            return 0;
        };
        if link.other != n {
            return 0;
        }
        let (number, mut item) = self.nodes.node_mut(n).send_next(serial);
        if self.hand_lone(n, &link, number, &mut item) {
            return 4;
        }
        self.leave_in_hand(n, link, number, item);
        3
    }

    // Hands an item without ends to the node at the other end of its link, and tells whether it was taken: `item` counts for nothing then. Else
    // all stays as it is.
    #[inline(always)]
    fn hand_lone(&mut self, n: u8, over: &LinkEnd, number: u64, item: &mut Item) -> bool
        requires lengths { HasLengths self.old.world }
        requires there { over.now.other < self.old.world.count }
        ensures taken { result ≡ true → (source : Option ℕ) → self.new.world ≡ set_node self.old.world over.now.other
            (deliver (node_at self.old.world over.now.other) n (lone_message over.now number item.old) source) }
        ensures allowed { result ≡ true → (source : Option ℕ) →
            message_lacks_serials (node_at self.old.world over.now.other) n (lone_message over.now number item.old) source ≡ false }
        ensures left { result ≡ false → (self.new.world ≡ self.old.world) × (item.new ≡ item.old) }
    {
        let across = over.side.opposite();
        let moves = Moves::from_vec(Vec::new(self.alloc));
        let node = self.nodes.node_mut(over.other);
        match node.take_lone(n, over.link, across, number, item, &moves) {
            Ok(taken) => taken,
            Err(_) => false,
        }
    }

    // The only node that isn't quiet, with the router that sends first and the link that it sends over, if its item is to be carried.
    #[inline(always)]
    fn lone_sender(&self) -> Option<(u8, u64, LinkEnd)>
        requires { IsRegular self.now.world }
        ensures some { IfSome result (λ p. IsLoneSender self.now.world p.0 p.1 p.2) }
        ensures none { IfNone result ((n serial : ℕ) → (link : LinkEndRecord) → IsLoneSender self.now.world n serial link → ⊥) }
    {
        if self.mail.has_full() {
            return None;
        }
        let Some(n) = self.lone_node() else {
            return None;
        };
        let Some((serial, link)) = self.nodes.node(n).next_sender() else {
            return None;
        };
        if link.other >= self.count {
            return None;
        }
        if !self.mail.is_clear(self.way(n, link.other)) {
            return None;
        }
        Some((n, serial, link))
    }

    // The only node that isn't quiet, with the router that sends and the link that it sends over, if that is a lone parcel.
    #[inline(always)]
    fn lone_parcel(&self) -> Option<(u8, u64, LinkEnd)>
        requires { IsRegular self.now.world }
        ensures some { IfSome result (λ p. IsLone self.now.world p.0 p.1 p.2) }
        ensures none { IfNone result ((n serial : ℕ) → (link : LinkEndRecord) → IsLone self.now.world n serial link → ⊥) }
    {
        if self.mail.has_full() {
            return None;
        }
        let Some(n) = self.lone_node() else {
            return None;
        };
        let Some((serial, link)) = self.nodes.node(n).only_sender() else {
            return None;
        };
        if link.other >= self.count || !self.mail.is_clear(self.way(n, link.other)) {
            return None;
        }
        Some((n, serial, link))
    }

    // The node that isn't quiet, if just one isn't.
    #[inline(always)]
    fn lone_node(&self) -> Option<u8>
        requires { IsRegular self.now.world }
        ensures here { IfSome result (λ n. n < self.now.world.count) }
        ensures busy { IfSome result (λ n. is_quiet (node_at self.now.world n) ≡ false) }
        ensures before { IfSome result (λ n. AreQuiet self.now.world 0 n) }
        ensures behind { IfSome result (λ n. AreQuiet self.now.world (n + 1) self.now.world.count) }
        ensures none { IfNone result ((n : ℕ) → IsLoneNode self.now.world n → ⊥) }
    {
        let Some(n) = self.first_not_quiet(0) else {
            return None;
        };
        match self.first_not_quiet(n + 1) {
            Some(_) => None,
            None => Some(n),
        }
    }

    // The first node from one number on that isn't quiet.
    #[inline(always)]
    #[tactic(auto, unfolding(crate::specs::World::node_at))]
    fn first_not_quiet(&self, from: u8) -> Option<u8>
        requires { IsRegular self.now.world }
        ensures here { IfSome result (λ n. n < self.now.world.count) }
        ensures after { IfSome result (λ n. from ≤ n) }
        ensures busy { IfSome result (λ n. is_quiet (node_at self.now.world n) ≡ false) }
        ensures before { IfSome result (λ n. AreQuiet self.now.world from n) }
        ensures none { IfNone result (AreQuiet self.now.world from self.now.world.count) }
    {
        for n in from..self.count {
            if !self.nodes.node(n).quiet() {
                return Some(n);
            }
        }
        None
    }
}

// The same link, made anew.
#[inline(always)]
fn made_anew(link: LinkId) -> LinkId
    ensures { result ≡ link }
{
    match link {
        LinkId::Central(word) => LinkId::Central(word),
        LinkId::Peripheral { node, serial } => LinkId::Peripheral { node, serial },
    }
}
