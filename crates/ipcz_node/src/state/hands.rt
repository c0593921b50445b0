//! What a node does with a message that it gets.
ghost use Rattle.std.specs.Prelude.{◌≡◌, ◌<◌, ◌≤◌, ◌+◌, ◌^◌, Some, is_some, true, false, length, if◌then◌else◌, Ok, IsOk, OnOk, OnErr, IfOk, IfErr};
ghost use Rattle.std.specs.Prelude.{IfSome, IfNone, IsSomeAnd, IsTrue, ℕ, Option, []};
ghost use Rattle.ipcz_base.specs.Items.{ends_in};
ghost use Rattle.ipcz_base.specs.Limits.{no_number, last_number, has_serials};
ghost use Rattle.ipcz_router.specs.Router.{Router as RouterRecord, outward_has, router_has, from_descriptor};
ghost use Rattle.ipcz_router.specs.Calls.{has_place_for};
ghost use Rattle.ipcz_node.specs.Node.{router_in, link_router, found, add_router, add_stray};
ghost use Rattle.ipcz_node.specs.RoomyNodes.{AreLow};
ghost use Rattle.ipcz_node.specs.Hands.{has_moved, is_new_move, fit_moves, fits_from, fits_item, make_terminals, take_in, free_hand, fits, handle};
ghost use Rattle.ipcz_node.specs.Hands.{deliver, message_lacks_serials, message_grows, grows_where_it_fits, serials_in};
ghost use Rattle.ipcz_node.specs.Deliveries.{IsDeliveredInPlace, IsTakenAtOnce};
ghost use Rattle.ipcz_node.specs.Events.{hand_event};
ghost use Rattle.ipcz_node.specs.Telling.{HasRoomFor, HasRoomForItem, brings_item};
ghost use Rattle.std.specs.Prelude.{◌&&◌, nat_eq, nat_lt};

use super::NodeState;
use crate::directory::count_ends;
use crate::happened::{Happened, kind_of, link_asked, side_asked};
use ipcz_base::{Descriptor, End, Item, LinkId, Message, Moves, Refusal, Side};
use std::alloc::AllocError;
use std::mem;

impl NodeState {
    // Whether a move can be made a terminal here.
    fn is_new_move(&self, d: &Descriptor) -> bool
        ensures { result ≡ is_new_move self.now.node d.now }
    {
        !self.is_named(d.link, Side::B) && d.next_out <= u64::MAX - 2
    }

    // Whether the moves are one for each end, and each can be made a terminal here.
    fn fit_moves(&self, ends: &[End], moves: &[Descriptor]) -> bool
        ensures { result ≡ fit_moves self.now.node ends.now moves.now }
    {
        let (mut ends, mut moves) = (ends, moves);
        while let [end, later_ends @ ..] = ends {
            let [d, later_moves @ ..] = moves else {
                return false;
            };
            if d.end != *end || !self.is_new_move(d) || has_moved(d.link, later_moves) {
                return false;
            }
            ends = later_ends;
            moves = later_moves;
        }
        moves.is_empty()
    }

    // Whether an item's moves fit, as it came from a node.
    fn fits_from(&self, sender: u8, item: &Item, moves: &Moves) -> bool
        ensures { result ≡ fits_from self.now.node sender item.now moves.now }
    {
        if sender == self.number {
            return moves.is_empty();
        }
        match item {
            Item::Parcel(parcel) => self.fit_moves(parcel.ends.as_slice(), moves.as_slice()),
            Item::Mark | Item::Gone => moves.is_empty(),
        }
    }

    // Makes the terminal that a move says.
    fn make_terminal(&mut self, sender: u8, d: &Descriptor)
        requires room { 0 < self.old.room.routers }
        requires serials { self.old.node.next_router < no_number }
        requires numbers { d.now.next_out ≤ last_number }
        ensures node { self.new.node ≡ add_router self.old.node (from_descriptor d.now sender) }
        ensures room { self.old.room.routers ≤ self.new.room.routers + 1 }
    {
        self.routers.add_terminal(self.alloc, d, sender);
    }

    // Makes the terminals that the moves say, in order.
    fn make_terminals(&mut self, sender: u8, moves: &[Descriptor])
        requires room { length moves.now ≤ self.old.room.routers }
        requires serials { self.old.node.next_router + length moves.now ≤ no_number }
        requires numbers { AreLow moves.now }
        ensures { self.new.node ≡ make_terminals self.old.node sender moves.now }
    {
        let mut moves = moves;
        while let [d, later @ ..] = moves {
            self.make_terminal(sender, d);
            moves = later;
        }
    }

    // Keeps a message among the strays. It is left as it is if there is no room for it, and counts for nothing if it is kept.
    #[cold]
    #[inline(never)]
    fn keep_stray(&mut self, message: &mut Message) -> Result<(), Refusal>
        ensures ok { OnOk result (self.new.node ≡ add_stray self.old.node message.old) }
        ensures why { IfErr result (λ e. e ≡ Refusal.OutOfMemory) }
        ensures full { 0 < self.old.room.strays → IsOk result }
        ensures err { OnErr result ((message.new ≡ message.old) × (self.new.node ≡ self.old.node)) }
    {
        let nothing = Message::Flush {
            link: LinkId::Central(0),
            side: Side::A,
        };
        let given = mem::replace(message, nothing);
        match self.strays.push(given) {
            Ok(()) => Ok(()),
            Err(failed) => {
                *message = failed.value;
                Err(Refusal::OutOfMemory)
            }
        }
    }

    // The hand is empty, if what was in it came from this node.
    #[tactic(auto, unfolding(crate::specs::Hands::is_hand_of))]
    fn free_hand(&mut self, sender: u8)
        ensures { self.new.node ≡ free_hand self.old.node sender }
    {
        if let Some(from) = self.hand {
            if from == sender {
                self.hand = None;
            }
        }
    }

    // Where an item fits.
    #[tactic(auto, unfolding(crate::specs::Hands::fits_item))]
    fn place_for(
        &self,
        sender: u8,
        link: LinkId,
        side: Side,
        n: u64,
        item: &Item,
        moves: &Moves,
    ) -> Option<u64>
        ensures none { IfNone result (fits_item self.now.node sender link side n item.now moves.now (link_router self.now.node link side) ≡
            false) }
        ensures some { IfSome result (λ serial. fits_item self.now.node sender link side n item.now moves.now
            (link_router self.now.node link side) ≡ true) }
        ensures moves { IfSome result (λ serial. fits_from self.now.node sender item.now moves.now ≡ true) }
        ensures stands { IfSome result (λ serial. IsSomeAnd (router_in self.now.node serial) (λ r. router_has r link side ≡ true)) }
        ensures found { IfSome result (λ serial. IsSomeAnd (router_in self.now.node serial)
            (λ r. link_router self.now.node link side ≡ Some (found serial r))) }
        ensures number { IfSome result (λ serial. n < no_number) }
    {
        let serial = self.link_serial(link, side)?;
        if n < u64::MAX
            && self.has_place_at(serial, link, side, n)
            && self.fits_from(sender, item, moves)
        {
            Some(serial)
        } else {
            None
        }
    }

    // Whether an item has its place at the router of the serial.
    fn has_place_at(&self, serial: u64, link: LinkId, side: Side, n: u64) -> bool
        requires { is_some (router_in self.now.node serial) ≡ true }
        ensures { (r : RouterRecord) → router_in self.now.node serial ≡ Some r → result ≡ has_place_for r (outward_has r link side) n }
    {
        match self.routers.router(serial) {
            Some(router) => router.has_place_for(link, side, n),
            None => unreachable!(),
        }
    }

    // The router of the serial takes the item, and its moves become terminals. The item is left as it is if it is refused, and counts for
    // nothing if it is taken.
    fn take_item(
        &mut self,
        serial: u64,
        sender: u8,
        link: LinkId,
        side: Side,
        n: u64,
        item: &mut Item,
        moves: &Moves,
    ) -> Result<(), AllocError>
        requires stands { IsSomeAnd (router_in self.old.node serial) (λ r. router_has r link side ≡ true) }
        requires number { n < no_number }
        requires numbers { AreLow moves.now }
        requires serials { has_serials self.old.node.next_router (length moves.now) ≡ true }
        ensures place { (r : RouterRecord) → router_in self.old.node serial ≡ Some r →
            OnOk result (has_place_for r (outward_has r link side) n ≡ true) }
        ensures ok { (r : RouterRecord) → router_in self.old.node serial ≡ Some r →
            OnOk result (self.new.node ≡ take_in self.old.node sender link side n item.old moves.now serial r) }
        ensures full { (r : RouterRecord) → router_in self.old.node serial ≡ Some r →
            has_place_for r (outward_has r link side) n ≡ true → HasRoomForItem self.old link side n item.old (found serial r) →
            length moves.now ≤ self.old.room.routers → IsOk result }
        ensures err { OnErr result ((item.new ≡ item.old) × (self.new.node ≡ self.old.node)) }
    {
        let count = moves.as_slice().len();
        if count > 0 && self.routers.reserve(count, 0).is_err() {
            return Err(AllocError);
        }
        let given = mem::replace(item, Item::Mark);
        if let Err((_, refused)) = self.routers.accept(serial, link, side, n, given) {
            *item = refused;
            return Err(AllocError);
        }
        self.make_terminals(sender, moves.as_slice());
        Ok(())
    }

    // Whether an item fits.
    #[tactic(auto, unfolding(crate::specs::Hands::fits))]
    fn fits_item(
        &self,
        sender: u8,
        link: LinkId,
        side: Side,
        n: u64,
        item: &Item,
        moves: &Moves,
    ) -> bool
        ensures { result ≡ fits self.now.node sender (Message.Item link side n item.now moves.now) None }
    {
        self.place_for(sender, link, side, n, item, moves).is_some()
    }

    // Handles an item that fits: its router takes it, and its moves become terminals.
    #[tactic(auto, using(crate::proofs::Handing::low_moves), unfolding(crate::specs::Hands::fits, crate::specs::Hands::handle, crate::specs::Node::on_found))]
    fn handle_item(
        &mut self,
        sender: u8,
        link: LinkId,
        side: Side,
        n: u64,
        item: &mut Item,
        moves: &Moves,
    ) -> Result<(), AllocError>
        requires fits { fits self.old.node sender (Message.Item link side n item.old moves.now) None ≡ true }
        requires serials { has_serials self.old.node.next_router (length moves.now) ≡ true }
        ensures ok { OnOk result (self.new.node ≡ handle self.old.node sender (Message.Item link side n item.old moves.now)) }
        ensures full { HasRoomFor self.old (Message.Item link side n item.old moves.now) → IsOk result }
        ensures err { OnErr result ((item.new ≡ item.old) × (self.new.node ≡ self.old.node)) }
    {
        match self.link_serial(link, side) {
            Some(serial) => self.take_item(serial, sender, link, side, n, item, moves),
            None => unreachable!(),
        }
    }
}

impl NodeState {
    // Whether a message from a node fits.
    #[tactic(auto, unfolding(crate::specs::Hands::fits, crate::specs::Telling::brings_item))]
    fn fits(&self, sender: u8, message: &Message, source: Option<u8>) -> bool
        ensures { result ≡ fits self.now.node sender message.now source }
    {
        match message {
            Message::Item {
                link,
                side,
                n,
                item,
                moves,
            } => self.fits_item(sender, *link, *side, *n, item, moves),
            _ => self.is_heard(sender, message, source),
        }
    }

    // Handles a message that fits, and for which there are serials. It is left as it is if there is no room for what it makes grow, and
    // counts for nothing if it is handled.
    #[tactic(auto, unfolding(crate::specs::Hands::fits, crate::specs::Hands::serials_in, crate::specs::Hands::grows_where_it_fits, crate::specs::Telling::brings_item))]
    fn handle(
        &mut self,
        sender: u8,
        message: &mut Message,
        source: Option<u8>,
    ) -> Result<(), AllocError>
        requires fits { fits self.old.node sender message.old source ≡ true }
        requires serials { has_serials self.old.node.next_router (serials_in message.old) ≡ true }
        ensures ok { OnOk result (self.new.node ≡ handle self.old.node sender message.old) }
        ensures grows { grows_where_it_fits message.old ≡ false → IsOk result }
        ensures full { HasRoomFor self.old message.old → IsOk result }
        ensures err { OnErr result ((message.new ≡ message.old) × (self.new.node ≡ self.old.node)) }
    {
        match message {
            Message::Item {
                link,
                side,
                n,
                item,
                moves,
            } => self.handle_item(sender, *link, *side, *n, item, moves),
            _ => self.hear(sender, message, source),
        }
    }

    // Handles a message, or keeps it whole if it doesn't fit, as is known.
    #[tactic(auto, using(crate::proofs::Handing::takes_no_serials))]
    fn receive(
        &mut self,
        sender: u8,
        message: &mut Message,
        source: Option<u8>,
        has_place: bool,
    ) -> Result<(), Refusal>
        requires { has_place ≡ fits self.old.node sender message.old source }
        ensures { IsDeliveredInPlace self.old sender message.old message.new source
            (if fits self.old.node sender message.old source
            then handle self.old.node sender message.old else add_stray self.old.node message.old)
            result self.new }
    {
        if !has_place {
            return self.keep_stray(message);
        }
        let count = serials_in(message);
        if self.routers.next_serial() > u64::MAX - count as u64 {
            return Err(Refusal::NumbersEnd);
        }
        match self.handle(sender, message, source) {
            Ok(()) => Ok(()),
            Err(_) => Err(Refusal::OutOfMemory),
        }
    }

    /// What delivering a message from a node is seen to do.
    pub fn hand_event(&self, from: u8, message: &Message, source: Option<u8>) -> Happened
        ensures { result ≡ hand_event self.now.node from message.now source }
    {
        let has_place = self.fits(from, message, source);
        self.hand_event_of(from, message, source, has_place)
    }

    // The same, if it is known whether the message fits.
    #[tactic(auto, unfolding(crate::specs::Events::hand_event))]
    fn hand_event_of(
        &self,
        sender: u8,
        message: &Message,
        source: Option<u8>,
        has_place: bool,
    ) -> Happened
        requires { has_place ≡ fits self.now.node sender message.now source }
        ensures { result ≡ hand_event self.now.node sender message.now source }
    {
        let (link, side) = (link_asked(message), side_asked(message));
        let unfit = !(has_place && self.is_named(link, side));
        Happened::Hand {
            kind: kind_of(message),
            link,
            unfit,
        }
    }

    /// Delivers a message from the node `from`, which is below the number of nodes: a router here handles it, or, if it
    /// doesn't fit, it is kept among the strays; a Flush whose link no router here has is dropped (docs/PROTOCOL.md, "Strays").
    /// If the message in hand was from that node, the hand is empty then. An AcceptBypass fits only if `source`, the node that the
    /// old link's word names, is `from` (docs/PROTOCOL.md, "The allowed source"); no other message looks at it.
    ///
    /// A refused message is handed back, and nothing has changed. It is `NumbersEnd` if the message fits and would make
    /// more routers than serials are left for, and otherwise `OutOfMemory`. A message that makes nothing grow, as a Flush or a
    /// ProxyWillStop that fits, is never refused. No other is refused `OutOfMemory` if it fits and there is room for what it
    /// makes a router take and tell, nor if it doesn't fit and there is room for a stray more.
    ///
    /// It doesn't ask `deliver_at_once`, so that a caller who has asked it may go on here.
    #[inline(never)]
    pub fn deliver(
        &mut self,
        from: u8,
        message: Message,
        source: Option<u8>,
    ) -> Result<Happened, (Refusal, Message)>
        requires { from < self.old.node.count }
        ensures ok { OnOk result (self.new.node ≡ deliver self.old.node from message source) }
        ensures event { IfOk result (λ h. h ≡ hand_event self.old.node from message source) }
        ensures allowed { OnOk result (message_lacks_serials self.old.node from message source ≡ false) }
        ensures why { IfErr result
            (λ e. e.0 ≡ (if message_lacks_serials self.old.node from message source then Refusal.NumbersEnd else Refusal.OutOfMemory)) }
        ensures grows { message_grows self.old.node from message source ≡ false → IsOk result }
        ensures full { fits self.old.node from message source ≡ true → HasRoomFor self.old message →
            message_lacks_serials self.old.node from message source ≡ false → IsOk result }
        ensures stray { fits self.old.node from message source ≡ false → 0 < self.old.room.strays → IsOk result }
        ensures err { IfErr result (λ e. (e.1 ≡ message) × (self.new.node ≡ self.old.node)) }
    {
        let mut message = message;
        let has_place = self.fits(from, &message, source);
        let event = self.hand_event_of(from, &message, source, has_place);
        match self.take_from_hand(from, &mut message, source, has_place) {
            Ok(()) => Ok(event),
            Err(why) => Err((why, message)),
        }
    }

    /// Delivers a message as `deliver` does, but from where it lies, and doesn't tell what happened: it is left as it is if it is refused, and
    /// counts for nothing if it is delivered.
    #[tactic(auto, unfolding(crate::specs::Telling::brings_item))]
    pub fn deliver_in_place(
        &mut self,
        from: u8,
        message: &mut Message,
        source: Option<u8>,
    ) -> Result<(), Refusal>
        ensures { IsDeliveredInPlace self.old from message.old message.new source (deliver self.old.node from message.old source)
            result self.new }
    {
        if let Message::Item { .. } = message {
            let fits = self.fits(from, message, source);
            return self.take_from_hand(from, message, source, fits);
        }
        self.deliver_news(from, message, source)
    }

    // The same of a message that brings no item: the router that it asks for is looked for once.
    #[tactic(auto, using(crate::proofs::Handing::takes_no_serials), unfolding(crate::specs::Hands::deliver, crate::specs::Hands::serials_in, crate::specs::Telling::brings_item))]
    fn deliver_news(
        &mut self,
        from: u8,
        message: &mut Message,
        source: Option<u8>,
    ) -> Result<(), Refusal>
        requires { brings_item message.old ≡ false }
        ensures { IsDeliveredInPlace self.old from message.old message.new source (deliver self.old.node from message.old source)
            result self.new }
    {
        self.counts_serials();
        let asked = self.asked(message);
        if !self.is_heard_by(asked, from, message, source) {
            self.keep_stray(message)?;
        } else if self.hear_by(asked, from, message, source).is_err() {
            return Err(Refusal::OutOfMemory);
        }
        self.free_hand(from);
        Ok(())
    }

    /// Delivers a message from the node `from` as `deliver` does, but only an item without ends and moves that has its place at a router here,
    /// and tells whether it was one: what is left of the message counts for nothing then. Each other message stays as it is, to be
    /// delivered, and so does the node with all its room.
    ///
    /// It answers `OutOfMemory` if there was no room for such an item and none was found; then nothing has changed.
    #[tactic(auto, unfolding(crate::specs::Telling::brings_item, crate::specs::Telling::is_lone))]
    pub fn deliver_at_once(&mut self, from: u8, message: &mut Message) -> Result<bool, Refusal>
        ensures tried { (source : Option ℕ) → IsTakenAtOnce self.old from message.old source result self.new }
        ensures left { IfOk result (λ taken. taken ≡ false → (message.new ≡ message.old) × (self.new ≡ self.old)) }
        ensures err { OnErr result ((message.new ≡ message.old) × (self.new.node ≡ self.old.node)) }
        ensures other { brings_item message.old ≡ false → result ≡ Ok false }
    {
        match message {
            Message::Item {
                link,
                side,
                n,
                item,
                moves,
            } => self.take_lone(from, *link, *side, *n, item, moves),
            _ => Ok(false),
        }
    }

    /// The same of the item that a message brings, and of its moves: `item` counts for nothing if it was taken.
    #[inline(always)]
    pub fn take_lone(
        &mut self,
        from: u8,
        link: LinkId,
        side: Side,
        n: u64,
        item: &mut Item,
        moves: &Moves,
    ) -> Result<bool, Refusal>
        ensures tried { (source : Option ℕ) →
            IsTakenAtOnce self.old from (Message.Item link side n item.old moves.now) source result self.new }
        ensures left { IfOk result (λ taken. taken ≡ false → (item.new ≡ item.old) × (self.new ≡ self.old)) }
        ensures err { OnErr result ((item.new ≡ item.old) × (self.new.node ≡ self.old.node)) }
    {
        self.counts_serials();
        if !is_lone_item(n, item, moves) {
            return Ok(false);
        }
        let Some(serial) = self.link_serial(link, side) else {
            return Ok(false);
        };
        match self.routers.accept_lone(serial, link, side, n, item) {
            Ok(()) => {
                self.free_hand(from);
                Ok(true)
            }
            Err(why) => match why {
                Refusal::OutOfMemory => Err(why),
                _ => Ok(false),
            },
        }
    }

    // Receives a message of which it is known whether it fits, and empties the hand. The message is left as it is if it is refused, and
    // counts for nothing if it is received.
    #[tactic(auto, unfolding(crate::specs::Hands::deliver))]
    fn take_from_hand(
        &mut self,
        from: u8,
        message: &mut Message,
        source: Option<u8>,
        has_place: bool,
    ) -> Result<(), Refusal>
        requires { has_place ≡ fits self.old.node from message.old source }
        ensures { IsDeliveredInPlace self.old from message.old message.new source (deliver self.old.node from message.old source)
            result self.new }
    {
        self.receive(from, message, source, has_place)?;
        self.free_hand(from);
        Ok(())
    }
}

// Whether one of these descriptors has the link.
fn has_moved(link: LinkId, moves: &[Descriptor]) -> bool
    ensures { result ≡ has_moved link moves.now }
{
    let mut moves = moves;
    while let [moved, later @ ..] = moves {
        if moved.link == link {
            return true;
        }
        moves = later;
    }
    false
}

// How many serials of routers a message takes.
#[tactic(auto, unfolding(crate::specs::Hands::serials_in))]
fn serials_in(message: &Message) -> usize
    ensures count { result ≡ serials_in message.now }
    ensures bound { result ≤ 2 ^ 63 }
{
    match message {
        Message::Item { moves, .. } => moves.as_slice().len(),
        _ => 0,
    }
}

// Whether an item of a number comes without ends and moves.
fn is_lone_item(n: u64, item: &Item, moves: &Moves) -> bool
    ensures alone { IsTrue result → (n < no_number) × (moves.now ≡ []) × (ends_in item.now ≡ []) }
    ensures same { result ≡ (nat_lt n no_number && (nat_eq (length moves.now) 0 && nat_eq (length (ends_in item.now)) 0)) }
{
    let ends = count_ends(item);
    n < u64::MAX && moves.is_empty() && ends == 0
}
