//! Items that go out, with the terminals that move in them.
ghost use Rattle.std.specs.Prelude.{◌≡◌, ◌<◌, ◌≤◌, ◌+◌, [], Some, length, vec_len};
ghost use Rattle.std.specs.Prelude.{vec_capacity, IsSomeAnd};
ghost use Rattle.ipcz_base.specs.Limits.{no_number};
ghost use Rattle.ipcz_base.specs.Indexed.{place_at};
ghost use Rattle.ipcz_router.specs.Router.{Router as RouterRecord, IsOpenTerminal};
ghost use Rattle.ipcz_node.specs.Node.{router_in};
ghost use Rattle.ipcz_node.specs.Sends.{move_end, move_ends, move_router, moved_ends, transfer_of, item_message, send_item};
ghost use Rattle.ipcz_node.specs.RoomyNodes.{transfer};

use super::NodeState;
use ipcz_base::{Descriptor, End, Item, LinkEnd, LinkId, Message, Moves};

impl NodeState {
    // The router of a serial becomes a proxy toward a node, and its descriptor is to travel.
    fn move_router(&mut self, serial: u64, to: u8, moves: &mut Vec<Descriptor>)
        requires open { IsSomeAnd (router_in self.old.node serial) IsOpenTerminal }
        requires links { 0 < self.old.room.links }
        requires moves { vec_len moves.old < vec_capacity moves.old }
        requires serials { self.old.node.next_peripheral < no_number }
        ensures transfer { (r : RouterRecord) → router_in self.old.node serial ≡ Some r →
            transfer self.new.node moves.new.items ≡ move_router (transfer self.old.node moves.old.items) to serial r }
        ensures links { self.old.room.links ≡ self.new.room.links + 1 }
        ensures outboxes { self.new.room.outboxes ≡ self.old.room.outboxes }
        ensures serials { self.new.node.next_peripheral ≡ self.old.node.next_peripheral + 1 }
        ensures len { vec_len moves.new ≡ vec_len moves.old + 1 }
        ensures capacity { vec_capacity moves.new ≡ vec_capacity moves.old }
    {
        let link = LinkId::Peripheral {
            node: self.number,
            serial: self.next_peripheral,
        };
        moves.push_reserved(self.routers.extend(serial, link, to));
        self.next_peripheral += 1;
    }

    // The terminal of an end moves, if there is one.
    #[tactic(auto, unfolding(crate::specs::Sends::move_found))]
    fn move_end(&mut self, end: End, to: u8, moves: &mut Vec<Descriptor>)
        requires links { 0 < self.old.room.links }
        requires moves { vec_len moves.old < vec_capacity moves.old }
        requires serials { self.old.node.next_peripheral < no_number }
        ensures transfer { transfer self.new.node moves.new.items ≡ move_end (transfer self.old.node moves.old.items) to end }
        ensures links { self.old.room.links ≤ self.new.room.links + 1 }
        ensures outboxes { self.new.room.outboxes ≡ self.old.room.outboxes }
        ensures serials { self.new.node.next_peripheral ≤ self.old.node.next_peripheral + 1 }
        ensures len { vec_len moves.new ≤ vec_len moves.old + 1 }
        ensures capacity { vec_capacity moves.new ≡ vec_capacity moves.old }
    {
        if let Some(serial) = self.terminal_serial(end) {
            self.move_router(serial, to, moves);
        }
    }

    // The terminals of these ends move, in order.
    fn move_ends(&mut self, ends: &[End], to: u8, moves: &mut Vec<Descriptor>)
        requires links { length ends.now ≤ self.old.room.links }
        requires moves { vec_len moves.old + length ends.now ≤ vec_capacity moves.old }
        requires serials { self.old.node.next_peripheral + length ends.now ≤ no_number }
        ensures transfer { transfer self.new.node moves.new.items ≡ move_ends (transfer self.old.node moves.old.items) to ends.now }
        ensures outboxes { self.new.room.outboxes ≡ self.old.room.outboxes }
    {
        let mut ends = ends;
        while let [end, later @ ..] = ends {
            self.move_end(*end, to, moves);
            ends = later;
        }
    }

    // The terminals of an item's ends move over a link, and their descriptors are to travel.
    fn transfer(&mut self, link: LinkEnd, item: &Item, moves: &mut Vec<Descriptor>)
        requires links { length (moved_ends self.old.node link item.now) ≤ self.old.room.links }
        requires moves { vec_len moves.old + length (moved_ends self.old.node link item.now) ≤ vec_capacity moves.old }
        requires serials { self.old.node.next_peripheral + length (moved_ends self.old.node link item.now) ≤ no_number }
        requires none { moves.old.items ≡ [] }
        ensures transfer { transfer self.new.node moves.new.items ≡ transfer_of self.old.node link item.now }
        ensures outboxes { self.new.room.outboxes ≡ self.old.room.outboxes }
    {
        if link.other == self.number {
            return;
        }
        match item {
            Item::Parcel(parcel) => self.move_ends(parcel.ends.as_slice(), link.other, moves),
            Item::Mark | Item::Gone => {}
        }
    }

    // Sends an item over a link, with the terminals that travel along.
    #[tactic(auto, unfolding(crate::specs::Sends::send_item))]
    pub(super) fn send_item(&mut self, link: LinkEnd, n: u64, item: Item)
        requires outbox { 0 < place_at 0 self.old.room.outboxes link.other }
        requires links { length (moved_ends self.old.node link item) ≤ self.old.room.links }
        requires moves { length (moved_ends self.old.node link item) ≤ self.old.room.moves }
        requires serials { self.old.node.next_peripheral + length (moved_ends self.old.node link item) ≤ no_number }
        ensures { self.new.node ≡ send_item self.old.node link n item }
    {
        let mut moves = self.moves.take(self.alloc);
        self.transfer(link, &item, &mut moves);
        let message = item_message(link, n, item, Moves::from_vec(moves));
        self.outboxes.push(link.other, message);
    }
}

fn item_message(link: LinkEnd, n: u64, item: Item, moves: Moves) -> Message
    ensures { result ≡ item_message link n item moves }
{
    Message::Item {
        link: link.link,
        side: link.side.opposite(),
        n,
        item,
        moves,
    }
}
