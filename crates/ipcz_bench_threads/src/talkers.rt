//! A node with one portal, as a measure calls it: a cell that a thread owns, or a portal of a hub.
use ipcz_base::{Bytes, End, Ends, Refusal};
use ipcz_fabric::{Fabric, FabricName, Hub, NodeCell, Portal};
use ipcz_node::Happened;
use std::alloc::{AllocError, Global};
use std::sync::Wait;
use std::time::Duration;

/// More turns than a talker takes on its way.
pub const TURNS: u64 = 1_000_000_000;

// What parcels are made of: as many bytes as take no memory.
static DATA: [u8; 16] = [b'x'; 16];

/// The longest sleep.
pub const LONGEST: Duration = Duration::MAX;

/// The bytes of a parcel, at most sixteen.
pub fn bytes_of(alloc: Global, length: usize) -> Result<Bytes, AllocError> {
    Bytes::from_slice(alloc, &DATA[..length.min(DATA.len())])
}

/// What puts, acts and gets at one node.
pub trait Talker {
    /// Puts a parcel of so many bytes, and tells whether it was taken.
    fn put(&mut self, length: usize) -> bool;

    /// Takes a turn.
    fn turn(&mut self) -> Result<Happened, Refusal>;

    /// Takes a turn, and sleeps if it had nothing to do, until there may be something.
    fn turn_or_wait(&mut self) -> Result<Happened, Refusal>;

    /// Takes turns until one is idle, and tells whether none was refused.
    fn acts(&mut self) -> bool;

    /// Gets a parcel, and tells whether there was one.
    fn get(&mut self) -> bool;
}

/// The cell of a node, with an end that its callers hold.
#[derive(Drop)]
pub struct Own<'a, R, F: FabricName> {
    pub rt: &'a R,
    pub fabric: &'a Fabric<F>,
    pub cell: &'a mut NodeCell<F>,
    pub at: End,
    pub alloc: Global,
}

impl<'a, R: Wait, F: FabricName> Talker for Own<'a, R, F> {
    fn put(&mut self, length: usize) -> bool {
        let Ok(bytes) = bytes_of(self.alloc, length) else {
            return false;
        };
        let none = Ends::from_vec(Vec::new(self.alloc));
        let put = self.cell.put(self.fabric, self.at, bytes, none);
        put.is_ok()
    }

    fn turn(&mut self) -> Result<Happened, Refusal> {
        self.cell.turn(self.fabric)
    }

    fn turn_or_wait(&mut self) -> Result<Happened, Refusal> {
        let turn = self.turn();
        if matches!(&turn, Ok(Happened::Idle)) {
            self.cell.wait(self.rt, self.fabric, LONGEST);
        }
        turn
    }

    fn acts(&mut self) -> bool {
        self.cell.acts(self.fabric, TURNS).is_ok()
    }

    fn get(&mut self) -> bool {
        self.cell.get(self.fabric, self.at).is_ok()
    }
}

/// A portal of a hub, with its node.
#[derive(Drop)]
pub struct Shared<'a, R, F: FabricName> {
    pub rt: &'a R,
    pub hub: &'a Hub<F>,
    pub portal: &'a Portal<F>,
    pub alloc: Global,
}

impl<'a, R: Wait, F: FabricName> Talker for Shared<'a, R, F> {
    fn put(&mut self, length: usize) -> bool {
        let Ok(bytes) = bytes_of(self.alloc, length) else {
            return false;
        };
        let put = self
            .portal
            .put(self.rt, self.hub, bytes, Vec::new(self.alloc));
        put.is_ok()
    }

    fn turn(&mut self) -> Result<Happened, Refusal> {
        self.hub.turn(self.rt, self.portal.node())
    }

    fn turn_or_wait(&mut self) -> Result<Happened, Refusal> {
        self.hub.turn_or_wait(self.rt, self.portal.node(), LONGEST)
    }

    fn acts(&mut self) -> bool {
        self.hub.acts(self.rt, self.portal.node(), TURNS).is_ok()
    }

    fn get(&mut self) -> bool {
        self.portal.get(self.rt, self.hub).is_ok()
    }
}
