//! A node at several of whose portals something may come.
use crate::talkers::{LONGEST, TURNS, Talker, bytes_of};
use ipcz_base::Refusal;
use ipcz_fabric::{FabricName, Hub, Portal, PortalSet};
use ipcz_node::Happened;
use std::alloc::Global;
use std::sync::Wait;
use std::time::{Clock, Duration};

/// How several portals are asked for what has come.
#[derive(Clone, Copy)]
pub enum Asks {
    /// By a wait that tells at which it has, and a get there.
    Waits,
    /// By a get at all of them.
    Gets,
}

/// Some portals of a hub's node, and the set of them. It puts at the last one.
#[derive(Drop)]
pub struct Listed<'a, R, F: FabricName> {
    pub rt: &'a R,
    pub hub: &'a Hub<F>,
    pub portals: &'a [Portal<F>],
    pub set: PortalSet<F>,
    pub node: u8,
    pub asks: Asks,
    pub alloc: Global,
}

impl<'a, R: Wait + Clock, F: FabricName> Talker for Listed<'a, R, F> {
    fn put(&mut self, length: usize) -> bool {
        let (Some(portal), Ok(bytes)) = (self.portals.last(), bytes_of(self.alloc, length)) else {
            return false;
        };
        let put = portal.put(self.rt, self.hub, bytes, Vec::new(self.alloc));
        put.is_ok()
    }

    fn turn(&mut self) -> Result<Happened, Refusal> {
        self.hub.turn(self.rt, self.node)
    }

    fn turn_or_wait(&mut self) -> Result<Happened, Refusal> {
        self.hub.turn_or_wait(self.rt, self.node, LONGEST)
    }

    fn acts(&mut self) -> bool {
        self.hub.acts(self.rt, self.node, TURNS).is_ok()
    }

    fn get(&mut self) -> bool {
        match self.asks {
            Asks::Waits => self.get_ready(),
            Asks::Gets => self
                .hub
                .get_any(self.rt, self.portals, Duration::ZERO)
                .is_ok(),
        }
    }
}

impl<'a, R: Wait + Clock, F: FabricName> Listed<'a, R, F> {
    // Gets at the portal where something has come.
    fn get_ready(&self) -> bool {
        let Ok(place) = self.hub.wait_any(self.rt, &self.set, 0, Duration::ZERO) else {
            return false;
        };
        match self.portals.get(place) {
            Some(portal) => portal.get(self.rt, self.hub).is_ok(),
            None => false,
        }
    }
}

/// These portals, as a set, in their order.
pub fn set_of<F: FabricName>(alloc: Global, portals: &[Portal<F>]) -> Option<PortalSet<F>> {
    let mut set = PortalSet::new(alloc);
    for portal in portals {
        set.add(portal).ok()?;
    }
    Some(set)
}

/// So many portals of a node: those of pairs that are opened there, of which the others' list has the peers, and this one behind them.
pub fn list_behind<F: FabricName, R: Wait>(
    rt: &R,
    hub: &Hub<F>,
    last: Portal<F>,
    count: usize,
    list: &mut Vec<Portal<F>>,
    others: &mut Vec<Portal<F>>,
) -> Option<()> {
    for _pair in 1..count {
        let (one, other) = hub.open_pair(rt, last.node()).ok()?;
        list.push(one).ok()?;
        others.push(other).ok()?;
    }
    list.push(last).ok()
}
