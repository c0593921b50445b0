//! All the acts that a node may take.

ghost use Rattle.std.specs.Prelude.{◌≡◌, ◌<◌, ◌++◌, ◌∷◌, [], map, IfOk, OnOk};
ghost use Rattle.std.specs.FinMap.{entries};
ghost use Rattle.std.specs.List.{filter};
ghost use Rattle.ipcz_world.specs.Asking.{can_act};
ghost use Rattle.ipcz_world.specs.Listing.{acts_of_hand, acts_of_pending, acts_of_routers, possible_acts, router_acts};
ghost use Rattle.ipcz_world.specs.Taking.{IsRegular};
ghost use Rattle.ipcz_world.specs.World.{node_at, numbers_from};

use crate::state::State;
use ipcz_node::Act;
use ipcz_router::act::RouterAct;
use std::alloc::{AllocError, Global};

impl State {
    /// The acts that a node may take, each once; none if it isn't there.
    pub(crate) fn possible_acts(&self, alloc: Global, n: u8) -> Result<Vec<Act>, AllocError>
        requires { IsRegular self.now.world }
        ensures { IfOk result (λ acts. acts.items ≡ possible_acts self.now.world n) }
    {
        let mut acts = Vec::new(alloc);
        if n >= self.count {
            return Ok(acts);
        }
        self.push_all(n, &mut acts)?;
        Ok(acts)
    }

    // Adds the acts that a node may take.
    fn push_all(&self, n: u8, acts: &mut Vec<Act>) -> Result<(), AllocError>
        requires regular { IsRegular self.now.world }
        requires node { n < self.now.world.count }
        ensures { OnOk result (acts.new.items ≡ acts.old.items ++ possible_acts self.now.world n) }
    {
        self.push_hand(n, acts)?;
        self.push_looks(n, acts)?;
        self.push_posts(n, acts)?;
        self.push_close(n, acts)?;
        self.push_routers(n, acts)?;
        self.push_if_possible(n, Act::Idle, acts)
    }

    // Adds an act if the node may take it.
    fn push_if_possible(&self, n: u8, act: Act, acts: &mut Vec<Act>) -> Result<(), AllocError>
        requires { IsRegular self.now.world }
        ensures { OnOk result (acts.new.items ≡ acts.old.items ++ filter (can_act self.now.world n) (act ∷ [])) }
    {
        if self.can_act(n, act) {
            acts.push(act)?;
        }
        Ok(())
    }

    // Adds the handling of the message in the node's hand.
    #[tactic(auto, unfolding(crate::specs::World::node_at))]
    fn push_hand(&self, n: u8, acts: &mut Vec<Act>) -> Result<(), AllocError>
        requires regular { IsRegular self.now.world }
        requires node { n < self.now.world.count }
        ensures { OnOk result (acts.new.items ≡ acts.old.items ++ filter (can_act self.now.world n) (acts_of_hand (node_at self.now.world n).hand)) }
    {
        match self.nodes.node(n).hand() {
            Some(sender) => self.push_if_possible(n, Act::Hand(sender), acts),
            None => Ok(()),
        }
    }

    // Adds the looks.
    fn push_looks(&self, n: u8, acts: &mut Vec<Act>) -> Result<(), AllocError>
        requires { IsRegular self.now.world }
        ensures { OnOk result (acts.new.items ≡ acts.old.items ++ filter (can_act self.now.world n) (map Act.Look (numbers_from 0 self.now.world.count))) }
    {
        for sender in 0..self.count {
            self.push_if_possible(n, Act::Look(sender), acts)?;
        }
        Ok(())
    }

    // Adds the posts.
    fn push_posts(&self, n: u8, acts: &mut Vec<Act>) -> Result<(), AllocError>
        requires { IsRegular self.now.world }
        ensures { OnOk result (acts.new.items ≡ acts.old.items ++ filter (can_act self.now.world n) (map Act.Post (numbers_from 0 self.now.world.count))) }
    {
        for to in 0..self.count {
            self.push_if_possible(n, Act::Post(to), acts)?;
        }
        Ok(())
    }

    // Adds the close of the end that the node closes next.
    #[tactic(auto, unfolding(crate::specs::World::node_at))]
    fn push_close(&self, n: u8, acts: &mut Vec<Act>) -> Result<(), AllocError>
        requires regular { IsRegular self.now.world }
        requires node { n < self.now.world.count }
        ensures { OnOk result (acts.new.items ≡ acts.old.items ++ filter (can_act self.now.world n) (acts_of_pending (node_at self.now.world n).pending)) }
    {
        match self.nodes.node(n).pending() {
            [first, _rest @ ..] => self.push_if_possible(n, Act::Close(*first), acts),
            [] => Ok(()),
        }
    }

    // Adds what the routers may do.
    fn push_routers(&self, n: u8, acts: &mut Vec<Act>) -> Result<(), AllocError>
        requires regular { IsRegular self.now.world }
        requires node { n < self.now.world.count }
        ensures { OnOk result (acts.new.items ≡
            acts.old.items ++ filter (can_act self.now.world n) (acts_of_routers (entries (node_at self.now.world n).routers))) }
    {
        for (serial, _) in self.nodes.node(n).routers() {
            self.push_router(n, *serial, acts)?;
        }
        Ok(())
    }

    // Adds what one router may do.
    fn push_router(&self, n: u8, serial: u64, acts: &mut Vec<Act>) -> Result<(), AllocError>
        requires { IsRegular self.now.world }
        ensures { OnOk result (acts.new.items ≡ acts.old.items ++ filter (can_act self.now.world n) (map (Act.Router serial) router_acts)) }
    {
        for act in router_acts() {
            self.push_if_possible(n, Act::Router(serial, *act), acts)?;
        }
        Ok(())
    }
}

// What routers do, in the order of their table.
fn router_acts() -> &'static [RouterAct]
    ensures { result.now ≡ router_acts }
{
    &[
        RouterAct::SendOut,
        RouterAct::SendIn,
        RouterAct::Discard,
        RouterAct::FinishOut,
        RouterAct::FinishIn,
        RouterAct::Leave,
        RouterAct::Mark,
        RouterAct::Wake,
        RouterAct::Claim,
        RouterAct::Lock,
        RouterAct::Begin,
        RouterAct::Retire,
        RouterAct::Unlock,
        RouterAct::Rest,
    ]
}
