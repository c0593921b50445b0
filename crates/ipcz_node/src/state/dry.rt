//! Routers that were told that no word is left for their bypass.

ghost use Rattle.std.specs.Prelude.{◌≡◌, ◌<◌, true, is_some, IfSome};
ghost use Rattle.ipcz_node.specs.Node.{router_in};
ghost use Rattle.ipcz_node.specs.Finding.{IsNext, rewet_node, LetAsk, HasNoDry};

use super::NodeState;
use ipcz_base::End;

impl NodeState {
    /// The router of the lowest serial that was told that no word is left for its bypass, and doesn't ask again by itself: its serial and its
    /// end; or none. Mostly none was told so, and then it looks at no router; else it looks at one after another.
    pub fn first_dry(&mut self) -> Option<(u64, End)>
        ensures found { IsNext (router_in self.old.node) (λ r. r.dry) 0 result }
        ensures stays { self.new ≡ self.old }
    {
        self.next_dry(0)
    }

    // The first one from a serial on.
    fn next_dry(&mut self, from: u64) -> Option<(u64, End)>
        ensures found { IsNext (router_in self.old.node) (λ r. r.dry) from result }
        ensures below { IfSome result (λ x. x.0 < self.old.node.next_router) }
        ensures stays { self.new ≡ self.old }
    {
        self.routers.next_dry(from)
    }

    /// Lets the router of the serial ask for a word again, as `Router::rewet`.
    #[tactic(auto, unfolding(crate::specs::Node::on_router))]
    pub fn rewet(&mut self, serial: u64)
        requires { is_some (router_in self.old.node serial) ≡ true }
        ensures { self.new.node ≡ rewet_node self.old.node serial }
    {
        self.routers.rewet(serial);
    }

    // The serial that the next router gets: all that are there have lower ones.
    fn serials_end(&self) -> u64
        ensures { result ≡ self.now.node.next_router }
    {
        self.routers.next_serial()
    }

    /// Lets each router that was told that no word is left for its bypass ask for one again, and answers how many there were. The walk goes
    /// from one to the next by their serials; if none was told so it looks at no router. It takes no memory, and is never refused.
    ///
    /// So in a node of which no router was told so, `node.let_all_ask()` is 0.
    pub fn let_all_ask(&mut self) -> u64
        ensures asks { LetAsk self.old.node result self.new.node }
        ensures wet { HasNoDry self.new.node }
    {
        let _end = self.serials_end();
        let mut count = 0;
        let mut from = 0;
        while let Some((serial, _)) = self.next_dry(from) {
            self.rewet(serial);
            count += 1;
            from = serial + 1;
        }
        count
    }
}
