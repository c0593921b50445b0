//! Routers that were told that no word is left for their bypass.

ghost use Rattle.std.specs.Prelude.{◌≡◌, ◌<◌, Some, true, is_some, IfSome};
ghost use Rattle.std.specs.FinMap.{get};
ghost use Rattle.ipcz_router.specs.Router.{Router as RouterRecord};
ghost use Rattle.ipcz_router.specs.ActEffects.{rewet};
ghost use Rattle.ipcz_node.specs.Finding.{IsNext};
ghost use Rattle.ipcz_node.specs.Rooms.{put_filed};

use super::Directory;
use super::filing::follow;
use ipcz_base::End;

impl Directory {
    /// The first dry router from a serial on: its serial and its end. It looks at the routers only if some may be dry.
    pub fn next_dry(&mut self, from: u64) -> Option<(u64, End)>
        ensures found { IsNext (get self.old.filed.routers) (λ r. r.dry) from result }
        ensures below { IfSome result (λ x. x.0 < self.old.filed.next) }
        ensures stays { self.new ≡ self.old }
    {
        if !self.some_dry {
            return None;
        }
        let next = self.routers.next_dry(from);
        if from == 0 {
            self.some_dry = next.is_some();
        }
        next
    }

    /// Lets the router of the serial ask for a word again, as `Router::rewet`.
    pub fn rewet(&mut self, serial: u64)
        requires { is_some (get self.old.filed.routers serial) ≡ true }
        ensures router { (r : RouterRecord) → get self.old.filed.routers serial ≡ Some r →
            self.new.filed ≡ put_filed self.old.filed serial (rewet r) }
        ensures ends { self.new.ends ≡ self.old.ends }
    {
        let router = self.routers.router_mut(serial);
        let was = router.is_flagged();
        router.rewet();
        let is = router.is_flagged();
        follow(&mut self.files.flagged, serial, was, is);
    }
}
