//! A router that was told that no word is left for its bypass.
ghost use Rattle.std.specs.Prelude.{◌≡◌};
ghost use Rattle.ipcz_router.specs.ActEffects.{rewet};

use super::Router;

impl Router {
    /// Whether it asked for a word for its bypass and was told that none is left. It doesn't ask again until [`Router::rewet`].
    pub fn is_dry(&self) -> bool
        ensures { result ≡ self.now.router.dry }
    {
        self.dry
    }

    /// Lets it ask for a word again: it isn't dry, and it is flagged, so that its node lets it act.
    pub fn rewet(&mut self)
        ensures { self.new ≡ record self.old { router = rewet self.old.router } }
    {
        self.dry = false;
        self.flagged = true;
    }
}
