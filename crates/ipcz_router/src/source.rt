//! Whether a node may send an AcceptBypass.
ghost use Rattle.std.specs.Prelude.{◌≡◌};
ghost use Rattle.ipcz_router.specs.Bypass.{is_source};

/// Whether a node is the one that a link word names as the source of AcceptBypass (docs/PROTOCOL.md, "Link words").
#[tactic(auto, unfolding(crate::specs::Bypass::is_source))]
pub fn is_source(sender: u8, source: Option<u8>) -> bool
    ensures { result ≡ is_source sender source }
{
    match source {
        Some(node) => sender == node,
        None => false,
    }
}
