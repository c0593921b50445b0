//! The statuses that calls answer.
ghost use Rattle.std.specs.Prelude.{◌≡◌, ◌<◌};
ghost use Rattle.ipcz_base.specs.Refusals.{code_of};
ghost use Rattle.ipcz_c.specs.Statuses.{status_of, too_small};

use ipcz_base::Refusal;
use ipcz_world::Reply;

// The statuses that are no refusal's code.
pub(crate) const TOO_SMALL: u32 = 100;

pub(crate) const NOT_CREATED: u32 = 101;

pub(crate) const ALREADY_CREATED: u32 = 102;

// The status of a refusal; the library's own statuses are above all of these.
pub(crate) fn refused(why: Refusal) -> u32
    ensures code { result ≡ code_of why }
    ensures apart { result < too_small }
{
    why.code() as u32
}

// The status of a reply.
#[tactic(auto, unfolding(crate::specs::Statuses::status_of))]
pub(crate) fn status(reply: &Reply) -> u32
    ensures { result ≡ status_of reply.now }
{
    match reply {
        Reply::Refused(why) => refused(*why),
        Reply::Opened(_, _)
        | Reply::Put(_)
        | Reply::Got(_, _)
        | Reply::Closed(_)
        | Reply::Turned(_) => 0,
    }
}
