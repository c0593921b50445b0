//! Why a get that may sleep has given no parcel.
ghost use Rattle.std.specs.Prelude.{◌≡◌, ◌≢◌, Err, IfErr, MatchBool};
ghost use Rattle.ipcz_fabric.specs.Stopping.{TellsStop, answer_of, stop_of, why_of};

use ipcz_base::{Parcel, Refusal};

/// Why a get that may sleep has given no parcel.
#[derive(Clone, Copy, Debug, PartialEq, Eq)]
pub enum Missed {
    /// The get was refused: `Stranger`, `PeerClosed`, or `Empty`, if none has come in its time.
    Refused(Refusal),
    /// None has come, and none will as long as it goes on so: the last turn of the portal's node was refused `OutOfMemory` or `NumbersEnd`, at which
    /// a worker ends.
    Stopped(Refusal),
}

impl Missed {
    /// The refusal: of the get, or of the turn that has stopped the node. It is never refused.
    ///
    /// So `Missed::Stopped(Refusal::OutOfMemory).why()` is `OutOfMemory`, as a caller's own `?` may want it.
    pub fn why(self) -> Refusal
        ensures { result ≡ why_of self }
    {
        match self {
            Missed::Refused(why) | Missed::Stopped(why) => why,
        }
    }
}

// Whether a get has found that nothing has come.
pub(crate) fn is_empty(taken: &Result<(u64, Parcel), Missed>) -> bool
    ensures { MatchBool result (taken.now ≡ Err (Missed.Refused Refusal.Empty)) (taken.now ≢ Err (Missed.Refused Refusal.Empty)) }
{
    match taken {
        Err(Missed::Refused(Refusal::Empty)) => true,
        _ => false,
    }
}

// Why a turn stops its node, if it does.
pub(crate) fn stop_of<A>(answer: &Result<A, Refusal>) -> Option<Refusal>
    ensures { result ≡ stop_of answer.now }
{
    match answer {
        Err(Refusal::OutOfMemory) => Some(Refusal::OutOfMemory),
        Err(Refusal::NumbersEnd) => Some(Refusal::NumbersEnd),
        _ => None,
    }
}

// What came of a get at a node that is stopped for this reason, if it is.
pub(crate) fn missed_at(
    answer: Result<(u64, Parcel), Refusal>,
    stop: Option<Refusal>,
) -> Result<(u64, Parcel), Missed>
    ensures same { answer_of result ≡ answer }
    ensures stop { IfErr result (TellsStop stop) }
{
    match answer {
        Ok(taken) => Ok(taken),
        Err(Refusal::Empty) => match stop {
            Some(why) => Err(Missed::Stopped(why)),
            None => Err(Missed::Refused(Refusal::Empty)),
        },
        Err(why) => Err(Missed::Refused(why)),
    }
}
