//! Whether what an act did is told: the type that it answers says so.

ghost use Rattle.std.specs.Prelude.{◌≡◌, IfSome};
ghost use Rattle.ipcz_node.specs.RoomyNodes.{IsPossibleAct, IsReadyFor};
ghost use Rattle.ipcz_node.specs.Acts.{commit, Answers};
ghost use Rattle.ipcz_node.specs.Events.{event_of};

use super::NodeState;
use crate::act::Act;
use crate::happened::Happened;
use ipcz_router::act::{Answer, RouterAct};

/// What is told of an act: what happened, or nothing.
pub trait Told: Drop {
    ghost use Rattle.ipcz_node.specs.declared.happened.Happened.{Happened};

    ghost tells: { Happened → Self → Type 0 };

    /// What is told, if that is the same whatever happened.
    fn nothing() -> Option<Self>
        ensures { IfSome result (λ told. (event : Happened) → tells event told) };

    /// Tells what happened.
    fn told(event: Happened) -> Self
        ensures { tells event result };

    /// Lets a router do a possible act, as `NodeState::commit` does.
    fn commit(node: &mut NodeState, serial: u64, act: RouterAct, answer: Answer) -> Self
        requires possible { IsPossibleAct node.old.node (Act.Router serial act) }
        requires answer { Answers (Act.Router serial act) answer }
        requires ready { IsReadyFor node.old (Act.Router serial act) }
        ensures node { node.new.node ≡ commit node.old.node (Act.Router serial act) answer }
        ensures event { tells (event_of node.old.node (Act.Router serial act) answer) result };
}

/// What happened is told.
impl Told for Happened {
    ghost use Rattle.std.specs.Prelude.{◌≡◌};

    ghost tells = { λ event told. told ≡ event };

    #[inline(always)]
    fn nothing() -> Option<Self> {
        None
    }

    #[inline(always)]
    fn told(event: Happened) -> Self {
        event
    }

    fn commit(node: &mut NodeState, serial: u64, act: RouterAct, answer: Answer) -> Self {
        node.commit_router(serial, act, answer)
    }
}

/// Nothing is told: that spares a list of the ends that were moved.
impl Told for () {
    ghost use Rattle.std.specs.Prelude.{⊤};

    ghost tells = { λ event told. ⊤ };

    #[inline(always)]
    fn nothing() -> Option<Self> {
        Some(())
    }

    #[inline(always)]
    fn told(event: Happened) -> Self {
        let _event = event;
    }

    #[inline(never)]
    fn commit(node: &mut NodeState, serial: u64, act: RouterAct, answer: Answer) -> Self {
        match act {
            RouterAct::FinishOut => node.commit_one(serial, RouterAct::FinishOut, answer),
            RouterAct::FinishIn => node.commit_one(serial, RouterAct::FinishIn, answer),
            RouterAct::Mark => node.commit_one(serial, RouterAct::Mark, answer),
            RouterAct::Claim => node.commit_one(serial, RouterAct::Claim, answer),
            RouterAct::Lock => node.commit_one(serial, RouterAct::Lock, answer),
            RouterAct::Unlock => node.commit_one(serial, RouterAct::Unlock, answer),
            _ => node.commit_one(serial, act, answer),
        }
    }
}
