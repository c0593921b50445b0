//! Which turns of a worker are counted.

use ipcz_base::Refusal;
use ipcz_fabric::{Worker, run_worker};
use ipcz_node::Happened;

/// What a turn is answered.
#[derive(Clone, Copy)]
enum Turn {
    Idle,
    Refused(Refusal),
}

use Turn::{Idle, Refused};

// A worker whose turns are answered by a list, and that takes no turn behind it.
#[derive(Drop)]
struct Listed<'a> {
    turns: &'a [Turn],
    taken: usize,
}

impl<'a> Worker for Listed<'a> {
    ghost use Rattle.ipcz_fabric.specs.Workers.{ends_work};

    ghost asks = { λ s turns may t. Unit {0} };

    ghost takes = { λ s answer t. Unit {0} };

    ghost ends = { ends_work };

    fn may_turn(&mut self, _turns: u64) -> bool {
        self.taken < self.turns.len()
    }

    fn turn(&mut self) -> Result<Happened, Refusal> {
        let turn = self.turns.get(self.taken);
        self.taken = self.taken.saturating_add(1);
        match turn {
            Some(Turn::Refused(why)) => Err(*why),
            Some(Turn::Idle) | None => Ok(Happened::Idle),
        }
    }

    fn is_last(&self, answer: &Result<Happened, Refusal>) -> bool {
        matches!(answer, Err(Refusal::OutOfMemory | Refusal::NumbersEnd))
    }
}

// Turns and a limit, with how many turns are taken, and how many of them are counted.
static CASES: [(&'static [Turn], u64, usize, u64); 6] = [
    (
        &[
            Idle,
            Refused(Refusal::Raced),
            Refused(Refusal::OutOfMemory),
            Idle,
        ],
        9,
        3,
        2,
    ),
    (
        &[Refused(Refusal::Raced), Refused(Refusal::NumbersEnd), Idle],
        9,
        2,
        1,
    ),
    (&[Refused(Refusal::OutOfMemory), Idle], 9, 1, 0),
    (&[Idle, Refused(Refusal::Raced)], 9, 2, 2),
    (&[Refused(Refusal::Raced), Idle, Idle], 2, 2, 2),
    (&[Idle], 0, 0, 0),
];

#[test]
fn a_refused_last_turn_is_not_counted(rt: HostRuntime) {
    for (turns, limit, taken, counted) in CASES {
        let mut worker = Listed { turns, taken: 0 };
        assert_eq!(rt; run_worker(&mut worker, limit), counted);
        assert_eq!(rt; worker.taken, taken);
    }
}
