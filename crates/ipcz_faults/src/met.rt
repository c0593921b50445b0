//! How a row went: how often memory was refused, or what is wrong.
use ipcz_base::Refusal;
use ipcz_world::Reply;
use std::alloc::AllocError;
use std::fmt;

/// How a run isn't what it should be.
#[derive(Clone, Copy, Debug)]
pub enum Wrong {
    /// A call was refused memory a second time.
    RefusedAgain,
    /// A call that was refused memory has changed something.
    Changed,
    /// The world and its twin answer apart, or are no longer alike.
    Apart,
    /// An answer isn't that of the row.
    Answer,
}

/// How often memory was refused.
#[derive(Clone, Copy)]
pub struct Met {
    /// A call answered so, with all as before; made again it was done.
    refused: u32,
    /// A begin: the lock was given back, and got again.
    unlocked: u32,
    /// What isn't a call: the lists of a put, a new world or table, or a call of the twin. It was made again.
    beside: u32,
}

impl Met {
    /// Not yet.
    pub fn none() -> Met {
        Met {
            refused: 0,
            unlocked: 0,
            beside: 0,
        }
    }

    /// Counts a call that was refused memory.
    pub fn add_refused(&mut self) {
        self.refused = self.refused.saturating_add(1);
    }

    /// Counts a lock that was given back.
    pub fn add_unlocked(&mut self) {
        self.unlocked = self.unlocked.saturating_add(1);
    }

    /// Counts what was refused memory and is no call.
    pub fn add_beside(&mut self) {
        self.beside = self.beside.saturating_add(1);
    }
}

impl fmt::Display for Met {
    fn fmt<W: fmt::Write>(&self, f: &mut fmt::Formatter<W>) -> fmt::Result {
        let Met {
            refused,
            unlocked,
            beside,
        } = *self;
        if refused > 0 {
            write!(f, ", refused {refused}")?;
        }
        if unlocked > 0 {
            write!(f, ", unlocked {unlocked}")?;
        }
        if beside > 0 {
            write!(f, ", refused beside {beside}")?;
        }
        Ok(())
    }
}

/// The answer of a call that was made again.
pub fn answered(reply: Result<Reply, AllocError>) -> Result<Reply, Wrong> {
    match reply {
        Ok(Reply::Refused(Refusal::OutOfMemory)) | Err(AllocError) => Err(Wrong::RefusedAgain),
        Ok(reply) => Ok(reply),
    }
}
