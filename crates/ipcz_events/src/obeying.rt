//! The commands of a script that is run in a drawn order of acts.

ghost use Rattle.std.specs.Prelude.{◌≡◌, true, List, IfOk, OnOk};
ghost use Rattle.ipcz_events.specs.declared.entry.Entry.{Entry};
ghost use Rattle.ipcz_events.specs.Rules.{is_call};
ghost use Rattle.ipcz_events.specs.Runs.{Acts, AreObeyed, IsCalled, IsObeyed, IsTakenAsked, IsTakenOne, Obeys, was_idle};
ghost use Rattle.ipcz_events.specs.Written.{Adds};

use crate::ending::Ending;
use crate::entry_lines::{push_acted, push_call};
use crate::judging::{act_begun, answered};
use crate::order::Order;
use crate::run::Run;
use crate::who::Who;
use ipcz_base::Sequence;
use ipcz_node::{Act, Happened};
use ipcz_script::Command;
use std::alloc::{AllocError, Global};

// Whether a node was idle.
#[tactic(auto, unfolding(crate::specs::Runs::was_idle))]
fn was_idle(event: &Happened) -> bool
    ensures { result ≡ was_idle event.now }
{
    matches!(event, Happened::Idle)
}

impl Run {
    // Takes the next act, if one comes, and adds its line. Says whether it was the last: none comes, or the node was idle.
    fn take_one(&mut self, alloc: Global, out: &mut Vec<u8>, who: Who) -> Result<bool, AllocError>
        ensures { IfOk result (λ last. IsTakenOne who self.old last self.new out.old.items out.new.items) }
    {
        let Some(seen) = self.next_act(alloc, who)? else {
            return Ok(true);
        };
        push_acted(alloc, out, seen.0, &seen.1)?;
        Ok(was_idle(&seen.1))
    }

    // Takes so many acts, one after the other, and adds their lines: up to one that is idle, or to where none comes next.
    fn take_acts(
        &mut self,
        alloc: Global,
        out: &mut Vec<u8>,
        who: Who,
        most: u32,
    ) -> Result<(), AllocError>
        ensures { OnOk result ((log : List Entry) × Acts most who self.old log self.new × Adds log out.old.items out.new.items) }
    {
        let mut left = most;
        while left > 0 {
            let last = self.take_one(alloc, out, who)?;
            if last {
                return Ok(());
            }
            left -= 1;
        }
        Ok(())
    }

    // Makes a call, and adds its line.
    fn call(
        &mut self,
        alloc: Global,
        out: &mut Vec<u8>,
        command: &Command,
    ) -> Result<(), AllocError>
        requires { is_call command.now ≡ true }
        ensures { OnOk result ((log : List Entry) × IsCalled self.old command.now log self.new × Adds log out.old.items out.new.items) }
    {
        let said = self.session.run(command)?;
        let answer = answered(alloc, self.session.titles(), command, &said)?;
        push_call(alloc, out, command, answer.as_slice())?;
        Ok(())
    }

    // Runs a command that each script may have, and adds its lines.
    fn command(
        &mut self,
        alloc: Global,
        nodes: u8,
        out: &mut Vec<u8>,
        command: &Command,
    ) -> Result<(), AllocError>
        ensures { OnOk result ((log : List Entry) × Obeys nodes self.old (Order.Command command.now) log self.new × Adds log out.old.items out.new.items) }
    {
        match command {
            Command::Turn { node, count } => self.take_acts(alloc, out, Who::Node(*node), *count),
            Command::Settle { limit } => self.take_acts(alloc, out, Who::AnyOf(nodes), *limit),
            Command::Open { .. }
            | Command::Put { .. }
            | Command::Get { .. }
            | Command::Close { .. }
            | Command::Show => self.call(alloc, out, command),
        }
    }

    // Lets a node take the act that an event with these words begins with, if it can, and adds its line. Says whether it could.
    fn take_asked(
        &mut self,
        alloc: Global,
        out: &mut Vec<u8>,
        node: u8,
        words: &str,
    ) -> Result<bool, AllocError>
        ensures { IfOk result (λ taken. IsTakenAsked self.old node words.now taken self.new out.old.items out.new.items) }
    {
        let Some(act) = act_begun(&self.session, node, words) else {
            return Ok(false);
        };
        let Some(event) = self.take(node, act)? else {
            return Ok(false);
        };
        push_acted(alloc, out, node, &event)?;
        Ok(true)
    }

    // Lets a node take the act that is asked for, and adds its line; or gives the acts that the node can take, if it can't take that one.
    fn act(
        &mut self,
        alloc: Global,
        nodes: u8,
        out: &mut Vec<u8>,
        node: u8,
        words: &str,
    ) -> Result<Option<Sequence<Act>>, AllocError>
        ensures { IfOk result (λ stopped. IsObeyed nodes self.old (Order.Act node words.now) stopped self.new out.old.items out.new.items) }
    {
        let taken = self.take_asked(alloc, out, node, words)?;
        if taken {
            return Ok(None);
        }
        let possible = self.session.possible_acts(node)?;
        Ok(Some(Sequence::from_vec(possible)))
    }

    // Obeys a command, and adds its lines; or gives the acts that its node can take, if it can't take the one that is asked for.
    fn obey(
        &mut self,
        alloc: Global,
        nodes: u8,
        out: &mut Vec<u8>,
        order: &Order,
    ) -> Result<Option<Sequence<Act>>, AllocError>
        ensures { IfOk result (λ stopped. IsObeyed nodes self.old order.now stopped self.new out.old.items out.new.items) }
    {
        match order {
            Order::Command(command) => {
                self.command(alloc, nodes, out, command)?;
                Ok(None)
            }
            Order::Act { node, words } => self.act(alloc, nodes, out, *node, words.as_str()),
        }
    }

    /// Obeys commands one after the other, and adds their lines, up to one that can't be obeyed.
    pub(crate) fn obey_all(
        &mut self,
        alloc: Global,
        nodes: u8,
        out: &mut Vec<u8>,
        orders: &[Order],
    ) -> Result<Ending, AllocError>
        ensures { IfOk result (λ ending. AreObeyed nodes self.old orders.now ending out.old.items out.new.items) }
    {
        let mut number = 1u64;
        for order in orders {
            match self.obey(alloc, nodes, out, order)? {
                Some(possible) => {
                    return Ok(Ending::Stopped {
                        command: number,
                        possible,
                    });
                }
                None => {}
            }
            number = number.checked_add(1).ok_or(AllocError)?;
        }
        Ok(Ending::Whole)
    }
}
