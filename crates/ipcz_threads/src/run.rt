//! Scripts whose nodes run on threads.
ghost use Rattle.std.specs.Prelude.{◌≡◌, ◌≤◌, ◌↔◌, false, length, IsTrue, IsErrOf, IfOk, vec_len};
ghost use Rattle.ipcz_cell.specs.Making.{AreFirst};
ghost use Rattle.ipcz_script.specs.ScriptLimits.{HasScriptLimits};
ghost use Rattle.ipcz_threads.specs.Rounds.{OpenGates};
ghost use Rattle.ipcz_threads.specs.Transcripts.{IsFirst, IsOutput, IsRunOutput, IsTranscript, ReadsAndWrites, Writes};

use crate::lending::lend;
use crate::session::Session;
use ipcz_device::{Device, read_up_to, write_whole};
use ipcz_fabric::{Blank, Fabric, FabricName, Gate, NodeCell, start};
use ipcz_script::{
    Command, Labels, Outcome, RunFault, Script, ScriptFault, push_answer, read_script,
    refused_output,
};
use std::alloc::{AllocError, Global};
use std::collections::VecDeque;
use std::io::{Read, Write};
use std::marker::Brand;
use std::thread::Threads;

const MOST_READ: usize = 1_048_577;

// Runs the commands in order and gives their lines; and whether some settle came to its limit.
fn run_commands<'a, R: Threads + Sync, F: FabricName + Send + Sync, G: Gate + Send>(
    rt: &R,
    alloc: Global,
    session: &mut Session<'a, F, G>,
    commands: &[Command],
) -> Result<(bool, Vec<u8>), AllocError>
    ensures { IfOk result (λ written. Writes G.answers F.table session.old commands.now written.1.items written.0 session.new) }
{
    let mut text = Vec::new(alloc);
    let mut unsettled = false;
    for command in commands {
        let said = session.run(rt, command)?;
        let stopped = push_answer(&mut text, session.titles(), command, &said)?;
        unsettled |= stopped;
    }
    Ok((unsettled, text))
}

// A session over the cells of a table at its start.
fn begin<'a, F: FabricName, G>(
    alloc: Global,
    nodes: u8,
    fabric: &'a Fabric<F>,
    cells: Vec<NodeCell<F>>,
    gates: &'a mut [G],
) -> Result<Session<'a, F, G>, AllocError>
    requires nodes { (nodes ≡ F.table.count) × (nodes ≤ 8) }
    requires cells { AreFirst F.table.count F.table.count cells.items }
    requires many { vec_len cells ≤ 8 }
    requires gates { length gates.old ≡ 8 }
    ensures { IfOk result (λ session. IsFirst F.table session) }
{
    let room = Vec::with_capacity(alloc, cells.len())?;
    let labels = Labels::first(alloc, nodes)?;
    Ok(Session {
        workers: lend(fabric, VecDeque::from_vec(cells), gates, room),
        labels,
        alloc,
    })
}

// A transcript of a script, over a table that was made for it; and whether some settle came to its limit.
fn transcript<R: Threads + Sync, F: FabricName + Send + Sync, G: Gate + Send>(
    rt: &R,
    alloc: Global,
    script: &Script,
    blank: Blank,
    gates: &mut [G],
) -> Result<(bool, Vec<u8>), AllocError>
    requires within { HasScriptLimits script.now.nodes script.now.words }
    requires table { blank ≡ F.table }
    requires size { (F.table.count ≡ script.now.nodes) × (F.table.size ≡ script.now.words) × (F.table.reuses ≡ false) }
    requires gates { length gates.old ≡ 8 }
    ensures { IfOk result (λ written. IsTranscript G.answers script.now written.1.items written.0) }
{
    let Ok((fabric, cells)) = blank.name::<F>() else {
        return Err(AllocError);
    };
    let mut session = begin(alloc, script.nodes, &fabric, cells, gates)?;
    run_commands(rt, alloc, &mut session, script.commands.as_slice())
}

fn run_output<R: Threads + Sync, G: Gate + Send>(
    rt: &R,
    alloc: Global,
    script: &Script,
    gates: &mut [G],
) -> Result<(Outcome, Vec<u8>), AllocError>
    requires within { HasScriptLimits script.now.nodes script.now.words }
    requires gates { length gates.old ≡ 8 }
    ensures { IfOk result (λ written. IsRunOutput G.answers script.now written.0 written.1.items) }
{
    let Ok(blank) = start(alloc, script.nodes, script.words) else {
        return Err(AllocError);
    };
    let (unsettled, text) = transcript::<_, Brand, _>(rt, alloc, script, blank, gates)?;
    if unsettled {
        return Ok((Outcome::Unsettled, text));
    }
    Ok((Outcome::Done, text))
}

// What is written for these bytes, and how their run ends.
fn output<R: Threads + Sync, G: Gate + Send>(
    rt: &R,
    alloc: Global,
    input: &[u8],
    gates: &mut [G],
) -> Result<(Outcome, Vec<u8>), AllocError>
    requires gates { length gates.old ≡ 8 }
    ensures { IfOk result (λ written. IsOutput G.answers input.now written.0 written.1.items) }
{
    match read_script(alloc, input) {
        Ok(script) => run_output(rt, alloc, &script, gates),
        Err(ScriptFault::OutOfMemory) => Err(AllocError),
        Err(why) => refused_output(alloc, why),
    }
}

/// Reads a script to its end, runs it with a thread for each node in its settles, and writes its transcript, whole and in one go after the
/// last command (docs/THREADS.md, "Scripts on threads").
///
/// It differs from `run_script` only in settle. A settle asks whether each node has nothing to do, before the first round and after each.
/// In a round every node's cell is lent to a worker in a thread of its own, which takes turns: before each it asks the node's gate, and its
/// round ends if that answers false, at an idle turn, at a turn that is refused `NumbersEnd` or `OutOfMemory`, and after as many acts as are
/// left of the limit. Each turn but the one that ends the round counts as an act, also one that is refused `Raced`. Then all are joined,
/// and the acts of all of them are taken off what is left, or one if there was none. The settle has settled if no node has anything to
/// do, and is unsettled once nothing is left. So a node takes at most `limit` acts in a settle, and there are at most `limit` rounds. If a
/// turn found no memory, the run ends.
///
/// Node n has the gate of place n; there are eight. What is read and written, and the answers, are as those of `run_script`.
pub fn run_gated<R: Threads + Sync, I: Read, W: Write, G: Gate + Send>(
    rt: &R,
    alloc: Global,
    reader: &mut Device<I>,
    writer: &mut Device<W>,
    gates: &mut [G],
) -> Result<Outcome, RunFault>
    requires reader_works { reader.old.failed ≡ false }
    requires writer_works { writer.old.failed ≡ false }
    requires gates { length gates.old ≡ 8 }
    ensures run { ReadsAndWrites G.answers (I.remaining reader.old.inner) (I.remaining reader.new.inner)
        (W.contents writer.old.inner) (W.contents writer.new.inner) result }
    ensures read { IsErrOf result RunFault.Read ↔ IsTrue reader.new.failed }
    ensures write { IsErrOf result RunFault.Write ↔ IsTrue writer.new.failed }
{
    let input = read_up_to(alloc, reader, MOST_READ)?;
    let Ok((outcome, text)) = output(rt, alloc, &input, gates) else {
        return Err(RunFault::OutOfMemory);
    };
    let Ok(()) = write_whole(writer, &text) else {
        return Err(RunFault::Write);
    };
    Ok(outcome)
}

// A gate that is always open.
#[derive(Drop)]
struct OpenGate;

impl Gate for OpenGate {
    ghost use Rattle.ipcz_threads.specs.Rounds.{OpenGates};

    ghost answers = { OpenGates };

    fn pass(&mut self, _node: u8, _turns: u64) -> bool {
        true
    }
}

/// `run_gated` with gates that are open: in each round of a settle every node takes turns in a thread of its own until it is idle.
pub fn run_threads<R: Threads + Sync, I: Read, W: Write>(
    rt: &R,
    alloc: Global,
    reader: &mut Device<I>,
    writer: &mut Device<W>,
) -> Result<Outcome, RunFault>
    requires reader_works { reader.old.failed ≡ false }
    requires writer_works { writer.old.failed ≡ false }
    ensures run { ReadsAndWrites OpenGates (I.remaining reader.old.inner) (I.remaining reader.new.inner)
        (W.contents writer.old.inner) (W.contents writer.new.inner) result }
    ensures read { IsErrOf result RunFault.Read ↔ IsTrue reader.new.failed }
    ensures write { IsErrOf result RunFault.Write ↔ IsTrue writer.new.failed }
{
    let mut gates = [
        OpenGate, OpenGate, OpenGate, OpenGate, OpenGate, OpenGate, OpenGate, OpenGate,
    ];
    run_gated(rt, alloc, reader, writer, &mut gates)
}
