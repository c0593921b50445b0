//! An act in the words by which its event begins.

ghost use Rattle.std.specs.Prelude.{◌≡◌, ◌++◌, OnOk};
ghost use Rattle.ipcz_events.specs.Naming.{act_text, told_words};

use ipcz_node::Act;
use ipcz_router::act::RouterAct;
use std::io;
use std::io::Write;

// The words that tell what a router does.
fn told_words(act: RouterAct) -> &'static str
    ensures { result.now ≡ told_words act }
{
    match act {
        RouterAct::SendOut => "send out",
        RouterAct::SendIn => "send in",
        RouterAct::Discard => "discard",
        RouterAct::FinishOut => "finish out",
        RouterAct::FinishIn => "finish in",
        RouterAct::Leave => "leave",
        RouterAct::Mark => "mark",
        RouterAct::Wake => "wake",
        RouterAct::Claim => "claim",
        RouterAct::Lock => "lock",
        RouterAct::Begin => "begin",
        RouterAct::Retire => "retire",
        RouterAct::Unlock => "unlock",
        RouterAct::Rest => "rest",
    }
}

// Adds what a router does.
fn push_router(out: &mut Vec<u8>, serial: u64, act: RouterAct) -> io::Result<()>
    ensures { OnOk result (out.new.items ≡ out.old.items ++ act_text (Act.Router serial act)) }
{
    let words = told_words(act);
    write!(out, "r{serial} {words}")
}

/// Adds an act in the words by which its event begins, as `r2 lock` or `post 1`. After an `Err`, which is want of memory, some front of them may
/// stand behind what was there.
pub(crate) fn push_act(out: &mut Vec<u8>, act: Act) -> io::Result<()>
    ensures { OnOk result (out.new.items ≡ out.old.items ++ act_text act) }
{
    match act {
        Act::Hand(_) => write!(out, "hand"),
        Act::Look(sender) => write!(out, "look {sender}"),
        Act::Post(to) => write!(out, "post {to}"),
        Act::Close(end) => write!(out, "close {end}"),
        Act::Router(serial, act) => push_router(out, serial, act),
        Act::Idle => write!(out, "idle"),
    }
}
