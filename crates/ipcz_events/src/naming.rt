//! Which act of a node the text of an event begins with.

ghost use Rattle.std.specs.Prelude.{◌≡◌, IfSome};
ghost use Rattle.std.specs.Fmt.{decimal};
ghost use Rattle.ipcz_base.specs.Texts.{end_text};
ghost use Rattle.ipcz_router.specs.declared.act.RouterAct.{RouterAct};
ghost use Rattle.ipcz_lines.specs.LineParts.{Reads};
ghost use Rattle.ipcz_events.specs.declared.naming.Named.{Named};
ghost use Rattle.ipcz_events.specs.Naming.{IsByte, IsNamedBy, IsTold, NameHasBits, PairHasBits, behind_word, first_word};

use ipcz_base::{End, Side};
use ipcz_lines::{halves, number};
use ipcz_router::act::RouterAct;

/// What the first words of an event tell of the act: all of it, but the node that sent the message that is handled.
#[derive(Clone, Copy)]
pub(crate) enum Named {
    Hand,
    Look(u8),
    Post(u8),
    Close(End),
    Router(u64, RouterAct),
    Idle,
}

// The first word of a text, and what stands behind the space that ends it; nothing if none does.
fn parted(text: &[u8]) -> (&[u8], &[u8])
    ensures first { result.0.now ≡ first_word text.now }
    ensures behind { result.1.now ≡ behind_word text.now }
{
    match halves(text, b' ') {
        Some(parts) => parts,
        None => (text, b"".as_slice()),
    }
}

// The number of a node.
fn node_in(text: &[u8]) -> Option<u8>
    ensures { Reads decimal IsByte text.now result }
{
    match number(text) {
        Some(n) if n <= 255 => Some(n as u8),
        _ => None,
    }
}

// The end that a text names, as `3B`.
fn end_in(text: &[u8]) -> Option<End>
    ensures { Reads end_text PairHasBits text.now result }
{
    let (pair, side) = match text {
        [pair @ .., b'A'] => (pair, Side::A),
        [pair @ .., b'B'] => (pair, Side::B),
        _ => return None,
    };
    Some(End {
        pair: number(pair)?,
        side,
    })
}

// The act of a router that two words tell.
fn told(verb: &[u8], way: &[u8]) -> Option<RouterAct>
    ensures some { IfSome result (λ act. IsTold verb.now way.now act) }
    ensures only { (act : RouterAct) → IsTold verb.now way.now act → result ≡ Some act }
{
    match verb {
        b"send" => match way {
            b"out" => Some(RouterAct::SendOut),
            b"in" => Some(RouterAct::SendIn),
            _ => None,
        },
        b"finish" => match way {
            b"out" => Some(RouterAct::FinishOut),
            b"in" => Some(RouterAct::FinishIn),
            _ => None,
        },
        b"discard" => Some(RouterAct::Discard),
        b"leave" => Some(RouterAct::Leave),
        b"mark" => Some(RouterAct::Mark),
        b"wake" => Some(RouterAct::Wake),
        b"claim" => Some(RouterAct::Claim),
        b"lock" | b"wait" | b"refused" => Some(RouterAct::Lock),
        b"begin" => Some(RouterAct::Begin),
        b"retire" => Some(RouterAct::Retire),
        b"unlock" => Some(RouterAct::Unlock),
        b"rest" => Some(RouterAct::Rest),
        _ => None,
    }
}

// The act of a router that the words behind its serial tell.
fn told_by(text: &[u8]) -> Option<RouterAct>
    ensures some { IfSome result (λ act. IsTold (first_word text.now) (first_word (behind_word text.now)) act) }
    ensures only { (act : RouterAct) → IsTold (first_word text.now) (first_word (behind_word text.now)) act → result ≡ Some act }
{
    let (verb, rest) = parted(text);
    let (way, _) = parted(rest);
    told(verb, way)
}

// What is named by the first word of a text, and by what stands behind it.
fn named_by(first: &[u8], rest: &[u8]) -> Option<Named>
    ensures some { IfSome result (λ name. IsNamedBy first.now rest.now name × NameHasBits name) }
    ensures only { (name : Named) → IsNamedBy first.now rest.now name → NameHasBits name → result ≡ Some name }
{
    match first {
        b"hand" => Some(Named::Hand),
        b"look" => Some(Named::Look(node_in(rest)?)),
        b"post" => Some(Named::Post(node_in(rest)?)),
        b"close" => Some(Named::Close(end_in(rest)?)),
        b"idle" => Some(Named::Idle),
        [b'r', digits @ ..] => Some(Named::Router(number(digits)?, told_by(rest)?)),
        _ => None,
    }
}

/// What the first words of a text name: `r2 lock C1 547` names the try of router 2 for the lock, whatever stands behind.
pub(crate) fn named_in(text: &[u8]) -> Option<Named>
    ensures some { IfSome result (λ name. IsNamedBy (first_word text.now) (behind_word text.now) name × NameHasBits name) }
    ensures only { (name : Named) → IsNamedBy (first_word text.now) (behind_word text.now) name → NameHasBits name → result ≡ Some name }
{
    let (first, rest) = parted(text);
    named_by(first, rest)
}
