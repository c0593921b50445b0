//! Reading what a line says that a call answered.
ghost use Rattle.std.specs.Prelude.{◌≡◌, option_map};
ghost use Rattle.serde_json.specs.View.{view};
ghost use Rattle.ipcz_log.specs.Logs.{answer_in, number_in, refusal_named, text_in};

use ipcz_base::Refusal;
use serde_json::Value;

/// What a line says that a call answered: a number, or why it was refused.
#[derive(Clone, Copy, Debug, PartialEq, Eq)]
pub enum Answer {
    Number(u64),
    Refused(Refusal),
}

/// The text that a member is.
pub(crate) fn text_in<'v>(value: &'v Value, name: &str) -> Option<&'v str>
    ensures { option_map (λ text. text.now) result ≡ text_in name.now (view value.now) }
{
    value.get(name)?.as_str()
}

/// The whole number that a member is.
pub(crate) fn number_in(value: &Value, name: &str) -> Option<u64>
    ensures { result ≡ number_in name.now (view value.now) }
{
    value.get(name)?.as_u64()
}

/// The refusal of a name.
pub(crate) fn refusal_named(name: &str) -> Option<Refusal>
    ensures { result ≡ refusal_named name.now }
{
    if name == "OutOfMemory" {
        Some(Refusal::OutOfMemory)
    } else if name == "Empty" {
        Some(Refusal::Empty)
    } else if name == "PeerClosed" {
        Some(Refusal::PeerClosed)
    } else if name == "NoWord" {
        Some(Refusal::NoWord)
    } else if name == "SelfAttach" {
        Some(Refusal::SelfAttach)
    } else if name == "PeerAttach" {
        Some(Refusal::PeerAttach)
    } else if name == "Stranger" {
        Some(Refusal::Stranger)
    } else if name == "NumbersEnd" {
        Some(Refusal::NumbersEnd)
    } else if name == "BadData" {
        Some(Refusal::BadData)
    } else if name == "TooMany" {
        Some(Refusal::TooMany)
    } else {
        None
    }
}

/// What the call of a line answered: its refusal, if it has one, and else its number.
pub(crate) fn answer_in(value: &Value) -> Option<Answer>
    ensures { result ≡ answer_in (view value.now) }
{
    match text_in(value, "refused") {
        Some(name) => match refusal_named(name) {
            Some(why) => Some(Answer::Refused(why)),
            None => None,
        },
        None => match number_in(value, "n") {
            Some(number) => Some(Answer::Number(number)),
            None => None,
        },
    }
}
