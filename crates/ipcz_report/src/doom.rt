//! Why a put is refused whatever was done before it.

ghost use Rattle.std.specs.Prelude.{◌≡◌, bytes_eq, is_some, true, IfSome};
ghost use Rattle.std.specs.List.{list_any};
ghost use Rattle.ipcz_base.specs.Limits.{is_printable};
ghost use Rattle.ipcz_report.specs.Dooms.{applies, has_twice, is_doomed, IsRefusedInEachRun};

use ipcz_script::Text;

/// Why a put is refused whatever was done before it, by its names and its data alone.
#[derive(Clone, Copy, Debug, PartialEq, Eq)]
pub enum Doom {
    /// It has more than 256 bytes.
    TooLong,
    /// It has more than 8 portals.
    TooMany,
    /// A byte isn't from 0x20 to 0x7E.
    Unprinted,
    /// A portal is to travel through itself.
    Itself,
    /// A portal is attached twice.
    Twice,
}

// Whether a name is one of these.
fn has_name(names: &[Text], name: &Text) -> bool
    ensures { result ≡ list_any (bytes_eq name.now) names.now }
{
    names
        .iter()
        .any(|other| name.as_bytes() == other.as_bytes())
}

// Whether one of these names is that of another one of them.
fn has_twice(names: &[Text]) -> bool
    ensures { result ≡ has_twice names.now }
{
    for i in 0..names.len() {
        if has_name(&names[i + 1..], &names[i]) {
            return true;
        }
    }
    false
}

fn is_printed(data: &Text) -> bool
    ensures { result ≡ is_printable data.now }
{
    data.as_bytes().iter().all(|b| 0x20 <= *b && *b <= 0x7e)
}

// The first reason for which a put is refused whatever was done before it.
fn first_doom(at: &Text, data: &Text, names: &[Text]) -> Option<Doom>
    ensures doomed { is_some result ≡ is_doomed at.now data.now names.now }
    ensures why { IfSome result (λ doom. applies doom at.now data.now names.now ≡ true) }
{
    if data.len() > 256 {
        Some(Doom::TooLong)
    } else if names.len() > 8 {
        Some(Doom::TooMany)
    } else if !is_printed(data) {
        Some(Doom::Unprinted)
    } else if has_name(names, at) {
        Some(Doom::Itself)
    } else if has_twice(names) {
        Some(Doom::Twice)
    } else {
        None
    }
}

/// Why a put at this portal, with this data and these portals, is refused whatever was done before it; nothing if that depends on it.
///
/// Of several reasons it is the first that a run finds if it knows all names and holds all portals. A put at `x` that attaches `x` is
/// `Itself`; one at `x` that attaches `y` is none of these, though a run refuses it if `y` was closed before.
#[tactic(auto, using(crate::proofs::Doomed::if_doomed))]
pub fn doom_of(at: &Text, data: &Text, names: &[Text]) -> Option<Doom>
    ensures doomed { is_some result ≡ is_doomed at.now data.now names.now }
    ensures why { IfSome result (λ doom. applies doom at.now data.now names.now ≡ true) }
    ensures refused { IfSome result (λ _. IsRefusedInEachRun at.now data.now names.now) }
{
    first_doom(at, data, names)
}
