//! What a reply tells C beside its status, written to the places that C gave for it.
ghost use Rattle.std.specs.Prelude.{◌≡◌, ◌≤◌, true, false, Some, IfSome, IfNone, length};
ghost use Rattle.ipcz_world.specs.Steps.{sizes_given};
ghost use Rattle.ipcz_c.specs.CellCalls.{outcome_of, IsNumbered, AreEnds, get_answer, retry_code};
ghost use Rattle.ipcz_c.specs.Looks.{TellsArrived, TellsSeen};
ghost use Rattle.ipcz_c.specs.Ready.{TellsReady};
ghost use Rattle.ipcz_c.specs.Told.{room_of, fits, AreOpened, IsPut, IsActed, TellsSizes, AreAtFront, AreNamedAtFront, IsGot, IsSettled};

use crate::portal::{Portal, Seen, portal_of};
use crate::status::refused;
use ipcz_base::{End, Parcel, PortalStatus, Refusal, Sizes};
use ipcz_cell::Retry;
use ipcz_node::Happened;
use ipcz_world::{Reply, Settled};

// The portals that were opened.
#[tactic(auto, unfolding(crate::specs::Told::AreOpened))]
pub(crate) fn tell_opened(reply: &Reply, first: &mut Portal, second: &mut Portal)
    ensures { AreOpened reply.now first.old second.old first.new second.new }
{
    if let Reply::Opened(a, b) = reply {
        *first = portal_of(*a);
        *second = portal_of(*b);
    }
}

// The number of what was put.
#[tactic(auto, unfolding(crate::specs::Told::IsPut))]
pub(crate) fn tell_put(reply: &Reply, number: &mut u64)
    ensures { IsPut reply.now number.old number.new }
{
    if let Reply::Put(put) = reply {
        *number = *put;
    }
}

// The sizes of the next parcel, where room for so many bytes and portals is too little for it.
#[tactic(auto, unfolding(crate::specs::Told::fits))]
pub(crate) fn lacking(next: Option<Sizes>, bytes: usize, portals: usize) -> Option<Sizes>
    ensures next { IfSome result (λ s. next ≡ Some s) }
    ensures small { IfSome result (λ s. fits next bytes portals ≡ false) }
    ensures fits { IfNone result (fits next bytes portals ≡ true) }
{
    match next {
        Some(sizes) if bytes < sizes.bytes || portals < sizes.ends => Some(sizes),
        _ => None,
    }
}

// The sizes of the next parcel, and whether there is one.
#[tactic(auto, unfolding(crate::specs::Told::TellsSizes))]
pub(crate) fn tell_sizes(next: Option<Sizes>, size: &mut usize, count: &mut usize) -> bool
    ensures { TellsSizes next result size.old count.old size.new count.new }
{
    let Some(sizes) = next else {
        return false;
    };
    *size = sizes.bytes;
    *count = sizes.ends;
    true
}

// What a look tells, and its status.
#[tactic(auto, unfolding(crate::specs::Looks::TellsSeen, crate::specs::Looks::sizes_told))]
pub(crate) fn tell_seen(answer: Option<PortalStatus>, seen: &mut Seen) -> u32
    ensures { TellsSeen answer result seen.old seen.new }
{
    let Some(told) = answer else {
        return refused(Refusal::Stranger);
    };
    let (size, count) = match told.sizes {
        Some(sizes) => (sizes.bytes, sizes.ends),
        None => (0, 0),
    };
    *seen = Seen {
        next: told.next,
        waiting: told.waiting,
        size,
        count,
        peer_closed: told.peer_closed,
    };
    0
}

// Whether a portal has arrived, and the status.
#[tactic(auto, unfolding(crate::specs::Looks::TellsArrived))]
pub(crate) fn tell_arrived(answer: Option<bool>, arrived: &mut bool) -> u32
    ensures { TellsArrived answer result arrived.old arrived.new }
{
    match answer {
        Some(is) => {
            *arrived = is;
            0
        }
        None => refused(Refusal::Stranger),
    }
}

// The next end at which something has come, and from which serial to ask for the one behind it; its status.
#[tactic(auto, unfolding(crate::specs::Ready::TellsReady))]
pub(crate) fn tell_ready(answer: Option<(u64, End)>, from: &mut u64, at: &mut Portal) -> u32
    ensures { TellsReady answer result from.old from.new at.old at.new }
{
    let Some((serial, end)) = answer else {
        return refused(Refusal::Empty);
    };
    *from = serial.saturating_add(1);
    *at = portal_of(end);
    0
}

// Whether a turn was an act.
#[tactic(auto, unfolding(crate::specs::Told::IsActed))]
pub(crate) fn tell_acted(reply: &Reply, acted: &mut bool)
    ensures { IsActed reply.now acted.old acted.new }
{
    match reply {
        Reply::Turned(Happened::Idle) => *acted = false,
        Reply::Turned(_) => *acted = true,
        _ => {}
    }
}

// Copies bytes to the front of a room.
fn tell_bytes(bytes: &[u8], room: &mut [u8])
    requires { length bytes.now ≤ length room.old }
    ensures { AreAtFront bytes.now room.old room.new }
{
    room[..bytes.len()].copy_from_slice(bytes);
}

// Names ends at the front of a room.
fn tell_portals(ends: &[End], room: &mut [Portal])
    requires { length ends.now ≤ length room.old }
    ensures { AreNamedAtFront ends.now room.old room.new }
{
    for at in 0..ends.len() {
        room[at] = portal_of(ends[at]);
    }
}

// The parcel that was got, for which there is room.
#[tactic(auto, unfolding(crate::specs::Told::IsGot, crate::specs::Told::fits, ipcz_world::specs::Steps::sizes_given))]
pub(crate) fn tell_got(
    reply: &Reply,
    bytes: &mut [u8],
    size: &mut usize,
    portals: &mut [Portal],
    count: &mut usize,
    number: &mut u64,
)
    requires { fits (sizes_given reply.now) (length bytes.old) (length portals.old) ≡ true }
    ensures { IsGot reply.now
        (room_of bytes.old size.old portals.old count.old number.old)
        (room_of bytes.new size.new portals.new count.new number.new) }
{
    if let Reply::Got(got, parcel) = reply {
        *number = *got;
        *size = parcel.bytes.len();
        *count = parcel.ends.len();
        tell_bytes(parcel.bytes.as_slice(), bytes);
        tell_portals(parcel.ends.as_slice(), portals);
    }
}

// What a settle came to: its status is answered.
#[tactic(auto, unfolding(crate::specs::Told::IsSettled))]
pub(crate) fn tell_settled(
    limit: u64,
    answer: &Result<Settled, Refusal>,
    acts: &mut u64,
    quiet: &mut bool,
) -> u32
    ensures { IsSettled limit answer.now result acts.old quiet.old acts.new quiet.new }
{
    match answer {
        Ok(Settled::Settled { after }) => {
            *acts = *after;
            *quiet = true;
            0
        }
        Ok(Settled::Unsettled) => {
            *acts = limit;
            *quiet = false;
            0
        }
        Err(why) => refused(*why),
    }
}

// The number of an answer, if it isn't a refusal: its status is answered.
#[tactic(auto, unfolding(crate::specs::CellCalls::IsNumbered))]
pub(crate) fn tell_number(answer: Result<u64, Refusal>, number: &mut u64) -> u32
    ensures { IsNumbered answer result number.old number.new }
{
    match answer {
        Ok(told) => {
            *number = told;
            0
        }
        Err(why) => refused(why),
    }
}

// The portals that were opened, if the answer isn't a refusal: its status is answered.
#[tactic(auto, unfolding(crate::specs::CellCalls::AreEnds))]
pub(crate) fn tell_ends(
    answer: Result<(End, End), Refusal>,
    first: &mut Portal,
    second: &mut Portal,
) -> u32
    ensures { AreEnds answer result first.old second.old first.new second.new }
{
    match answer {
        Ok((a, b)) => {
            *first = portal_of(a);
            *second = portal_of(b);
            0
        }
        Err(why) => refused(why),
    }
}

// The status of an answer.
#[tactic(auto, unfolding(crate::specs::CellCalls::outcome_of))]
pub(crate) fn outcome<T: Drop>(answer: Result<T, Refusal>) -> u32
    ensures { result ≡ outcome_of answer }
{
    match answer {
        Ok(_) => 0,
        Err(why) => refused(why),
    }
}

// What a get of a cell answers, as a reply.
#[tactic(auto, unfolding(crate::specs::CellCalls::get_answer))]
pub(crate) fn got(answer: Result<(u64, Parcel), Refusal>) -> Reply
    ensures { result ≡ get_answer answer }
{
    match answer {
        Ok((number, parcel)) => Reply::Got(number, parcel),
        Err(why) => Reply::Refused(why),
    }
}

// What became of a proxy that may ask again for its slot.
pub(crate) fn retried(answer: Retry) -> u32
    ensures { result ≡ retry_code answer }
{
    match answer {
        Retry::NoneWaits => 0,
        Retry::NoSlot => 1,
        Retry::Again(_) => 2,
    }
}
