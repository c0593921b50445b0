//! Portals that move twice, and what a settle then promises: all has arrived, over one link without a proxy.

ghost use Rattle.std.specs.Prelude.{◌≡◌, ℕ, true, false, IfOk};
ghost use Rattle.ipcz_base.specs.Ends.{end_at};
ghost use Rattle.ipcz_world.specs.Books.{Books, is_closed};
ghost use Rattle.ipcz_world.specs.Lawful.{Lawful};
ghost use Rattle.ipcz_world.specs.Owed.{IsWet, IsDirect, HasNoProxies, HasNoClosedPairs};
ghost use Rattle.ipcz_world.specs.Routes.{Routes, is_opened};

use super::calls::puts;
use super::{get, is_got, is_refused};
use ipcz_base::{End, Refusal, Side};
use ipcz_world::laws::a_settled_world_is_direct;
use ipcz_world::{Settled, Step, World};
use std::alloc::Global;

// A parcel that is put at one end and got at its peer: at which node each is done, its number, and what it carries.
struct Carried {
    from: (u8, End),
    to: (u8, End),
    number: u64,
    data: &'static [u8],
    ends: &'static [End],
}

const MOVED: End = End {
    pair: 3,
    side: Side::B,
};

// The end 3B goes from node 0 by node 1 to node 2, and each time leaves a proxy that is bypassed. What is put at 3A before, between and
// after arrives there, in order, and so does what goes back.
static CARRIED: [Carried; 5] = [
    Carried {
        from: (
            0,
            End {
                pair: 0,
                side: Side::A,
            },
        ),
        to: (
            1,
            End {
                pair: 0,
                side: Side::B,
            },
        ),
        number: 0,
        data: b"first",
        ends: &[MOVED],
    },
    Carried {
        from: (
            0,
            End {
                pair: 3,
                side: Side::A,
            },
        ),
        to: (1, MOVED),
        number: 0,
        data: b"between",
        ends: &[],
    },
    Carried {
        from: (
            1,
            End {
                pair: 2,
                side: Side::A,
            },
        ),
        to: (
            2,
            End {
                pair: 2,
                side: Side::B,
            },
        ),
        number: 0,
        data: b"second",
        ends: &[MOVED],
    },
    Carried {
        from: (
            0,
            End {
                pair: 3,
                side: Side::A,
            },
        ),
        to: (2, MOVED),
        number: 1,
        data: b"after",
        ends: &[],
    },
    Carried {
        from: (2, MOVED),
        to: (
            0,
            End {
                pair: 3,
                side: Side::A,
            },
        ),
        number: 0,
        data: b"back",
        ends: &[],
    },
];

// Whether the world settles within so many acts. If it does and no router has found the words used up, no proxy is left, nor a router of
// a pair with both ends closed, and each other open pair is direct.
fn settles(world: &mut World, limit: u64) -> Result<bool, Refusal>
    ensures direct { IfOk result (λ settled. (b : Books) → (g : Routes) → settled ≡ true → Lawful world.new.world b g → IsWet world.new.world →
        HasNoProxies world.new.world × HasNoClosedPairs world.new.world b ×
        ((pair : ℕ) (s : Side) → is_opened g pair ≡ true → is_closed b (end_at pair s) ≡ false → IsDirect world.new.world b pair)) }
{
    a_settled_world_is_direct();
    Ok(matches!(world.settle(limit)?, Settled::Settled { .. }))
}

// Whether a parcel is put under its number.
fn is_accepted(world: &mut World, alloc: Global, parcel: &Carried) -> Result<bool, Refusal> {
    let (node, at) = parcel.from;
    Ok(puts(
        world,
        alloc,
        node,
        at,
        (parcel.data, parcel.ends),
        parcel.number,
    )?)
}

// Whether a parcel is got, and nothing after it.
fn is_next(world: &mut World, parcel: &Carried) -> bool {
    let next = get(parcel.to.0, parcel.to.1);
    let got = is_got(&world.step(&next), parcel.number, parcel.data, parcel.ends);
    got && is_refused(&world.step(&next), Refusal::Empty)
}

// Whether a parcel is put, the world settles, and the parcel is got, and nothing after it.
fn arrives(world: &mut World, alloc: Global, parcel: &Carried) -> Result<bool, Refusal> {
    let accepted = is_accepted(world, alloc, parcel)?;
    let settled = settles(world, 1000)?;
    Ok(accepted && settled && is_next(world, parcel))
}

// Whether each parcel arrives.
fn all_arrive(world: &mut World, alloc: Global) -> Result<bool, Refusal> {
    world.step(&Step::Open(0));
    for parcel in CARRIED.iter() {
        if !arrives(world, alloc, parcel)? {
            return Ok(false);
        }
    }
    Ok(true)
}

// How many words are claimed on a new world in which each parcel arrives; none if one doesn't.
fn claimed_by_all(alloc: Global) -> Result<Option<u64>, Refusal> {
    let mut world = World::new(alloc, 3, 8)?;
    Ok(all_arrive(&mut world, alloc)?.then_some(world.claimed()))
}

// Three words for the first pairs, one for the open and one for each bypass: words were left.
#[test]
fn all_arrives_at_a_portal_that_has_moved_twice(rt: HostRuntime) {
    assert_eq!(rt; claimed_by_all(rt.alloc()), Ok(Some(6)));
}
