//! How loose the limit is that a world tells, compared with the acts that were taken, over worlds that are drawn by a number.
use crate::fault::Fault;
use crate::trial::Portal;
use ipcz_base::{Bytes, End, Ends, Refusal, Side};
use ipcz_world::{Reply, Settled, Step, World};
use std::alloc::{AllocError, Global};

/// How many link words a world has, and of how many pairs its calls are.
const WORDS: u32 = 64;

const PAIRS: u64 = 12;

/// How many calls are drawn for a world, and how many rounds are taken to read the parcels that carry portals.
const CALLS: u64 = 60;

const ROUNDS: u64 = 40;

/// Numbers that follow one another by a rule, and look drawn.
#[derive(Drop)]
struct Draw {
    now: u64,
}

impl Draw {
    // A number below the bound; 0 if that is 0.
    fn below(&mut self, bound: u64) -> u64 {
        let next = self.now.wrapping_mul(6_364_136_223_846_793_005);
        self.now = next.wrapping_add(1_442_695_040_888_963_407);
        (self.now >> 33).checked_rem(bound).unwrap_or(0)
    }

    // A portal of a world with at most four nodes, which its callers may hold or not.
    fn portal(&mut self) -> Portal {
        let node = match self.below(4) {
            0 => 0,
            1 => 1,
            2 => 2,
            _ => 3,
        };
        let side = match self.below(2) {
            0 => Side::A,
            _ => Side::B,
        };
        let place = self.below(PAIRS);
        let pair = if place < PAIRS { place as u64 } else { 0 };
        Portal {
            node,
            end: End { pair, side },
        }
    }
}

/// A world that is drawn, whether portals move in it, and how many parcels that carry one were put and not got.
#[derive(Drop)]
struct Drawn {
    world: World,
    moves: bool,
    carried: u64,
}

// The lists of a parcel, with a portal or none.
fn lists(alloc: Global, carried: Option<End>) -> Result<(Bytes, Ends), AllocError> {
    let bytes = Bytes::from_slice(alloc, b"xxxx")?;
    let ends = match carried {
        Some(end) => Vec::from_slice(alloc, &[end])?,
        None => Vec::new(alloc),
    };
    Ok((bytes, Ends::from_vec(ends)))
}

// Whether a parcel was got that has portals.
fn brings_portals(reply: &Reply) -> bool {
    match reply {
        Reply::Got(_, parcel) => parcel.ends.as_slice().len() > 0,
        _ => false,
    }
}

impl Drawn {
    // A world of one to four nodes with nothing in it.
    fn new(alloc: Global, draw: &mut Draw, moves: bool) -> Result<Self, Refusal> {
        let world = match draw.below(4) {
            0 => World::new(alloc, 1, WORDS)?,
            1 => World::new(alloc, 2, WORDS)?,
            2 => World::new(alloc, 3, WORDS)?,
            _ => World::new(alloc, 4, WORDS)?,
        };
        Ok(Drawn {
            world,
            moves,
            carried: 0,
        })
    }

    // Puts a parcel, with a portal or none; a put that is refused does nothing.
    fn put(&mut self, alloc: Global, at: Portal, carried: Option<End>) -> Result<(), Fault> {
        let (bytes, ends) = lists(alloc, carried)?;
        let is_put = self.world.put(at.node, at.end, bytes, ends).is_ok();
        if carried.is_some() && is_put {
            self.carried = self.carried.saturating_add(1);
        }
        Ok(())
    }

    // Gets a parcel, if there is one.
    fn get(&mut self, at: Portal) {
        let got = self.world.step(&Step::Get {
            node: at.node,
            at: at.end,
        });
        if brings_portals(&got) {
            self.carried = self.carried.saturating_sub(1);
        }
    }

    // One call that is drawn, or some acts of the nodes.
    fn call(&mut self, alloc: Global, draw: &mut Draw) -> Result<(), Fault> {
        match draw.below(8) {
            0 => {
                self.world.step(&Step::Open(draw.portal().node));
            }
            1 | 2 => {
                let carried = draw.portal().end;
                self.put(
                    alloc,
                    draw.portal(),
                    if self.moves { Some(carried) } else { None },
                )?;
            }
            3 | 4 => self.put(alloc, draw.portal(), None)?,
            5 | 6 => self.get(draw.portal()),
            _ => {
                self.world.settle(draw.below(40))?;
            }
        }
        Ok(())
    }

    // Gets at each portal that may be.
    fn get_everywhere(&mut self) {
        for place in 0..8 * PAIRS {
            let node = match place % 4 {
                0 => 0,
                1 => 1,
                2 => 2,
                _ => 3,
            };
            let side = if place / 4 % 2 == 0 { Side::A } else { Side::B };
            let pair = (place / 8) as u64;
            self.get(Portal {
                node,
                end: End { pair, side },
            });
        }
    }

    // Reads until no parcel that carries a portal waits: a few acts, and gets at all portals, again and again.
    fn read(&mut self, draw: &mut Draw) -> Result<(), Fault> {
        for _ in 0..ROUNDS {
            if self.carried == 0 {
                return Ok(());
            }
            self.world.settle(draw.below(20))?;
            self.get_everywhere();
        }
        Ok(())
    }

    // The limit that the world tells, in hundredths of the acts that it takes; none if it takes none, or if a parcel that carries a portal
    // waits.
    fn looseness(&mut self) -> Result<Option<u64>, Fault> {
        if self.carried > 0 {
            return Ok(None);
        }
        let Some(limit) = self.world.settle_limit() else {
            return Ok(None);
        };
        match self.world.settle(limit)? {
            Settled::Settled { after } => Ok(limit.saturating_mul(100).checked_div(after)),
            Settled::Unsettled => Err(Fault::Refused(Refusal::Stranger)),
        }
    }
}

// The looseness of a world, once calls were drawn for it.
fn looseness_after(
    alloc: Global,
    drawn: &mut Drawn,
    draw: &mut Draw,
) -> Result<Option<u64>, Fault> {
    for _ in 0..CALLS {
        drawn.call(alloc, draw)?;
    }
    drawn.read(draw)?;
    for _ in 0..draw.below(20) {
        drawn.put(alloc, draw.portal(), None)?;
    }
    drawn.looseness()
}

// The looseness of the world of a number.
fn looseness_of(alloc: Global, number: u64, moves: bool) -> Result<Option<u64>, Fault> {
    let mut draw = Draw { now: number };
    let mut drawn = Drawn::new(alloc, &mut draw, moves)?;
    looseness_after(alloc, &mut drawn, &mut draw)
}

// The loosenesses of so many worlds.
fn all_of(alloc: Global, worlds: u64, moves: bool) -> Result<Vec<u64>, Fault> {
    let mut all = Vec::new(alloc);
    for number in 0..worlds {
        if let Some(looseness) = looseness_of(alloc, number, moves)? {
            all.push(looseness)?;
        }
    }
    all.sort()?;
    Ok(all)
}

/// The looseness at a place, in hundredths of all places, among those of so many worlds in order: 0 is the least, 50 the median, 100 the worst.
pub fn looseness_at(alloc: Global, worlds: u64, moves: bool, place: u64) -> Result<u64, Fault> {
    let all = all_of(alloc, worlds, moves)?;
    let last = (all.len() as u64).saturating_sub(1);
    let index = last.saturating_mul(place) / 100;
    all.as_slice()
        .get(index as usize)
        .copied()
        .ok_or(Fault::Usage)
}
