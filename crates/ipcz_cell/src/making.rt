//! A table is made and named, and each node gets its cell.
ghost use Rattle.ipcz_cell.specs.Seats.{mine_of, HasNoSlots};
ghost use Rattle.std.specs.Prelude.{◌≡◌, ◌≤◌, ◌<◌, ◌+◌, ◌-◌, ◌++◌, true, false, [], length, replicate, IfOk, IfErr, OnOk, vec_len, vec_capacity};
ghost use Rattle.ipcz_node.specs.FirstPairs.{first_pairs};
ghost use Rattle.ipcz_rule.specs.Start.{opening_words, opening_parts, after_deal, dealt};
ghost use Rattle.ipcz_rule.specs.LastingStart.{lasting_words, whole_words};
ghost use Rattle.ipcz_world.specs.Lawful.{IsWithinLimits};
ghost use Rattle.ipcz_cell.specs.Making.{AreBodies, AreFirst};
ghost use Rattle.ipcz_cell.specs.TableNames.{TableName};

use crate::bells::Bells;
use crate::cell::NodeCell;
use crate::fabric::{Fabric, FabricName};
use crate::node_list::NodeList;
use crate::plays::Deal;
use crate::seat::TableSeat;
use atomic_table::Table;
use ipcz_base::Refusal;
use ipcz_node::{Batch, NodeState, first_pair_count};
use ipcz_rule::{FabricLaw, Size, View};
use ipcz_slots::Own;
use ipcz_word::{EMPTY_WORD, OPEN_WORD};
use std::alloc::{AllocError, Global};
use std::collections::VecDeque;
use std::marker::{Model, PhantomData};

/// The let-go word of a slot that both sides have let go.
pub(crate) const BOTH_SIDES: u64 = 3;

/// A table that has no name yet. In a clause it is which table it is, and for how many nodes and link words.
#[derive(Drop)]
pub struct Blank {
    table: Table<Batch, Own<View>, Size, FabricLaw, Global>,
    seat: TableSeat,
    nodes: u8,
    words: u64,
    slots: u32,
    reuses: bool,
    alloc: Global,
}

impl Model for Blank {
    ghost use Rattle.ipcz_cell.specs.TableNames.{TableName, name_coded};

    ghost Value = { TableName };

    ghost coded = { name_coded };

    ghost view = { λ b. record { id = b.table.shared.table_id; count = b.nodes; size = b.words; slots = b.slots; reuses = b.reuses } };

    ghost use Rattle.ipcz_cell.specs.Blanks.{IsBlank};

    ghost invariant = { IsBlank };
}

/// The table of so many nodes and link words, which shows the world at the start (`World::new`).
///
/// `nodes` is 1 to 64; `words` is from the number of first pairs, `nodes * (nodes - 1) / 2`, to 2^32 - 1. The table holds all of them from
/// the start, 16 bytes each. Its only refusal is `OutOfMemory`.
///
/// `start(alloc, 2, 8)?.name::<F>()` gives the fabric and the two cells of such a table.
pub fn start(alloc: Global, nodes: u8, words: u32) -> Result<Blank, Refusal>
    requires limits { IsWithinLimits nodes words }
    ensures size { IfOk result (λ b. (b.count ≡ nodes) × (b.size ≡ words) × (b.slots ≡ words) × (b.reuses ≡ false)) }
    ensures why { IfErr result (λ e. e ≡ Refusal.OutOfMemory) }
{
    let Ok(numbers) = whole_words(alloc, nodes, words) else {
        return Err(Refusal::OutOfMemory);
    };
    let boxes = usize::from(nodes) * usize::from(nodes);
    let size = Size {
        nodes,
        words: words as u64,
        slots: words,
        reuses: false,
    };
    let Ok(batches) = empty_batches(alloc, boxes) else {
        return Err(Refusal::OutOfMemory);
    };
    let Ok((table, seat)) = Table::new(alloc, &numbers, batches, &size) else {
        return Err(Refusal::OutOfMemory);
    };
    Ok(Blank {
        table,
        seat,
        nodes,
        words: words as u64,
        slots: words,
        reuses: false,
        alloc,
    })
}

/// The table of so many nodes whose link words come back: with so many slots for them, and so many numbers. It shows the world at the start.
///
/// A slot is used again once both its sides have let go of its number, so what is limited is how many links there are at once. Each open and
/// each bypass takes a number, and some are passed over; none comes back, so `numbers` is how long the table lasts.
///
/// `nodes` is 1 to 64; `slots` is from the number of first pairs, `nodes * (nodes - 1) / 2`, and from 1, to `numbers`. Its only refusal is
/// `OutOfMemory`.
///
/// `start_lasting(alloc, 2, 64, u64::MAX)` makes one with 64 slots.
pub fn start_lasting(alloc: Global, nodes: u8, slots: u32, numbers: u64) -> Result<Blank, Refusal>
    requires limits { IsWithinLimits nodes numbers }
    requires pairs { length (first_pairs nodes) ≤ slots }
    requires slots { (1 ≤ slots) × (slots ≤ numbers) }
    ensures size { IfOk result (λ b. (b.count ≡ nodes) × (b.size ≡ numbers) × (b.slots ≡ slots) × (b.reuses ≡ true)) }
    ensures why { IfErr result (λ e. e ≡ Refusal.OutOfMemory) }
{
    let Ok(words) = lasting_words(alloc, nodes, slots) else {
        return Err(Refusal::OutOfMemory);
    };
    let boxes = usize::from(nodes) * usize::from(nodes);
    let size = Size {
        nodes,
        words: numbers,
        slots,
        reuses: true,
    };
    let Ok(batches) = empty_batches(alloc, boxes) else {
        return Err(Refusal::OutOfMemory);
    };
    let Ok((table, seat)) = Table::new(alloc, &words, batches, &size) else {
        return Err(Refusal::OutOfMemory);
    };
    Ok(Blank {
        table,
        seat,
        nodes,
        words: numbers,
        slots,
        reuses: true,
        alloc,
    })
}

// So many batches without a message.
fn empty_batches(alloc: Global, count: usize) -> Result<Vec<Batch>, AllocError>
    ensures { IfOk result (λ v. v.items ≡ replicate count []) }
{
    let mut batches = Vec::with_capacity(alloc, count)?;
    for _slot in 0..count {
        batches.push_reserved(Batch::new(alloc));
    }
    Ok(batches)
}

// The words of a table at the start in which each number has its slot: nobody has let go of any.
fn whole_words(alloc: Global, nodes: u8, words: u32) -> Result<Vec<u64>, AllocError>
    requires limits { IsWithinLimits nodes words }
    ensures { IfOk result (λ v. v.items ≡ whole_words nodes words) }
{
    let mut numbers = opening_words(alloc, nodes, words)?;
    let behind = numbers.len() + words as usize;
    numbers.resize(behind, 0)?;
    Ok(numbers)
}

// Adds a number so many times.
fn fill(words: &mut Vec<u64>, more: usize, value: u64) -> Result<(), AllocError>
    requires few { vec_len words.old + more < 18446744073709551616 }
    ensures items { OnOk result (words.new.items ≡ words.old.items ++ replicate more value) }
    ensures len { OnOk result (vec_len words.new ≡ vec_len words.old + more) }
{
    let len = words.len() + more;
    words.resize(len, value)
}

// The words of a table at the start whose slots are used again: those behind the first pairs' are to be had.
fn lasting_words(alloc: Global, nodes: u8, slots: u32) -> Result<Vec<u64>, AllocError>
    requires few { nodes ≤ 64 }
    requires pairs { length (first_pairs nodes) ≤ slots }
    ensures { IfOk result (λ v. v.items ≡ lasting_words nodes (slots - length (first_pairs nodes))) }
{
    let count = usize::from(nodes);
    let pairs = first_pair_count(nodes);
    let spare = slots as usize - pairs as usize;
    let mut words = vec![in alloc; OPEN_WORD; pairs as usize]?;
    fill(&mut words, spare, EMPTY_WORD)?;
    words.push(u64::from(pairs))?;
    fill(&mut words, count + count * count, 0)?;
    fill(&mut words, pairs as usize, 0)?;
    fill(&mut words, spare, BOTH_SIDES)?;
    Ok(words)
}

// The words of the table at the start.
fn opening_words(alloc: Global, nodes: u8, words: u32) -> Result<Vec<u64>, AllocError>
    requires limits { IsWithinLimits nodes words }
    ensures { IfOk result (λ v. v.items ≡ opening_words nodes words) }
{
    let count = usize::from(nodes);
    let pairs = first_pair_count(nodes);
    let mut numbers = vec![in alloc; OPEN_WORD; pairs as usize]?;
    numbers.resize(words as usize, EMPTY_WORD)?;
    numbers.push(u64::from(pairs))?;
    numbers.resize(words as usize + 1 + count + count * count, 0)?;
    Ok(numbers)
}

// What a cell has in addition to its seat.
#[derive(Drop)]
pub(crate) struct Body {
    pub(crate) state: NodeState,
    pub(crate) probed: NodeList,
    pub(crate) held: NodeList,
}

impl Model for Body {
    ghost use Rattle.std.specs.FinMap.{code};
    ghost use Rattle.std.specs.FinSet as sets;
    ghost use Rattle.std.specs.Coded.{codes};
    ghost use Rattle.ipcz_cell.specs.Making.{BodyValue};

    ghost Value = { BodyValue };

    ghost coded = { Prim.hlevel (codes, code, sets.code) };

    ghost view = { λ b. record { node = b.state.node; probed = b.probed; held = b.held } };
}

// The bodies of the cells of so many nodes, by number.
fn make_bodies(alloc: Global, count: u8) -> Result<Vec<Body>, Refusal>
    requires { count ≤ 64 }
    ensures bodies { IfOk result (λ bs. AreBodies count count bs.items) }
    ensures why { IfErr result (λ e. e ≡ Refusal.OutOfMemory) }
{
    let mut bodies = Vec::new(alloc);
    for number in 0..count {
        let state = NodeState::new(alloc, number, count)?;
        let Ok(probed) = NodeList::new(alloc) else {
            return Err(Refusal::OutOfMemory);
        };
        let Ok(held) = NodeList::new(alloc) else {
            return Err(Refusal::OutOfMemory);
        };
        let Ok(()) = bodies.push(Body {
            state,
            probed,
            held,
        }) else {
            return Err(Refusal::OutOfMemory);
        };
    }
    Ok(bodies)
}

// Gives a new seat the first part of the seat's view.
fn deal<F: FabricName>(seat: &mut TableSeat, fabric: &Fabric<F>, node: u8) -> TableSeat
    requires own { seat.old.table_id ≡ F.table.id }
    requires node { node < F.table.count }
    requires parts { seat.old.me.0.view.parts ≡ opening_parts F.table.count node (F.table.count - node) }
    ensures table { (seat.new.table_id ≡ F.table.id) × (result.table_id ≡ F.table.id) }
    ensures kept { (mine_of seat.new.me) ≡ (after_deal seat.old.me.0.view, seat.old.me.1) }
    ensures dealt { mine_of result.me ≡ (dealt seat.old.me.0.view, []) }
    ensures none { HasNoSlots result.me.0 }
{
    let _node = node;
    let dealt = fabric.table.shared.split_seat::<Deal>(seat);
    dealt
}

impl Blank {
    /// The fabric of this table, under the name F, and the cells of its nodes, by number: each has the state of its node at the start, and
    /// empty books. F names this table.
    ///
    /// Its only refusal is `OutOfMemory`, and then it gives the table back.
    ///
    /// Of `start(alloc, 2, 8)?` it gives two cells.
    pub fn name<F: FabricName>(self) -> Result<(Fabric<F>, Vec<NodeCell<F>>), (Refusal, Blank)>
        requires { self ≡ F.table }
        ensures cells { IfOk result (λ r. AreFirst F.table.count F.table.count r.1.items) }
        ensures refused { IfErr result (λ e. (e.0 ≡ Refusal.OutOfMemory) × (e.1 ≡ self)) }
    {
        let Ok(bodies) = make_bodies(self.alloc, self.nodes) else {
            return Err((Refusal::OutOfMemory, self));
        };
        let Ok(cells) = Vec::with_capacity(self.alloc, usize::from(self.nodes)) else {
            return Err((Refusal::OutOfMemory, self));
        };
        let Ok(bells) = Bells::new(self.alloc, self.nodes) else {
            return Err((Refusal::OutOfMemory, self));
        };
        let Ok(news) = Bells::new(self.alloc, self.nodes) else {
            return Err((Refusal::OutOfMemory, self));
        };
        let Blank {
            table,
            seat,
            nodes,
            words,
            slots,
            reuses,
            alloc: _,
        } = self;
        let fabric = Fabric {
            table,
            nodes,
            words,
            slots,
            reuses,
            bells,
            news,
            of: PhantomData,
        };
        let cells = deal_all(&fabric, seat, bodies, cells);
        Ok((fabric, cells))
    }
}

// Gives each node its seat.
fn deal_all<F: FabricName>(
    fabric: &Fabric<F>,
    mut seat: TableSeat,
    bodies: Vec<Body>,
    mut cells: Vec<NodeCell<F>>,
) -> Vec<NodeCell<F>>
    requires own { seat.table_id ≡ F.table.id }
    requires me { mine_of seat.me ≡ (record { parts = opening_parts F.table.count 0 F.table.count; seen = []; announced = None; caller = None }, []) }
    requires bodies { AreBodies F.table.count F.table.count bodies.items }
    requires room { F.table.count ≤ vec_capacity cells }
    requires empty { vec_len cells ≡ 0 }
    ensures { AreFirst F.table.count F.table.count result.items }
{
    let mut bodies = VecDeque::from_vec(bodies);
    for node in 0..fabric.nodes {
        let Some(body) = bodies.pop_front() else {
            unreachable!()
        };
        let Body {
            state,
            probed,
            held,
        } = body;
        let own = deal(&mut seat, fabric, node);
        cells.push_reserved(NodeCell {
            state,
            message: None,
            probed,
            held,
            seat: own,
            of: PhantomData,
        });
    }
    cells
}
