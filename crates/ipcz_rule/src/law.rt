//! The rule of the table, as the table takes it.
use crate::view::View;
use atomic_table::TableRule;
use ipcz_node::Batch;
use ipcz_slots::Own;

/// How many nodes, numbers of link words and slots for them there are, and whether slots are used again.
#[derive(Clone, Copy)]
pub struct Size {
    pub nodes: u8,
    pub words: u64,
    pub slots: u32,
    pub reuses: bool,
}

pub struct FabricLaw;

impl TableRule<Batch, Own<View>, Size> for FabricLaw {
    ghost use Rattle.std.specs.Prelude.{[]};
    ghost use Rattle.ipcz_rule.specs.Lasting.{LastingRules, own_of};
    ghost use Rattle.ipcz_rule.specs.Start.{opening_view};

    ghost holds = { λ k. LastingRules k.nodes k.words k.slots k.reuses };

    ghost first = { λ k. own_of (opening_view k.nodes) [] [] [] };
}
