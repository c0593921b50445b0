//! A table of atomic words under a name, which the types of its cells carry.
ghost use Rattle.std.specs.Prelude.{◌≡◌};

use crate::bells::Bells;
use atomic_table::Table;
use ipcz_node::Batch;
use ipcz_rule::{FabricLaw, Size, View};
use ipcz_slots::Own;
use std::alloc::Global;
use std::marker::{Brand, Model, PhantomData};

/// Names a table.
pub trait FabricName {
    ghost use Rattle.ipcz_cell.specs.TableNames.{TableName};

    ghost table: { TableName };
}

impl FabricName for Brand {
    ghost use Rattle.ipcz_cell.specs.TableNames.{no_table};

    ghost table = { no_table };
}

/// The table that F names.
#[derive(Drop)]
pub struct Fabric<F: FabricName> {
    pub(crate) table: Table<Batch, Own<View>, Size, FabricLaw, Global>,
    pub(crate) nodes: u8,
    pub(crate) words: u64,
    pub(crate) slots: u32,
    pub(crate) reuses: bool,
    pub(crate) bells: Bells,
    pub(crate) news: Bells,
    pub(crate) of: PhantomData<F>,
}

impl<F: FabricName> Model for Fabric<F> {
    ghost use Rattle.std.specs.Prelude.{◌≡◌, ℕ};
    ghost use Rattle.ipcz_cell.specs.TableNames.{IsLaidOut};

    ghost Value = { ℕ };

    ghost view = { λ _. 0 };

    ghost invariant = { λ f. (f.table.shared.table_id ≡ F.table.id) × (f.table.shared.key.nodes ≡ F.table.count) ×
        (f.table.shared.key.words ≡ F.table.size)
        × (f.nodes ≡ F.table.count) × (f.words ≡ F.table.size) × IsLaidOut F.table ×
        (f.table.shared.key.slots ≡ F.table.slots) × (f.table.shared.key.reuses ≡ F.table.reuses) × (f.slots ≡ F.table.slots) ×
        (f.reuses ≡ F.table.reuses) };
}

impl<F: FabricName> Fabric<F> {
    /// How many nodes the table has: 1 to 64, numbered from 0 on.
    pub fn nodes(&self) -> u8
        ensures { result ≡ F.table.count }
    {
        self.nodes
    }

    /// Wakes all that sleep for a node, as `NodeCell::wait`. If none sleeps, it costs four loads. For a node that isn't the table's
    /// nothing is done.
    pub fn notify_all(&self, node: u8) {
        self.bells.ring(node);
        self.news.ring(node);
    }

    /// The bells on which those sleep that wait until there may be something to do for a node.
    pub fn bells(&self) -> &Bells {
        &self.bells
    }

    /// The bells on which those sleep that wait until a message was handled at a node, since only so a parcel comes there.
    pub fn news(&self) -> &Bells {
        &self.news
    }
}
