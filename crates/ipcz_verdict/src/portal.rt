//! A portal as the judge keeps it: its parcels that wait, and its counts.
ghost use Rattle.std.specs.Prelude.{◌≡◌, ◌∷◌, ◌++◌, [], drop, slice_get, OnOk, IfSome, IfNone};
ghost use Rattle.std.specs.Option.{option_copied};
ghost use Rattle.ipcz_verdict.specs.Desks.{counted, ends_in, held_by, shut, took};

use ipcz_base::{End, Parcel};
use std::alloc::{AllocError, Global};
use std::collections::VecDeque;
use std::marker::Model;

/// The parcels that were put for a portal and weren't got yet, the first of them first.
#[derive(Drop)]
pub(crate) struct Waiting {
    parcels: VecDeque<Parcel>,
}

impl Model for Waiting {
    ghost use Rattle.std.specs.Prelude.{List};
    ghost use Rattle.ipcz_base.specs.declared.parcel.Parcel.{Parcel};

    ghost Value = { List Parcel };

    ghost view = { λ a. a.parcels.items };
}

impl Waiting {
    /// None waits.
    pub(crate) fn new(alloc: Global) -> Self
        ensures { result ≡ [] }
    {
        Waiting {
            parcels: VecDeque::new(alloc),
        }
    }

    /// The first one.
    pub(crate) fn first(&self) -> Option<&Parcel>
        ensures { option_copied result ≡ slice_get self.now 0 }
    {
        self.parcels.get(0)
    }

    /// One more, behind all others.
    pub(crate) fn push(&mut self, parcel: Parcel) -> Result<(), AllocError>
        ensures ok { OnOk result (self.new ≡ self.old ++ parcel ∷ []) }
    {
        self.parcels.push_back(parcel)?;
        Ok(())
    }

    /// Drops all, and the portals in them join those of `dropped`.
    fn drop_all(&mut self, dropped: &mut Vec<End>) -> Result<(), AllocError>
        ensures none { OnOk result (self.new ≡ []) }
        ensures dropped { OnOk result (dropped.new.items ≡ dropped.old.items ++ ends_in self.old) }
    {
        while let Some(parcel) = self.pop() {
            dropped.extend_from_slice(parcel.ends.as_slice())?;
        }
        Ok(())
    }

    /// Takes the first one.
    pub(crate) fn pop(&mut self) -> Option<Parcel>
        ensures some { IfSome result (λ parcel. self.old ≡ parcel ∷ self.new) }
        ensures none { IfNone result (self.old ≡ []) }
        ensures left { self.new ≡ drop 1 self.old }
    {
        self.parcels.pop_front()
    }
}

/// What the judge knows of a portal.
#[derive(Drop)]
pub(crate) struct Portal {
    /// The node whose callers hold it.
    pub(crate) holder: Option<u8>,
    pub(crate) closed: bool,
    /// How many parcels were put at it, and how many were got.
    pub(crate) put: u64,
    pub(crate) got: u64,
    /// Those that were put for it and weren't got yet; none once it is closed.
    pub(crate) waiting: Waiting,
}

impl Portal {
    /// A portal of a new pair.
    pub(crate) fn new(alloc: Global, holder: u8) -> Self
        ensures { result ≡ held_by holder }
    {
        Portal {
            holder: Some(holder),
            closed: false,
            put: 0,
            got: 0,
            waiting: Waiting::new(alloc),
        }
    }
    /// Counts a parcel more that was put here.
    pub(crate) fn count_put(&mut self) -> Result<(), AllocError>
        ensures { OnOk result (self.new ≡ counted self.old) }
    {
        self.put = self.put.checked_add(1).ok_or(AllocError)?;
        Ok(())
    }

    /// The first parcel that waits was got.
    pub(crate) fn take(&mut self) -> Result<(), AllocError>
        ensures { OnOk result (self.new ≡ took self.old) }
    {
        self.got = self.got.checked_add(1).ok_or(AllocError)?;
        self.waiting.pop();
        Ok(())
    }

    /// The portal was closed: what waits for it is dropped, and the portals in it join those of `dropped`.
    pub(crate) fn close(&mut self, dropped: &mut Vec<End>) -> Result<(), AllocError>
        ensures portal { OnOk result (self.new ≡ shut self.old) }
        ensures dropped { OnOk result (dropped.new.items ≡ dropped.old.items ++ ends_in self.old.waiting) }
    {
        self.holder = None;
        self.closed = true;
        self.waiting.drop_all(dropped)
    }
}
