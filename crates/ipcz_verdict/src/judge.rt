//! A judge, which takes the lines of a log one after the other.

ghost use Rattle.std.specs.Prelude.{◌≡◌, ◌<◌, ◌≤◌, ◌+◌, ◌∷◌, ◌++◌, [], ℕ, List, false, MatchBool, IfOk, OnOk};
ghost use Rattle.std.specs.FinMap.{get};
ghost use Rattle.ipcz_base.specs.declared.profile.Profile.{Profile};
ghost use Rattle.ipcz_node.specs.FirstPairs.{first_pairs_from, pairs_from};
ghost use Rattle.ipcz_verdict.specs.declared.line.Line.{Line};
ghost use Rattle.ipcz_verdict.specs.declared.line.Line.TheVariants as Line;
ghost use Rattle.ipcz_verdict.specs.Ledger.{IsAllowed};
ghost use Rattle.ipcz_verdict.specs.Searches.{agrees, bind_all, may_bind, may_mean};
ghost use Rattle.ipcz_verdict.specs.Desks.{Decides, Desk, first_books, HasAllowed, may_open};

use crate::line::Line;
use crate::portal::Portal;
use crate::{books, calls};
use ipcz_base::{Bytes, End, Parcel, Profile, Refusal, Side};
use ipcz_node::first_pair_count;
use ipcz_script::{Labels, Text};
use std::alloc::{AllocError, Global};
use std::marker::Model;

/// A judge of one log: what its lines so far have come to.
#[derive(Drop)]
pub struct Judge {
    nodes: u8,
    profile: Profile,
    portals: Vec<Portal>,
    pairs: u64,
    labels: Labels,
    alloc: Global,
}

impl Model for Judge {
    ghost use Rattle.std.specs.FinMap.{code};
    ghost use Rattle.std.specs.Coded.{codes};
    ghost use Rattle.ipcz_verdict.specs.Desks as value;

    ghost Value = { value.Desk };

    ghost coded = { Prim.hlevel (codes, code) };

    ghost view = { λ a. record { nodes = a.nodes; profile = a.profile; portals = a.portals.items; pairs = a.pairs; labels = a.labels } };
}

// ---- the first pairs

// The books of the first pairs of one node with so many others, from one on.
fn add_pairs(
    alloc: Global,
    portals: &mut Vec<Portal>,
    i: u8,
    j: u8,
    left: u8,
) -> Result<(), AllocError>
    requires { j + left ≤ 8 }
    ensures { OnOk result (portals.new.items ≡ portals.old.items ++ first_books (pairs_from i j left)) }
{
    if left == 0 {
        return Ok(());
    }
    portals.push(Portal::new(alloc, i))?;
    portals.push(Portal::new(alloc, j))?;
    add_pairs(alloc, portals, i, j + 1, left - 1)
}

// The books of the first pairs among so many nodes, from one on.
fn add_first_pairs(
    alloc: Global,
    portals: &mut Vec<Portal>,
    i: u8,
    left: u8,
) -> Result<(), AllocError>
    requires { i + left ≤ 8 }
    ensures { OnOk result (portals.new.items ≡ portals.old.items ++ first_books (first_pairs_from i left)) }
{
    if left == 0 {
        return Ok(());
    }
    let others = left - 1;
    add_pairs(alloc, portals, i, i + 1, others)?;
    add_first_pairs(alloc, portals, i + 1, others)
}

// ---- what names mean

// Binds these names to these portals, as many as there are of both.
fn bind_all(labels: &mut Labels, names: &[Text], ends: &[End]) -> Result<(), AllocError>
    ensures { OnOk result (labels.new ≡ bind_all labels.old names.now ends.now) }
{
    let [name, names @ ..] = names else {
        return Ok(());
    };
    let [end, ends @ ..] = ends else {
        return Ok(());
    };
    labels.bind(name.as_str(), *end)?;
    bind_all(labels, names, ends)
}

// Whether a name, which stands before these, means none of them that is another portal.
fn agrees(name: &str, end: End, names: &[Text], ends: &[End]) -> bool
    ensures { result ≡ agrees name.now end names.now ends.now }
{
    let [first, names @ ..] = names else {
        return true;
    };
    let [other, ends @ ..] = ends else {
        return true;
    };
    (first.as_str() != name || *other == end) && agrees(name, end, names, ends)
}

// Whether these names may mean these portals, all together: then they can be bound to them.
fn may_bind(labels: &Labels, names: &[Text], ends: &[End]) -> bool
    ensures { result ≡ may_bind labels.now names.now ends.now }
{
    let [name, names @ ..] = names else {
        return ends.is_empty();
    };
    let [end, ends @ ..] = ends else {
        return false;
    };
    may_mean(labels, name.as_str(), *end)
        && agrees(name.as_str(), *end, names, ends)
        && may_bind(labels, names, ends)
}

// Whether a name means a portal, or nothing yet.
fn may_mean(labels: &Labels, name: &str, end: End) -> bool
    ensures { result ≡ may_mean (get labels.now.names name.now) end }
{
    match labels.end_of(name) {
        Some(bound) => bound == end,
        None => true,
    }
}

// ---- lines

impl Judge {
    // A put that was accepted.
    fn put(
        &mut self,
        node: u8,
        at: &Text,
        bytes: &[u8],
        portals: &[Text],
        number: u64,
    ) -> Result<bool, AllocError>
        ensures decided { IfOk result (λ allowed. Decides self.old (Line.Put node at.now bytes.now portals.now number) allowed self.new) }
        ensures kept { IfOk result (λ allowed. allowed ≡ false → self.new ≡ self.old) }
    {
        let Some(end) = self.labels.end_of(at.as_str()) else {
            return Ok(false);
        };
        let Some(ends) = self.labels.ends_of(portals)? else {
            return Ok(false);
        };
        let bytes = Bytes::from_slice(self.alloc, bytes)?;
        let parcel = Parcel { bytes, ends };
        let allowed = calls::put(&mut self.portals, self.profile, node, end, parcel, number)?;
        Ok(allowed)
    }

    // A close.
    fn closed(&mut self, node: u8, at: &Text, number: u64) -> Result<bool, AllocError>
        ensures decided { IfOk result (λ allowed. Decides self.old (Line.Closed node at.now number) allowed self.new) }
        ensures kept { IfOk result (λ allowed. allowed ≡ false → self.new ≡ self.old) }
    {
        let Some(end) = self.labels.end_of(at.as_str()) else {
            return Ok(false);
        };
        let allowed = calls::close(self.alloc, &mut self.portals, node, end, number)?;
        Ok(allowed)
    }

    // A get that gave a parcel.
    fn got(
        &mut self,
        node: u8,
        at: &Text,
        bytes: &[u8],
        portals: &[Text],
        number: u64,
    ) -> Result<bool, AllocError>
        ensures decided { IfOk result (λ allowed. Decides self.old (Line.Got node at.now bytes.now portals.now number) allowed self.new) }
        ensures kept { IfOk result (λ allowed. allowed ≡ false → self.new ≡ self.old) }
    {
        let Some(end) = self.labels.end_of(at.as_str()) else {
            return Ok(false);
        };
        let Some(ends) = calls::next_ends(self.alloc, &self.portals, node, end, number, bytes)?
        else {
            return Ok(false);
        };
        if !may_bind(&self.labels, portals, &ends) {
            return Ok(false);
        }
        bind_all(&mut self.labels, portals, &ends)?;
        calls::receive(&mut self.portals, node, end, &ends)?;
        Ok(true)
    }

    // Whether two names are new and differ, and the node is one.
    fn may_open(&self, node: u8, first: &Text, second: &Text) -> bool
        ensures { result ≡ may_open self.now node first.now second.now }
    {
        node < self.nodes
            && self.labels.end_of(first.as_str()).is_none()
            && self.labels.end_of(second.as_str()).is_none()
            && first.as_str() != second.as_str()
    }

    // An open.
    fn opened(&mut self, node: u8, first: &Text, second: &Text) -> Result<bool, AllocError>
        ensures decided { IfOk result (λ allowed. Decides self.old (Line.Opened node first.now second.now) allowed self.new) }
        ensures kept { IfOk result (λ allowed. allowed ≡ false → self.new ≡ self.old) }
    {
        if !self.may_open(node, first, second) {
            return Ok(false);
        }
        let pair = self.pairs;
        let Some(pairs) = pair.checked_add(1) else {
            return Err(AllocError);
        };
        let side = End {
            pair,
            side: Side::A,
        };
        self.labels.bind(first.as_str(), side)?;
        self.labels.bind(second.as_str(), side.opposite())?;
        self.portals.push(Portal::new(self.alloc, node))?;
        self.portals.push(Portal::new(self.alloc, node))?;
        self.pairs = pairs;
        Ok(true)
    }

    // A put that was refused.
    fn put_refused(
        &self,
        node: u8,
        at: &Text,
        bytes: &[u8],
        portals: &[Text],
        why: Refusal,
    ) -> Result<bool, AllocError>
        ensures { IfOk result (λ allowed. Decides self.now (Line.PutRefused node at.now bytes.now portals.now why) allowed self.now) }
    {
        let Some(end) = self.labels.end_of(at.as_str()) else {
            return Ok(false);
        };
        let Some(ends) = self.labels.ends_of(portals)? else {
            return Ok(false);
        };
        let first = books::first_refusal(
            &self.portals,
            self.profile,
            node,
            end,
            bytes,
            ends.as_slice(),
        );
        Ok(calls::may_refuse_put(first, &self.portals, self.nodes, node, end, why))
    }

    // A get that was refused.
    fn get_refused(&self, node: u8, at: &Text, why: Refusal) -> bool
        ensures { Decides self.now (Line.GetRefused node at.now why) result self.now }
    {
        let Some(end) = self.labels.end_of(at.as_str()) else {
            return false;
        };
        calls::may_refuse_get(&self.portals, node, end, why)
    }

    // A close that was refused.
    fn close_refused(&self, node: u8, at: &Text, why: Refusal) -> bool
        ensures { Decides self.now (Line.CloseRefused node at.now why) result self.now }
    {
        let Some(end) = self.labels.end_of(at.as_str()) else {
            return false;
        };
        calls::may_refuse_close(&self.portals, node, end, why)
    }

    // An open that was refused.
    fn open_refused(&self, node: u8, why: Refusal) -> bool
        ensures { Decides self.now (Line.OpenRefused node why) result self.now }
    {
        calls::may_refuse_open(self.nodes, node, why)
    }
}

impl Judge {
    /// A judge of a log of an implementation with so many nodes, of which no line was read yet.
    pub fn new(alloc: Global, nodes: u8, profile: Profile) -> Result<Self, AllocError>
        requires some { 0 < nodes }
        requires few { nodes ≤ 8 }
        ensures nothing { IfOk result (λ judge. HasAllowed judge nodes profile []) }
    {
        let mut portals = Vec::new(alloc);
        add_first_pairs(alloc, &mut portals, 0, nodes)?;
        let labels = Labels::first(alloc, nodes)?;
        Ok(Judge {
            nodes,
            profile,
            portals,
            pairs: u64::from(first_pair_count(nodes)),
            labels,
            alloc,
        })
    }

    // Judges a line.
    fn judge(&mut self, line: &Line) -> Result<bool, AllocError>
        ensures decided { IfOk result (λ allowed. Decides self.old line.now allowed self.new) }
        ensures kept { IfOk result (λ allowed. allowed ≡ false → self.new ≡ self.old) }
    {
        match line {
            Line::Opened {
                node,
                first,
                second,
            } => self.opened(*node, first, second),
            Line::Put {
                node,
                at,
                bytes,
                portals,
                number,
            } => self.put(*node, at, bytes.as_slice(), portals.as_slice(), *number),
            Line::Got {
                node,
                at,
                bytes,
                portals,
                number,
            } => self.got(*node, at, bytes.as_slice(), portals.as_slice(), *number),
            Line::Closed { node, at, number } => self.closed(*node, at, *number),
            Line::OpenRefused { node, why } => Ok(self.open_refused(*node, *why)),
            Line::PutRefused {
                node,
                at,
                bytes,
                portals,
                why,
            } => self.put_refused(*node, at, bytes.as_slice(), portals.as_slice(), *why),
            Line::GetRefused { node, at, why } => Ok(self.get_refused(*node, at, *why)),
            Line::CloseRefused { node, at, why } => Ok(self.close_refused(*node, at, *why)),
        }
    }

    /// Judges the next line of the log: whether the log with it is allowed.
    ///
    /// If it isn't, the judge stays as it was, and may be asked about another line in its place. After an `Err` it is done with.
    pub fn take(&mut self, line: &Line) -> Result<bool, AllocError>
        ensures allowed { (nodes : ℕ) (profile : Profile) (log : List Line) → HasAllowed self.old nodes profile log →
            IfOk result (λ allowed. MatchBool allowed (HasAllowed self.new nodes profile (log ++ line.now ∷ []))
            (IsAllowed nodes profile (log ++ line.now ∷ []) → ⊥)) }
        ensures kept { IfOk result (λ allowed. allowed ≡ false → self.new ≡ self.old) }
    {
        self.judge(line)
    }
}

/// What a judge that has allowed a log tells: the machine has a run with these calls and these answers.
pub fn what_is_allowed()
    ensures law { (judge : Desk) (nodes : ℕ) (profile : Profile) (log : List Line) → HasAllowed judge nodes profile log → IsAllowed nodes profile log }
{}
