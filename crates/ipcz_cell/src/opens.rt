//! The claim count, the link words and the opens of a cell.
ghost use Rattle.std.specs.Prelude.{◌≡◌, ◌<◌, ◌≤◌, true, false, is_some, None, OnOk, IfErr, IsOk, unwrap_or};
ghost use Rattle.ipcz_world.specs.Coding.{IsLinkNumber};
ghost use Rattle.ipcz_node.specs.Calls.{serials_refusal};
ghost use Rattle.ipcz_node.specs.RoomyNodes.{CanOpen};
ghost use Rattle.ipcz_cell.specs.CellStates.{roomy};
ghost use Rattle.ipcz_cell.specs.Mails.{HasSeen};
ghost use Rattle.ipcz_cell.specs.Claims.{AreReached};
ghost use Rattle.ipcz_cell.specs.Opens.{ShowsWord, ClaimsAt, MayClaim, ClaimsWord, ClaimsForOpen, OpensWord, OpensPair};

use crate::cell::NodeCell;
use crate::fabric::{Fabric, FabricName};
use crate::plays::{claim_step, exchange_link, load_link, load_step};
use crate::slots::{leave_slot, number_at};
use ipcz_base::{End, Refusal};
use std::marker::Brand;

impl<F: FabricName> NodeCell<F> {
    // Loads the claim count.
    pub(crate) fn load_count(&mut self, fabric: &Fabric<F>) -> u64
        ensures seen { HasSeen F.table.size result self.old self.new }
        ensures most { result ≤ F.table.size }
        ensures reached { AreReached F.table.size self.old.seen result }
    {
        let _words = fabric.words;
        load_step::<F, Brand>(&mut self.seat, fabric, 0)
    }

    // Loads a link's word, where each number has its slot.
    fn load_word(&mut self, fabric: &Fabric<F>, i: u64) -> u64
        requires below { i < F.table.size }
        requires order { F.table.reuses ≡ false }
        ensures seen { HasSeen i result self.old self.new }
        ensures word { IsLinkNumber result }
    {
        let _words = fabric.words;
        load_link::<F, Brand>(&mut self.seat, fabric, i)
    }

    /// How many link words were claimed when the count was loaded: as many as at each load and exchange of it before, or more. It takes no
    /// memory.
    ///
    /// It is never refused.
    ///
    /// In the table of `start(alloc, 3, 8)` it is 3 until a pair is opened or a proxy claims a word.
    pub fn claimed(&mut self, fabric: &Fabric<F>) -> u64
        ensures seen { HasSeen F.table.size result self.old self.new }
        ensures most { result ≤ F.table.size }
        ensures reached { AreReached F.table.size self.old.seen result }
    {
        self.load_count(fabric)
    }

    /// A link word as it was loaded, or none for one that wasn't claimed yet by the claim count that was loaded before it: so there is one
    /// if an earlier count was above its number. A table whose slots are used again shows none, since a word is that of one link after
    /// another. It takes no memory.
    ///
    /// It is never refused.
    ///
    /// In the table of `start(alloc, 2, 8)`, at its start, `cell.word(&fabric, 0)` is `Some(3)`, stable at both sides, and `cell.word(&fabric, 1)` is none.
    pub fn word(&mut self, fabric: &Fabric<F>, i: u64) -> Option<u64>
        ensures { ShowsWord F.table i self.old result self.new }
    {
        if fabric.reuses {
            return None;
        }
        let count = self.load_count(fabric);
        if count <= i {
            return None;
        }
        Some(self.load_word(fabric, i))
    }

    // Exchanges the claim count for the number behind that which is claimed for an open.
    fn claim_at(&mut self, fabric: &Fabric<F>, count: u64) -> Result<u64, Refusal>
        requires free { self.old.part.state.opening ≡ None }
        requires few { count < F.table.size }
        ensures claims { ClaimsAt F.table count self.old result self.new }
        ensures room { self.new.room ≡ self.old.room }
    {
        let _words = fabric.words;
        let Some(number) = number_at(&mut self.seat, fabric, count) else {
            return Err(Refusal::NoWord);
        };
        let now = claim_step::<F, Brand>(&mut self.seat, fabric, count, number);
        if now != count {
            leave_slot(&mut self.seat, fabric, number);
            return Err(Refusal::Raced);
        }
        self.state.claim_open(number);
        Ok(number)
    }

    // Claims a word for an open.
    fn claim_for_open(&mut self, fabric: &Fabric<F>) -> Result<u64, Refusal>
        requires { self.old.part.state.opening ≡ None }
        ensures { ClaimsForOpen F.table self.old self.new result }
    {
        let count = self.load_count(fabric);
        if count == fabric.words {
            return Err(Refusal::NoWord);
        }
        self.claim_at(fabric, count)
    }

    /// Claims a link word: for the bypass of the proxy of a serial, whose act this is to be, or, with none, for an open, if none is
    /// under way; that open is under way then, until `word_open` or `open_pair` does it. It answers the word.
    ///
    /// It loads the claim count, and exchanges it for the next. It answers `NoWord` if the load found that each word was claimed, or, where
    /// slots are used again, if each slot was looked at and none was to be had; a proxy is dry then, and its act is done. It answers `Raced`
    /// only if the exchange found another count than the load; then nothing but what was seen has changed. It takes no memory.
    ///
    /// In the table of `start(alloc, 2, 8)` the first `cell.word_claim(&fabric, None)` is `Ok(1)`.
    pub fn word_claim(&mut self, fabric: &Fabric<F>, serial: Option<u64>) -> Result<u64, Refusal>
        requires { MayClaim self.old.part.state serial }
        ensures { ClaimsWord F.table serial self.old self.new result }
    {
        match serial {
            Some(serial) => self.word_claim_for(fabric, serial),
            None => self.claim_for_open(fabric),
        }
    }

    /// Makes room for a pair, as `NodeState::open_prepare`. It answers `NumbersEnd` if too few serials are left for two routers, and
    /// otherwise `OutOfMemory`, if there is no room and none is found.
    ///
    /// Nothing but room has changed either way.
    ///
    /// So `cell.open_prepare()?` stands before `cell.word_open(&fabric)`.
    pub fn open_prepare(&mut self) -> Result<(), Refusal>
        ensures part { self.new.part ≡ self.old.part }
        ensures seen { self.new.seen ≡ self.old.seen }
        ensures looked { self.new.looked ≡ self.old.looked }
        ensures ready { OnOk result (CanOpen (roomy self.new)) }
        ensures allowed { OnOk result (serials_refusal self.old.part.state ≡ None) }
        ensures why { IfErr result (λ e. e ≡ unwrap_or (serials_refusal self.old.part.state) Refusal.OutOfMemory) }
        ensures full { CanOpen (roomy self.old) → IsOk result }
    {
        self.state.open_prepare()
    }

    // Whether an open is under way.
    fn is_opening(&self) -> bool
        ensures { result ≡ is_some self.now.part.state.opening }
    {
        self.state.opening().is_some()
    }

    /// Opens the pair on the word of the open that is under way, for which `open_prepare` made room: its ends of sides A and B, both held
    /// here. It takes no memory.
    ///
    /// It is never refused. Behind a `word_claim(&fabric, None)` that was answered `Ok(1)`, and `open_prepare`, it gives the two ends of pair 1.
    pub fn word_open(&mut self, fabric: &Fabric<F>) -> (End, End)
        requires under_way { is_some self.old.part.state.opening ≡ true }
        requires ready { CanOpen (roomy self.old) }
        ensures opens { OpensWord self.old result self.new }
        ensures inside { result.0.pair < F.table.size }
    {
        let Some(word) = self.state.opening() else {
            unreachable!()
        };
        let _words = fabric.words;
        exchange_link::<F, Brand>(&mut self.seat, fabric, word, 0, 3);
        self.state.open_commit(word)
    }

    /// Opens a pair, on a word that it claims, or on that of the open under way, and answers its ends of sides A and B, both held here.
    ///
    /// It answers, the first of these: `NoWord` if no open is under way and each link word was claimed, `NumbersEnd` if too few
    /// serials are left for two routers, `OutOfMemory` if there is no room for them and none is found, `NoWord` if slots are used again and
    /// none is to be had, and `Raced` if another node has claimed a word meanwhile; the caller may try again. A refused open changes nothing
    /// but what was seen and looked at.
    ///
    /// In the table of `start(alloc, 2, 8)` the first `cell.open_pair(&fabric)` gives the two ends of pair 1.
    pub fn open_pair(&mut self, fabric: &Fabric<F>) -> Result<(End, End), Refusal>
        ensures { OpensPair F.table self.old self.new result }
    {
        if self.is_opening() {
            self.open_prepare()?;
            return Ok(self.word_open(fabric));
        }
        let count = self.load_count(fabric);
        if count == fabric.words {
            return Err(Refusal::NoWord);
        }
        self.open_prepare()?;
        match self.claim_at(fabric, count) {
            Ok(number) => {
                let _number = number;
                Ok(self.word_open(fabric))
            }
            Err(why) => Err(why),
        }
    }
}
