// What the pager does.
ghost use Rattle.std.specs.Prelude.{◌≡◌, ℕ, ◌+◌, ◌*◌, ◌<◌, ◌≤◌, [], IfOk};
ghost use Rattle.pager.specs.Model.{Memory, pager_engine, PagerWhole};
ghost use Rattle.pager.specs.Steps.{Opened, Sizes, SlotOf, InSlot, Owns, IsFree, FreeSlot, Entered, SlotFor, lacking, NextLacking, Does};

use super::{Call, Pager, Phase, Reply};
use crate::leaves;
use device::{Ask, Never, Store, bytes_fit};
use octets::{is_blank, put_bytes};
use std::alloc::{AllocError, Global};

impl Pager {
    // A call ends.
    fn answer(&mut self, reply: Reply) -> Ask<Never, Reply>
        ensures asks { result ≡ Ask.Answer reply }
        ensures rest { self.new ≡ record self.old { phase = Phase.Idle } }
    {
        self.phase = Phase::Idle;
        Ask::Answer(reply)
    }
}

// Coming up: the header, the active area, then what the other area has.
impl Pager {
    // The next map sector is wanted, or all are there.
    fn fetch(&mut self, i: usize) -> Ask<Never, Reply>
        ensures { Does (Phase.Fetch i) self.old [] result self.new }
    {
        if i < self.maps {
            self.phase = Phase::Loading(i);
            Ask::Read(leaves::area_at(self.maps, self.second, i))
        } else {
            self.present.copy_from_slice(&self.base);
            leaves::link(&mut self.owner, &self.base[..self.pages]);
            self.phase = Phase::Check(0);
            Ask::Again
        }
    }

    // A sector of the active area.
    fn load(&mut self, i: usize, given: &[u8; 512]) -> Ask<Never, Reply>
        ensures { Does (Phase.Loading i) self.old given.now result self.new }
    {
        if i < self.maps {
            leaves::load(&mut self.base, given, i, self.slots);
            self.phase = Phase::Fetch(i + 1);
            Ask::Again
        } else {
            self.answer(Reply::Done)
        }
    }

    // A sector of the other area is wanted, or all were compared.
    fn check(&mut self, i: usize) -> Ask<Never, Reply>
        ensures { Does (Phase.Check i) self.old [] result self.new }
    {
        if i < self.maps {
            self.phase = Phase::Comparing(i);
            Ask::Read(leaves::area_at(self.maps, !self.second, i))
        } else {
            self.answer(Reply::Done)
        }
    }

    // A sector of the other area.
    fn compare(&mut self, i: usize, given: &[u8; 512]) -> Ask<Never, Reply>
        ensures { Does (Phase.Comparing i) self.old given.now result self.new }
    {
        if i < self.maps {
            let differs = leaves::differs(&self.base, given, i, self.slots);
            self.behind[i] = differs;
            self.phase = Phase::Check(i + 1);
            Ask::Again
        } else {
            self.answer(Reply::Done)
        }
    }
}

// Reading a page.
impl Pager {
    // Whether a sector of a slot is meant.
    fn in_slot(&self, slot: u64, j: usize) -> bool
        ensures { InSlot self.now.slots slot j result }
    {
        1 <= slot && slot <= self.slots as u64 && j < 8
    }

    // The slot of a page at present, if it has one.
    fn slot_of(&self, p: usize) -> Option<u64>
        requires { p < self.now.pages }
        ensures { SlotOf self.now.slots p self.now result }
    {
        let slot = self.present[p];
        (1 <= slot && slot <= self.slots as u64).then_some(slot)
    }

    // A page as it is at present.
    fn get(&mut self, p: usize) -> Ask<Never, Reply>
        ensures { Does (Phase.Asked (Call.Get p)) self.old [] result self.new }
    {
        if p >= self.pages {
            return self.answer(Reply::Outside);
        }
        let Some(slot) = self.slot_of(p) else {
            self.page.fill(0);
            return self.answer(Reply::Page);
        };
        self.phase = Phase::Getting(slot, 0);
        Ask::Read(leaves::slot_at(self.maps, slot))
    }

    // A sector of a page has come.
    fn gather(&mut self, slot: u64, j: usize, given: &[u8; 512]) -> Ask<Never, Reply>
        ensures { Does (Phase.Getting slot j) self.old given.now result self.new }
    {
        if !self.in_slot(slot, j) {
            return self.answer(Reply::Done);
        }
        put_bytes(&mut self.page, 512 * j, given);
        if j == 7 {
            return self.answer(Reply::Page);
        }
        self.phase = Phase::Getting(slot, j + 1);
        Ask::Read(leaves::slot_at(self.maps, slot) + (j + 1) as u64)
    }
}

// Changing a page.
impl Pager {
    // Whether a page has a slot that the committed state does not have for it.
    fn owns(&self, p: usize) -> bool
        requires { p < self.now.pages }
        ensures { Owns p self.now result }
    {
        let slot = self.present[p];
        slot != 0 && slot != self.base[p]
    }

    // Whether neither map leads from the owner of a slot to it.
    fn is_free(&self, slot: usize) -> bool
        requires { slot ≤ self.now.slots }
        ensures { IsFree self.now.pages slot self.now result }
    {
        let p = self.owner[slot] as usize;
        p >= self.pages || (self.base[p] != slot as u64 && self.present[p] != slot as u64)
    }

    // A free slot, searched for from the one that was given last.
    fn free_slot(&self) -> Option<usize>
        ensures { FreeSlot self.now.pages self.now.slots self.now result }
    {
        let end = self.owner.len();
        let from = self.hint.clamp(1, end);
        let is_free = |slot: &usize| self.is_free(*slot);
        (from..end)
            .find(is_free)
            .or_else(|| (1..from).find(is_free))
    }

    // Another slot, or none, for a page.
    fn enter(&mut self, p: usize, slot: u64)
        requires { p < self.old.pages }
        ensures at { Entered p slot self.old self.new }
        ensures owner { self.new.owner ≡ self.old.owner }
        ensures page { self.new.page ≡ self.old.page }
        ensures sizes { Sizes self.old self.new }
    {
        self.present[p] = slot;
        self.dirty[p / 64] = true;
    }

    // The slot that a page was given since the last commit, or else a free one.
    fn slot_for(&mut self, p: usize) -> Option<u64>
        requires { p < self.old.pages }
        ensures at { SlotFor self.old.pages self.old.slots p self.old result self.new }
        ensures page { self.new.page ≡ self.old.page }
        ensures sizes { Sizes self.old self.new }
    {
        if self.owns(p) {
            return Some(self.present[p]);
        }
        let slot = self.free_slot()?;
        self.enter(p, slot as u64);
        self.owner[slot] = p as u64;
        self.hint = slot;
        Some(slot as u64)
    }

    // A page goes into a slot; a blank one takes none.
    fn put(&mut self, p: usize) -> Ask<Never, Reply>
        ensures { Does (Phase.Asked (Call.Put p)) self.old [] result self.new }
    {
        if p >= self.pages {
            return self.answer(Reply::Outside);
        }
        if is_blank(&self.page) {
            self.enter(p, 0);
            return self.answer(Reply::Done);
        }
        let Some(slot) = self.slot_for(p) else {
            return self.answer(Reply::NoRoom);
        };
        self.phase = Phase::Putting(slot, 0);
        Ask::Again
    }

    // A slot of its own for a page.
    fn give(&mut self, p: usize) -> Ask<Never, Reply>
        ensures { Does (Phase.Asked (Call.Give p)) self.old [] result self.new }
    {
        if p >= self.pages {
            return self.answer(Reply::Outside);
        }
        match self.slot_for(p) {
            Some(_) => self.answer(Reply::Done),
            None => self.answer(Reply::NoRoom),
        }
    }

    // The next sector of a page.
    fn lay(&mut self, slot: u64, j: usize) -> Ask<Never, Reply>
        ensures { Does (Phase.Putting slot j) self.old [] result self.new }
    {
        if j >= 8 {
            return self.answer(Reply::Done);
        }
        if !self.in_slot(slot, j) {
            return self.answer(Reply::Done);
        }
        leaves::cut(&mut self.sector, &self.page, j);
        self.phase = Phase::Putting(slot, j + 1);
        Ask::Write(leaves::slot_at(self.maps, slot) + j as u64)
    }

    // The first page from p on that is blank.
    fn vacant(&mut self, p: usize) -> Ask<Never, Reply>
        ensures { Does (Phase.Asked (Call.Vacant p)) self.old [] result self.new }
    {
        let page = (p..self.pages).find(|q| self.present[*q] == 0);
        self.answer(Reply::Found(page.map(|page| page as u64)))
    }
}

// Commit and undo.
impl Pager {
    fn undo(&mut self) -> Ask<Never, Reply>
        ensures { Does (Phase.Asked Call.Undo) self.old [] result self.new }
    {
        leaves::settle(&mut self.present, &self.base, &self.dirty);
        self.dirty.fill(false);
        self.answer(Reply::Done)
    }

    // Whether the other area lacks a map sector as it is at present.
    fn is_lacking(&self, k: usize) -> bool
        requires { k < self.now.maps }
        ensures { result ≡ lacking self.now k }
    {
        self.dirty[k] || self.behind[k]
    }

    // The first map sector from i on that the other area lacks.
    fn next_lacking(&self, i: usize) -> Option<usize>
        ensures { NextLacking self.now.maps i self.now result }
    {
        (i..self.maps).find(|k| self.is_lacking(*k))
    }

    // The next map sector that the other area lacks is written.
    fn fill(&mut self, i: usize) -> Ask<Never, Reply>
        ensures { Does (Phase.Filling i) self.old [] result self.new }
    {
        let Some(at) = self.next_lacking(i) else {
            self.phase = Phase::Settled;
            return Ask::Sync;
        };
        self.phase = Phase::Filling(at + 1);
        leaves::encode(&mut self.sector, &self.present, at);
        Ask::Write(leaves::area_at(self.maps, !self.second, at))
    }

    // What was written is the committed state now.
    fn seal(&mut self) -> Ask<Never, Reply>
        ensures { Does Phase.Sealed self.old [] result self.new }
    {
        self.second = !self.second;
        leaves::settle(&mut self.base, &self.present, &self.dirty);
        self.behind.copy_from_slice(&self.dirty);
        self.dirty.fill(false);
        self.answer(Reply::Done)
    }
}

impl Pager {
    // What each phase does.
    fn go(&mut self, given: &[u8; 512]) -> Ask<Never, Reply>
        ensures { Does self.old.phase self.old given.now result self.new }
    {
        match self.phase {
            Phase::Opening => {
                self.phase = Phase::Header;
                Ask::Read(0)
            }
            Phase::Header => {
                self.second = leaves::second_in(given);
                self.phase = Phase::Fetch(0);
                Ask::Again
            }
            Phase::Fetch(i) => self.fetch(i),
            Phase::Loading(i) => self.load(i, given),
            Phase::Check(i) => self.check(i),
            Phase::Comparing(i) => self.compare(i, given),
            Phase::Idle => self.answer(Reply::Done),
            Phase::Asked(Call::Get(p)) => self.get(p as usize),
            Phase::Asked(Call::Put(p)) => self.put(p as usize),
            Phase::Asked(Call::Give(p)) => self.give(p as usize),
            Phase::Asked(Call::Vacant(p)) => self.vacant(p as usize),
            Phase::Asked(Call::Commit) => {
                self.phase = Phase::Filling(0);
                Ask::Again
            }
            Phase::Asked(Call::Undo) => self.undo(),
            Phase::Short => self.answer(Reply::Outside),
            Phase::Getting(slot, j) => self.gather(slot, j, given),
            Phase::Putting(slot, j) => self.lay(slot, j),
            Phase::Filling(i) => self.fill(i),
            Phase::Settled => {
                let second = !self.second;
                leaves::mark(&mut self.sector, second);
                self.phase = Phase::Marked;
                Ask::Write(0)
            }
            Phase::Marked => {
                self.phase = Phase::Sealed;
                Ask::Sync
            }
            Phase::Sealed => self.seal(),
        }
    }
}

impl Store for Pager {
    type Call = Call;

    type Value = Never;

    type Reply = Reply;

    ghost engine = { pager_engine };

    fn call(&mut self, c: Call, bytes: &[u8]) {
        self.phase = Phase::Asked(c);
        if let Call::Put(_) = c {
            if bytes.len() == 4096 {
                self.page.copy_from_slice(bytes);
            } else {
                self.phase = Phase::Short;
            }
        }
    }

    fn step(&mut self, given: &[u8; 512]) -> Ask<Never, Reply> {
        let ask = self.go(given);
        bytes_fit(&self.sector);
        ask
    }

    fn buffer(&self) -> &[u8; 512] {
        &self.sector
    }

    fn shown(&self) -> &[u8] {
        &self.page
    }
}

impl Pager {
    // A pager for a device of so many sectors, which it has yet to read. Whatever is done with it then, and whenever the power fails, it keeps to the model.
    #[tactic(auto, using(crate::proofs::Stands::pager_whole))]
    pub fn open(heap: Global, size: u64) -> Result<Pager, AllocError>
        ensures opened { IfOk result (Opened size) }
        ensures memory { IfOk result (Memory size) }
        ensures whole { PagerWhole }
    {
        let pages = (size / 8) as usize;
        let maps = pages.div_ceil(64);
        let used = 1 + 2 * maps as u64;
        let slots = (size.saturating_sub(used) / 8) as usize;
        let base = vec![in heap; 0u64; 64 * maps]?;
        let present = vec![in heap; 0u64; 64 * maps]?;
        let owner = vec![in heap; 0u64; slots + 1]?;
        let dirty = vec![in heap; false; maps]?;
        let behind = vec![in heap; false; maps]?;
        let page = vec![in heap; 0u8; 4096]?;
        Ok(Pager {
            phase: Phase::Opening,
            pages,
            maps,
            slots,
            second: false,
            base,
            present,
            owner,
            dirty,
            behind,
            hint: 1,
            page,
            sector: [0; 512],
        })
    }
}
