// What the frames do.
ghost use Rattle.std.specs.Prelude.{◌≡◌, ℕ, ◌+◌, ◌-◌, ◌*◌, ◌%◌, ◌<◌, ◌≤◌, true, false, [], length, IfOk, slice_index_or};
ghost use Rattle.octets.specs.Parts.{blank};
ghost use Rattle.pages.specs.Model.{pages_engine, PagesWhole, RoomStands, Memory, Takings};
ghost use Rattle.pages.specs.Layer.{Wakes, frame_of, tg, st, fr, given, Same, Claims, Vacates, Stores, WritesBack, PageIn, Hit, GetStarts, PutStarts, NextStale, FlushOn, UndoStarts, Owns, Cleared, Made, Fetched, Flushed, frames_layer};

use super::{Doing, FRAMES, Frames, PageCall};
use device::{Layer, Never, Next, Over};
use octets::is_blank;
use pager::{Call, Pager, Reply};
use std::alloc::{AllocError, Global};

// The frame of a page.
fn frame_of(p: u64) -> usize
    ensures { (result ≡ frame_of p) × (result < 128) }
{
    (p % FRAMES as u64) as usize
}

// The tag of a page; the last number of all, which no page has, has none.
fn tag_of(p: u64) -> u64
    ensures { p < 18446744073709551615 → result ≡ p + 1 }
{
    p.wrapping_add(1)
}

impl Frames {
    // The page in a frame, if there is one.
    fn page_in(&self, f: usize) -> Option<u64>
        requires { f < 128 }
        ensures { PageIn f self.now result }
    {
        self.tags[f].checked_sub(1)
    }

    // Whether a page is in its frame.
    fn hit(&self, p: u64) -> bool
        ensures { Hit p self.now result }
    {
        self.page_in(frame_of(p)) == Some(p)
    }

    // The first frame from i on that the pager lacks.
    fn next_stale(&self, i: usize) -> Option<usize>
        ensures { NextStale i self.now result }
    {
        (i..FRAMES).find(|f| self.is_stale(*f))
    }

    // Whether a frame is one that the pager lacks.
    fn is_stale(&self, f: usize) -> bool
        requires { f < 128 }
        ensures { result ≡ st self.now f }
    {
        self.stale[f]
    }
}

impl Frames {
    // The answer to the call.
    fn give(&mut self, reply: Reply) -> Next<Call, Never, Reply>
        ensures gives { result ≡ Next.Give reply }
        ensures rest { self.new ≡ record self.old { doing = Doing.Resting } }
    {
        self.doing = Doing::Resting;
        Next::Give(reply)
    }

    // A call of the pager.
    fn ask(&mut self, call: Call, doing: Doing) -> Next<Call, Never, Reply>
        ensures calls { result ≡ Next.Call call }
        ensures rest { self.new ≡ record self.old { doing = doing } }
    {
        self.doing = doing;
        Next::Call(call)
    }
}

// The frames themselves.
impl Frames {
    // The frame of a page is that page's, and is yet to get its bytes.
    fn claim(&mut self, p: u64, stale: bool) -> usize
        ensures frame { (result ≡ frame_of p) × (result < 128) }
        ensures claims { p < 18446744073709551615 → Claims p stale self.old self.new }
        ensures page { self.new.page ≡ self.old.page }
    {
        let f = frame_of(p);
        self.tags[f] = tag_of(p);
        self.stale[f] = stale;
        f
    }

    // The frame of a page is nobody's.
    fn vacate(&mut self, p: u64)
        ensures { Vacates p self.old self.new }
    {
        let f = frame_of(p);
        self.tags[f] = 0;
        self.stale[f] = false;
    }

    // The page that is put goes into its frame.
    fn store(&mut self, p: u64) -> Next<Call, Never, Reply>
        ensures { Stores p self.old result self.new }
    {
        let f = self.claim(p, true);
        self.rows[f].copy_from_slice(&self.page);
        self.give(Reply::Done)
    }

    // A frame is written back.
    fn write_back(&mut self, f: usize, doing: Doing) -> Next<Call, Never, Reply>
        requires { f < 128 }
        ensures { WritesBack f doing self.old result self.new }
    {
        self.at = f;
        let page = self.tags[f].saturating_sub(1);
        self.ask(Call::Put(page), doing)
    }

    // The next stale frame is written back, or the pager commits.
    fn flush(&mut self, i: usize) -> Next<Call, Never, Reply>
        ensures on { FlushOn i result self.new }
        ensures same { Same self.old self.new }
    {
        let Some(f) = self.next_stale(i) else {
            return self.ask(Call::Commit, Doing::Committing);
        };
        self.write_back(f, Doing::Flushing(f))
    }
}

// At a call.
impl Frames {
    fn get(&mut self, p: u64) -> Next<Call, Never, Reply>
        ensures { GetStarts p self.old result self.new }
    {
        let hit = self.hit(p);
        let stale = self.is_stale(frame_of(p));
        if hit {
            self.at = frame_of(p);
            self.give(Reply::Page)
        } else if stale {
            self.write_back(frame_of(p), Doing::Making(p))
        } else {
            self.ask(Call::Get(p), Doing::Fetching(p))
        }
    }

    fn put(&mut self, p: u64) -> Next<Call, Never, Reply>
        ensures { PutStarts p self.old result self.new }
    {
        let blank = is_blank(&self.page);
        let hit = self.hit(p);
        let stale = self.is_stale(frame_of(p));
        if blank {
            return self.ask(Call::Put(p), Doing::Clearing(p));
        }
        if hit && stale {
            return self.store(p);
        }
        self.ask(Call::Give(p), Doing::Owning(p))
    }

    fn undo(&mut self) -> Next<Call, Never, Reply>
        ensures { UndoStarts self.old result self.new }
    {
        self.tags.fill(0);
        self.stale.fill(false);
        self.ask(Call::Undo, Doing::Undoing)
    }
}

// When the pager has answered.
impl Frames {
    // There is a slot for the page that is put.
    fn own(&mut self, p: u64) -> Next<Call, Never, Reply>
        ensures { Owns p self.old result self.new }
    {
        let hit = self.hit(p);
        let stale = self.is_stale(frame_of(p));
        if !hit && stale {
            return self.write_back(frame_of(p), Doing::Evicting(p));
        }
        self.store(p)
    }

    fn cleared(&mut self, p: u64) -> Next<Call, Never, Reply>
        ensures { Cleared p self.old result self.new }
    {
        if self.hit(p) {
            self.vacate(p);
        }
        self.give(Reply::Done)
    }

    fn made(&mut self, p: u64) -> Next<Call, Never, Reply>
        ensures { Made p self.old result self.new }
    {
        self.vacate(p);
        self.ask(Call::Get(p), Doing::Fetching(p))
    }

    fn fetched(&mut self, p: u64, bytes: &[u8]) -> Next<Call, Never, Reply>
        ensures { Fetched p self.old bytes.now result self.new }
    {
        if bytes.len() != 4096 {
            return self.give(Reply::Outside);
        }
        let f = self.claim(p, false);
        self.rows[f].copy_from_slice(bytes);
        self.at = f;
        self.give(Reply::Page)
    }

    fn flushed(&mut self, i: usize) -> Next<Call, Never, Reply>
        ensures { Flushed i self.old result self.new }
    {
        if i < FRAMES {
            self.stale[i] = false;
        }
        self.flush(i.saturating_add(1))
    }
}

impl Layer for Frames {
    type Below = Call;

    type Heard = Reply;

    type Call = PageCall;

    type Value = Never;

    type Reply = Reply;

    ghost layer = { frames_layer };

    fn take(&mut self, c: PageCall, bytes: &[u8]) {
        self.doing = Doing::Asked(c);
        if let PageCall::Put(_) = c {
            if bytes.len() == 4096 {
                self.page.copy_from_slice(bytes);
            } else {
                self.doing = Doing::Short;
            }
        }
    }

    fn start(&mut self) -> Next<Call, Never, Reply> {
        match self.doing {
            Doing::Asked(PageCall::Get(p)) => self.get(p),
            Doing::Asked(PageCall::Put(p)) => self.put(p),
            Doing::Asked(PageCall::Vacant(p)) => { self.ask(Call::Vacant(p), Doing::Searching) }
            Doing::Asked(PageCall::Commit) => self.flush(0),
            Doing::Asked(PageCall::Undo) => self.undo(),
            Doing::Short => { self.give(Reply::Outside) }
            _ => { self.give(Reply::Done) }
        }
    }

    fn hear(&mut self, r: Reply, bytes: &[u8]) -> Next<Call, Never, Reply> {
        match (self.doing, r) {
            (Doing::Owning(p), Reply::Done) => self.own(p),
            (Doing::Evicting(p), _) => self.store(p),
            (Doing::Clearing(p), Reply::Done) => self.cleared(p),
            (Doing::Making(p), _) => self.made(p),
            (Doing::Fetching(p), Reply::Page) => self.fetched(p, bytes),
            (Doing::Flushing(i), _) => self.flushed(i),
            (_, _) => self.give(r),
        }
    }

    fn sent(&self) -> &[u8] {
        match self.doing {
            Doing::Clearing(_) => &self.page,
            _ => &self.rows[self.at],
        }
    }

    fn shown(&self) -> &[u8] {
        &self.rows[self.at]
    }
}

impl Frames {
    // Empty frames.
    fn wake(heap: Global) -> Result<Frames, AllocError>
        ensures wakes { IfOk result Wakes }
        ensures memory { IfOk result Memory }
    {
        let tags = vec![in heap; 0u64; FRAMES]?;
        let stale = vec![in heap; false; FRAMES]?;
        let rows = vec![in heap; [0u8; 4096]; FRAMES]?;
        let page = vec![in heap; 0u8; 4096]?;
        Ok(Frames {
            doing: Doing::Rising,
            tags,
            stale,
            rows,
            at: 0,
            page,
        })
    }
}

// Pages on a device of so many sectors that are yet to come up. Whatever is done with them then, and whenever the power fails, they keep to the model.
// All memory is taken here.
#[tactic(auto, using(crate::proofs::Ends::pages_whole, crate::proofs::Ends::takings))]
pub fn open(heap: Global, size: u64) -> Result<Over<Pager, Frames>, AllocError>
    ensures opened { IfOk result (pages_engine.Opens size) }
    ensures memory { IfOk result (Takings size) }
    ensures whole { PagesWhole }
{
    let below = Pager::open(heap, size)?;
    let frames = Frames::wake(heap)?;
    Ok(Over::opening(below, frames))
}

// Where there is no room, what is to be kept is more than the device has room for by the stated sum.
#[tactic(auto, using(crate::proofs::Ends::room_stands))]
pub fn room_stands()
    ensures { RoomStands }
{}
