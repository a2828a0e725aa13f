// What the pager holds.
ghost use Rattle.std.specs.Prelude.{◌≡◌, ℕ, ◌+◌, ◌*◌, ◌^◌, ◌<◌, ◌≤◌, length, vec_len};

pub mod work;

#[derive(Clone, Copy)]
pub enum Call {
    Get(u64),
    // the bytes of the page go with the call
    Put(u64),
    // a slot of its own for a page, whatever that holds then: a put after it is never refused
    Give(u64),
    // the first page from this one on that has no slot
    Vacant(u64),
    Commit,
    Undo,
}

// kept: (d) refusals are variants and no Err: a layer passes a reply on as one value, and none goes on with `?`
#[derive(Clone, Copy, PartialEq, Eq)]
pub enum Reply {
    // the bytes of the page are shown
    Page,
    Done,
    // every slot is in use
    NoRoom,
    // the page that was searched for, if there is one
    Found(Option<u64>),
    // there is no such page, or it is not 4,096 bytes
    Outside,
}

// What is under way, mostly by what was asked for last.
// kept: (a) a phase and no closure: a step ends where something is asked for, and the next goes on from what is held in fixed memory
#[derive(Clone, Copy)]
pub enum Phase {
    Opening,
    Header,
    Fetch(usize),
    Loading(usize),
    Check(usize),
    Comparing(usize),
    Idle,
    Asked(Call),
    // a put of something that is no page
    Short,
    // this sector of this slot was asked for
    Getting(u64, usize),
    // so many sectors of the page are in this slot
    Putting(u64, usize),
    // the map sectors below this one are in the other area
    Filling(usize),
    Settled,
    Marked,
    Sealed,
}

#[derive(Drop)]
pub struct Pager {
    phase: Phase,
    // how many pages there are
    pages: usize,
    // sectors of a map; a sector has the entries of 64 pages
    maps: usize,
    // slots, numbered from 1
    slots: usize,
    // whether the second area is the active one
    second: bool,
    // the slot of each page as committed and at present; 0 for a blank page
    // kept: (a) 0 and no Option: a number of 8 bytes a page is what the device holds, and an Option would take 16 of the memory that is promised
    // kept: (d) two arrays: a commit copies parts of one over the other and an undo the other way, by one function
    base: Vec<u64>,
    present: Vec<u64>,
    // the page that each slot was last given to
    owner: Vec<u64>,
    // map sectors that were changed since the last commit; that are not the same in the other area
    // kept: (d) two arrays: a commit makes the second a copy of the first and clears that, each by one call
    dirty: Vec<bool>,
    behind: Vec<bool>,
    // where to look for a free slot first
    hint: usize,
    // the page that is read or written
    page: Vec<u8>,
    sector: [u8; 512],
    ghost few: { pages ≤ 64 * maps },
    ghost small: { 1 + 2 * maps + 8 * slots < 2 ^ 64 },
    ghost blen: { vec_len base ≡ 64 * maps },
    ghost plen: { vec_len present ≡ 64 * maps },
    ghost olen: { vec_len owner ≡ slots + 1 },
    ghost dlen: { vec_len dirty ≡ maps },
    ghost hlen: { vec_len behind ≡ maps },
    ghost glen: { vec_len page ≡ 4096 },
    ghost slen: { length sector ≡ 512 },
}
