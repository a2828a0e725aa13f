// What is held of the pages in memory.
ghost use Rattle.std.specs.Prelude.{◌≡◌, ℕ, ◌<◌, vec_len};

pub mod work;

// How many page frames there are.
pub const FRAMES: usize = 128;

#[derive(Clone, Copy)]
pub enum PageCall {
    Get(u64),
    // the 4,096 bytes of the page go with the call
    Put(u64),
    // the first blank page from this one on
    Vacant(u64),
    Commit,
    Undo,
}

// What is under way, by what was asked of the pager last.
// kept: (a) a phase and no closure: a step ends where something is asked for, and the next goes on from what is held in fixed memory
#[derive(Clone, Copy)]
pub enum Doing {
    Rising,
    Resting,
    Asked(PageCall),
    // a put of something that is no page
    Short,
    // a slot for a page that is put
    Owning(u64),
    // the frame of a page that is put is written back for another page
    Evicting(u64),
    // a blank page is put
    Clearing(u64),
    // the frame of a page that is wanted is written back for another page
    Making(u64),
    Fetching(u64),
    Searching,
    // this frame is written back for a commit
    Flushing(usize),
    Committing,
    Undoing,
}

#[derive(Drop)]
pub struct Frames {
    doing: Doing,
    // kept: (a) three arrays, and 0 for no page: the memory that is promised is counted to the byte, and a struct of an Option, a flag and 4,096 bytes takes 15 more a frame
    // the page in each frame, plus one; 0 where there is none
    tags: Vec<u64>,
    // frames that the pager lacks
    stale: Vec<bool>,
    rows: Vec<[u8; 4096]>,
    // the frame that is sent or shown
    at: usize,
    // the page that is put
    page: Vec<u8>,
    ghost tlen: { vec_len tags ≡ 128 },
    ghost slen: { vec_len stale ≡ 128 },
    ghost rlen: { vec_len rows ≡ 128 },
    ghost glen: { vec_len page ≡ 4096 },
    ghost low: { at < 128 },
}
