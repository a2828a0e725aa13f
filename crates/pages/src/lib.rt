// Numbered pages of 4,096 bytes on a device with cuts: get, put, commit, undo, and the first blank page from a number on.
//
// A commit is done whole or not at all, whenever the power fails; what was put since is lost by a cut or an undo. The pager below
// has the device; here a fixed number of page frames is kept in memory and written back: a page that is put again
// is written once, when its frame is needed or at the commit, and a page that is read again is not asked for.
// A page is given its slot when it is put, so that writing it back never wants room. Page p has the one frame p modulo `FRAMES`.
// It stands on `pager` as a layer of `device`, and sees no device itself.
#![tactic(auto)]

pub mod frames;

pub use frames::work::{open, room_stands};
pub use frames::{FRAMES, Frames, PageCall};
pub use pager::Reply;
