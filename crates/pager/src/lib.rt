// A pager on a device with cuts: numbered pages of 4,096 bytes, committed by shadow paging, as a machine that asks for one thing at a time.
//
// Why a cut can't hurt: a page as committed stands in a slot that the committed map names, and such a slot is never written to.
// A put goes into a slot that neither map names. A commit writes the changed sectors of the map into the area that is not active,
// syncs, and only then writes the one header sector, which names that area; it is answered after a second sync. A sector is written
// whole or not at all, so after a cut the header names the old area or the new one, and all that either leads to is there.
// Nothing is counted up, so no number can come round.
//
// It holds no pages in memory but the one under way, and stands on `device`, `octets` and `shadow`; a cache of pages is a layer above it.
#![tactic(auto)]

mod leaves;
pub mod state;

pub use state::{Call, Pager, Reply};
