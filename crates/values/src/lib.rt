// Values: null, a number of 64 bits, or a text whose bytes lie beside it in lent memory. `compute` has their order, what is computed with them and tests of three answers; `row` has how a row
// lies in bytes, `key` how a key of an index does, and `back` how a key is read again. Nothing that is computed can fail: what has no result is null. Nothing allocates: bytes are written into
// memory that the caller lends, and where they have no room, nothing is written and the answer is none.
// It promises that each result is what the written meaning says, that bytes of a row are read as that row and no others are, and that comparing the bytes of keys is comparing their values
// column by column, rising or falling, whatever follows the keys. It stands on `meaning` and `octets`. Start with specs/Meant.antt, then Row and Key.
#![tactic(auto)]

pub mod back;
pub mod compute;
pub mod key;
mod kind;
pub mod row;

// A value; a text's bytes lie in memory that somebody lends. The order is null, then numbers, then texts by bytes.
#[derive(Clone, Copy, PartialEq, Eq, PartialOrd, Ord)]
pub enum Value<'a> {
    Null,
    Number(i64),
    Text(&'a [u8]),
}

// What a test says: a comparison with null says neither yes nor no.
#[derive(Clone, Copy, PartialEq, Eq, PartialOrd, Ord)]
pub enum Truth {
    Fails,
    Unknown,
    Holds,
}
