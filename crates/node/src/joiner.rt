// Pages of a level as they are made anew: entries are added in order, and a unit of them begins a page of its own where the
// last page has no room for all of it. So two neighbours together always exceed a page.
ghost use Rattle.std.specs.Prelude.{vec_len, vec_items};
ghost use Rattle.node.specs.Joiner.{Made, Kept, pages_to};

use std::marker::Model;

mod work;

// The pages that one change of a level can make.
pub const MOST: usize = 24;

// The bytes of entries that a page holds.
pub const CAPACITY: usize = 4088;

// What is known of it is its level, the entries of each page in use, and the memory that all pages lie in: where something
// does not go in, none of it changes.
#[derive(Drop)]
pub struct Joiner {
    pages: Vec<[u8; 4096]>,
    // how many of them are in use
    // kept: (d) a length beside them: pages are made where they lie, and to push one would make it elsewhere and copy it
    len: usize,
    level: u8,
}

impl Model for Joiner {
    ghost Value = { Made };

    ghost view = { λ j. record { level = j.level; pages = pages_to (vec_items j.pages) j.len; memory = j.pages } };

    ghost invariant = { λ j. Kept (vec_len j.pages) (vec_items j.pages) j.len };
}
