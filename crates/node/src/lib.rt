// A node: a page of the tree as bytes. It is read in place, by parts of the page, and searched by halving; a page that is
// garbled is read without harm. It stands on `octets`, and what its entries are is said by `tree`.
#![tactic(auto)]

ghost use Rattle.std.specs.Prelude.{◌≡◌, ℕ, ◌+◌, ◌*◌, ◌<◌, ◌≤◌, Bool, List, [], ◌∷◌, ◌++◌, length};
ghost use Rattle.octets.specs.Parts.{pair};
ghost use Rattle.tree.specs.Bytes.{taken};
ghost use Rattle.tree.specs.Pages.{weigh};
ghost use Rattle.node.specs.Look.{Picked, Tells, Falls, Halved};
ghost use Rattle.node.specs.Node.{count_in, start_of, key_at, value_at, entry_at, entries_in, lies, Formed, Whole, Sorted, Parted, Cleared, Written, Pushed};

use octets::{fill_zero, get_u16, less, part_of, put_bytes, put_u16};

pub mod joiner;

// Bytes of a page, and where its entries begin.
pub const PAGE: usize = 4096;

const FIRST: usize = 8;

// There is no room for what was to be added.
#[derive(Clone, Copy, Debug, PartialEq, Eq)]
pub struct Full;

// A key, and what lies there.
#[derive(Clone, Copy)]
pub struct Entry<'a> {
    pub key: &'a [u8],
    pub value: &'a [u8],
}

// A page that is read as a node.
// kept: (d) that it is whole stands as a premise: as a fact of the type it would have to be tested at each reading, over all entries
#[derive(Clone, Copy)]
pub struct Node<'a> {
    pub page: &'a [u8],
}

impl<'a> Node<'a> {
    // How many entries the page says it has.
    pub fn count(self) -> usize
        ensures is { result ≡ count_in self.entry.page.now }
        ensures small { result < 65536 }
    {
        get_u16(self.page, 2).into()
    }

    // Where an entry begins.
    fn start_of(self, i: usize) -> usize
        ensures is { i ≤ 2047 → result ≡ start_of self.entry.page.now i }
        ensures small { result < 65536 }
    {
        if i == 0 {
            return FIRST;
        }
        get_u16(self.page, PAGE.saturating_sub(i.saturating_mul(2))).into()
    }

    // The length of the key of the entry that begins at a place.
    fn key_len(self, start: usize) -> usize
        ensures is { result ≡ pair self.entry.page.now start }
        ensures small { result < 65536 }
    {
        get_u16(self.page, start).into()
    }

    // The key of an entry, as a part of its page.
    pub fn key(self, i: usize) -> &'a [u8]
        ensures { (n : ℕ) → Formed self.entry.page.now n → i < n → result.now ≡ key_at self.entry.page.now i }
    {
        let start = self.start_of(i);
        part_of(self.page, start + 2, self.key_len(start))
    }

    // The value of an entry, as a part of its page.
    pub fn value(self, i: usize) -> &'a [u8]
        ensures { (n : ℕ) → Formed self.entry.page.now n → i < n → result.now ≡ value_at self.entry.page.now i }
    {
        let start = self.start_of(i);
        let from = start + 2 + self.key_len(start);
        let end = self.start_of(i.saturating_add(1));
        part_of(self.page, from, end.saturating_sub(from))
    }

    pub fn entry(self, i: usize) -> Entry<'a>
        ensures { (n : ℕ) → Formed self.entry.page.now n → i < n → lies result ≡ entry_at self.entry.page.now i }
    {
        Entry {
            key: self.key(i),
            value: self.value(i),
        }
    }

    // How many keys are below one: where the keys rise, those before that place are and the others are not.
    pub fn under(self, wanted: &[u8]) -> usize
        ensures { Whole self.entry.page.now → Sorted self.entry.page.now (count_in self.entry.page.now) → Parted self.entry.page.now wanted.now (count_in self.entry.page.now) result }
    {
        halve(self.count(), |i| less(self.key(i), wanted))
    }

    // The entry of an inner node that leads to where a key belongs: the last that is not above it, or the first. `above` is the
    // key with a 0 behind it, the least key above it.
    pub fn pick(self, above: &[u8]) -> usize
        ensures { (k : List ℕ) → above.now ≡ k ++ (0 ∷ []) → Whole self.entry.page.now → Sorted self.entry.page.now (count_in self.entry.page.now) → 0 < count_in self.entry.page.now → Picked self.entry.page.now k result }
    {
        self.under(above).saturating_sub(1)
    }

    // How many bytes the entries take.
    pub fn used(self) -> usize
        ensures { Whole self.entry.page.now → result ≡ weigh taken (entries_in self.entry.page.now) }
    {
        let n = self.count();
        self.start_of(n).saturating_sub(FIRST) + 2 * n
    }
}

// Up to where a test holds of the numbers below `n`, if it holds of none behind one that fails it. By halving.
fn halve<F: Fn(usize) -> bool>(n: usize, test: F) -> usize
    requires { F.IsAlwaysCallable test }
    ensures { (f : ℕ → Bool) → Tells (F.post test) n f → Falls n f → Halved n f result }
{
    let mut low = 0;
    let mut high = n;
    // kept: (d) halving by hand: the library halves slices, and a page's entries lie in none
    while low < high {
        let middle = low + (high - low) / 2;
        if test(middle) {
            low = middle + 1;
        } else {
            high = middle;
        }
    }
    low
}

// A node of a level, with no entries.
pub fn clear(page: &mut [u8; 4096], level: u8)
    ensures { Cleared level page.new }
{
    fill_zero(page);
    page[0] = level.saturating_add(1);
}

// Writes an entry at a place, and its end and the new count where they belong.
fn write_entry(page: &mut [u8; 4096], n: usize, at: usize, entry: Entry)
    requires { (length page.old ≡ 4096) × ((8 ≤ at) × (at + (2 + (length entry.key.now + length entry.value.now)) + 2 * (n + 1) ≤ 4096)) }
    ensures { Written page.old n at entry.entry.key.now entry.entry.value.now page.new }
{
    let value_at = at + 2 + entry.key.len();
    let end = value_at + entry.value.len();
    put_u16(page, at, entry.key.len() as u16);
    put_bytes(page, at + 2, entry.key);
    put_bytes(page, value_at, entry.value);
    put_u16(page, PAGE - 2 * (n + 1), end as u16);
    put_u16(page, 2, (n + 1) as u16);
}

// Adds an entry behind the others, if there is room.
pub fn push(page: &mut [u8; 4096], entry: Entry) -> Result<(), Full>
    ensures { Whole page.old → Pushed page.old entry.entry.key.now entry.entry.value.now result page.new }
{
    let node = Node { page };
    let n = node.count();
    let at = node.start_of(n);
    let len = entry.key.len().saturating_add(entry.value.len());
    if n > 2043 || at < FIRST || len > PAGE {
        return Err(Full);
    }
    if at + 2 + len + 2 * (n + 1) > PAGE {
        return Err(Full);
    }
    write_entry(page, n, at, entry);
    Ok(())
}
