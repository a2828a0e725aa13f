// Sectors, map sectors and arrays of entries: functions on plain values and slices.
ghost use Rattle.std.specs.Prelude.{◌≡◌, ℕ, ◌+◌, ◌*◌, ◌/◌, ◌%◌, ◌^◌, ◌<◌, ◌≤◌, false, length, get_or, if◌then◌else◌, slice_index};
ghost use Rattle.octets.specs.Parts.{part};
ghost use Rattle.shadow.specs.Layout.{area_at, slot_at, area_in, raw_in, entry_in};
ghost use Rattle.pager.specs.Steps.{Owners};

use octets::{get_u64, put_u64};

// The sector i of an area.
pub fn area_at(maps: usize, second: bool, i: usize) -> u64
    requires { (1 + 2 * maps < 2 ^ 64) × (i < maps) }
    ensures { result ≡ area_at maps second i }
{
    if second {
        1 + maps as u64 + i as u64
    } else {
        1 + i as u64
    }
}

// The first sector of a slot.
pub fn slot_at(maps: usize, slot: u64) -> u64
    requires { (1 + 2 * maps + 8 * slot < 2 ^ 64) × (1 ≤ slot) }
    ensures { result ≡ slot_at maps slot }
{
    1 + 2 * maps as u64 + 8 * (slot - 1)
}

// Whether a header names the second area.
pub fn second_in(header: &[u8; 512]) -> bool
    ensures { result ≡ area_in header.now }
{
    header[0] == 1
}

// Names an area in a header.
pub fn mark(header: &mut [u8; 512], second: bool)
    ensures names { area_in header.new ≡ second }
    ensures len { length header.new ≡ 512 }
{
    header[0] = u8::from(second);
}

// The part j of a page goes into a sector.
pub fn cut(sector: &mut [u8; 512], page: &[u8], j: usize)
    requires { 512 * j + 512 ≤ length page.now }
    ensures part { sector.new ≡ part page.now (512 * j) 512 }
    ensures len { length sector.new ≡ 512 }
{
    let at = 512 * j;
    sector.copy_from_slice(&page[at..at + 512]);
}

// The entry k of a map sector; one that is no slot counts as blank.
fn entry_in(sector: &[u8; 512], k: usize, slots: usize) -> u64
    requires { k < 64 }
    ensures { result ≡ entry_in slots sector.now k }
{
    let raw = get_u64(sector, 8 * k);
    if raw <= slots as u64 { raw } else { 0 }
}

// A map sector's entries go to their places.
pub fn load(base: &mut [u64], sector: &[u8; 512], i: usize, slots: usize)
    requires { 64 * i + 64 ≤ length base.old }
    ensures rest { (p : ℕ) → p < 64 * i → slice_index base.new p ≡ slice_index base.old p }
    ensures here { (p : ℕ) → p / 64 ≡ i → slice_index base.new p ≡ entry_in slots sector.now (p % 64) }
{
    let at = 64 * i;
    for (k, entry) in base[at..at + 64].iter_mut().enumerate() {
        *entry = entry_in(sector, k, slots);
    }
}

// Whether a map sector says anything else than the array.
pub fn differs(base: &[u64], sector: &[u8; 512], i: usize, slots: usize) -> bool
    requires { 64 * i + 64 ≤ length base.now }
    ensures { result ≡ false → (p : ℕ) → p / 64 ≡ i → entry_in slots sector.now (p % 64) ≡ slice_index base.now p }
{
    let at = 64 * i;
    for (k, entry) in base[at..at + 64].iter().enumerate() {
        if *entry != entry_in(sector, k, slots) {
            return true;
        }
    }
    false
}

// The array's entries go into a map sector.
pub fn encode(sector: &mut [u8; 512], present: &[u64], i: usize)
    requires { 64 * i + 64 ≤ length present.now }
    ensures raw { (p : ℕ) → p / 64 ≡ i → raw_in sector.new (p % 64) ≡ slice_index present.now p }
    ensures len { length sector.new ≡ 512 }
{
    let at = 64 * i;
    for (k, entry) in present[at..at + 64].iter().enumerate() {
        put_u64(sector, 8 * k, *entry);
    }
}

// Each slot that one of the pages has learns of a page that has it.
pub fn link(owner: &mut [u64], base: &[u64])
    ensures { Owners base.now owner.new (length base.now) }
{
    for (p, slot) in base.iter().enumerate() {
        let slot = *slot as usize;
        if slot < owner.len() {
            owner[slot] = p as u64;
        }
    }
}

// The entries of the map sectors whose flag is up are taken over.
pub fn settle(out: &mut [u64], from: &[u64], flags: &[bool])
    requires { (64 * length flags.now ≡ length out.old) × (length from.now ≡ length out.old) }
    ensures { (p : ℕ) → p < length out.old → slice_index out.new p ≡ (if get_or flags.now (p / 64) false then slice_index from.now p else slice_index out.old p) }
{
    for (i, flag) in flags.iter().enumerate() {
        if *flag {
            let at = 64 * i;
            out[at..at + 64].copy_from_slice(&from[at..at + 64]);
        }
    }
}
