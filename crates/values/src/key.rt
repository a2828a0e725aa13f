// Keys as bytes: comparing the bytes of two keys is comparing their values, column by column, each rising or falling; and no key is a beginning of another, so that a row's number can follow.
// A key is written one column at a time into lent memory.
ghost use Rattle.std.specs.Prelude.{◌≡◌, ◌+◌, ◌*◌, ◌≤◌, length, if◌then◌else◌, Some, None};
ghost use Rattle.meaning.specs.Value.{less_bytes};
ghost use Rattle.meaning.specs.Doing.{weight};
ghost use Rattle.values.specs.Meant.{meaning_of};
ghost use Rattle.octets.specs.Numbers.{turned};
ghost use Rattle.octets.specs.Parts.{put};
ghost use Rattle.values.specs.Key.{lifted, escaped, rising_code, falls, code_of, column_room, Storable, OrdersKeys, KeysOrdered, KeysFollowed, KeysApart, KeysShort};

use crate::Value;
use octets::put_u64;

// Comparing keys is comparing values, whatever follows the keys; none is a beginning of another, and none is long.
pub fn keys_stand()
    ensures ordered { KeysOrdered }
    ensures followed { KeysFollowed }
    ensures apart { KeysApart }
    ensures short { KeysShort }
{}

// The way a column goes.
#[derive(Clone, Copy, PartialEq, Eq)]
pub enum Direction {
    Rising,
    Falling,
}

// The order of keys, each with what follows it: that of their bytes, which is that of their values.
// kept: (d) a name for `<`: callers have its contract, which says what comparing the bytes says of the values
pub fn less(a: &[u8], b: &[u8]) -> bool
    ensures bytes { result ≡ less_bytes a.now b.now }
    ensures keys { OrdersKeys a.now b.now result }
{
    a < b
}

// A column of a key, written at `at`: the place behind it. Nothing is written where 1 and twice the value's weight have no room there.
pub fn write_column(value: Value, direction: Direction, out: &mut [u8], at: usize) -> Option<usize>
    ensures storable { Storable (meaning_of value.entry) }
    ensures place { result ≡ (if column_room out.old at (meaning_of value.entry) then Some (at + length (code_of (falls direction) (meaning_of value.entry))) else None) }
    ensures bytes { out.new ≡ (if column_room out.old at (meaning_of value.entry) then put out.old at (code_of (falls direction) (meaning_of value.entry)) else out.old) }
{
    let weight = value.weight();
    if at >= out.len() || weight > (out.len() - at - 1) / 2 {
        return None;
    }
    Some(put_column(value, direction, out, at))
}

fn put_column(value: Value, direction: Direction, out: &mut [u8], at: usize) -> usize
    requires { at + (2 * weight (meaning_of value) + 1) ≤ length out.old }
    ensures place { result ≡ at + length (code_of (falls direction) (meaning_of value.entry)) }
    ensures bytes { out.new ≡ put out.old at (code_of (falls direction) (meaning_of value.entry)) }
{
    let end = put_rising(value, out, at);
    match direction {
        Direction::Rising => {}
        Direction::Falling => turn(&mut out[at..end]),
    }
    end
}

fn put_rising(value: Value, out: &mut [u8], at: usize) -> usize
    requires { at + (2 * weight (meaning_of value) + 1) ≤ length out.old }
    ensures place { result ≡ at + length (rising_code (meaning_of value.entry)) }
    ensures bytes { out.new ≡ put out.old at (rising_code (meaning_of value.entry)) }
{
    out[at] = value.kind().in_key();
    match value {
        Value::Null => at + 1,
        Value::Number(n) => {
            put_u64(out, at + 1, lift(n));
            at + 9
        }
        Value::Text(text) => put_escaped(text, out, at + 1),
    }
}

// A number as one that is not negative, so that its bytes are in its order.
pub fn lift(n: i64) -> u64
    ensures { result ≡ lifted n }
{
    (n as i128 + 0x8000_0000_0000_0000) as u64
}

fn put_escaped(text: &[u8], out: &mut [u8], at: usize) -> usize
    requires { at + (2 * length text.now + 2) ≤ length out.old }
    ensures place { result ≡ at + length (escaped text.now) }
    ensures bytes { out.new ≡ put out.old at (escaped text.now) }
{
    let mut end = at;
    // kept: (d) a place counted by hand: a byte of the text takes one byte of the key, or two
    for &byte in text {
        out[end] = byte;
        end += 1;
        if byte == 0 {
            out[end] = 255;
            end += 1;
        }
    }
    out[end] = 0;
    out[end + 1] = 1;
    end + 2
}

// Each byte is taken from 255.
fn turn(part: &mut [u8])
    ensures { part.new ≡ turned part.old }
{
    for byte in part {
        *byte = 255 - *byte;
    }
}
