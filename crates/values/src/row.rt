// Rows as bytes: a null takes 1 byte, a number 9, a text 3 and its own, which is what they weigh. Bytes that are no row are told apart, and no byte past them is read.
ghost use Rattle.std.specs.Prelude.{◌≡◌, ◌+◌, ◌≤◌, ◌++◌, length, if◌then◌else◌, Some, None};
ghost use Rattle.std.specs.Option.{option_map};
ghost use Rattle.std.specs.Iterator.{at_most};
ghost use Rattle.meaning.specs.Doing.{weight};
ghost use Rattle.values.specs.Meant.{meaning_of};
ghost use Rattle.octets.specs.Numbers.{be, Bytes};
ghost use Rattle.octets.specs.Parts.{put};
ghost use Rattle.values.specs.Row.{bytes_of, has_room, lowered, front, front_of, seen, Takes, column_of, row_of, RowsRead, RowsWritten, RowsColumns, RowsWeigh};
ghost use Rattle.values.specs.Key.{Storable};

use crate::Value;
use crate::key::lift;
use crate::kind::Kind;
use octets::{put_bytes, put_u16, put_u64};

// What a text weighs at most: 2 bytes hold its length.
const HEAVIEST: usize = 65538;

// A value, and the bytes behind it.
#[derive(Clone, Copy)]
pub struct First<'v, 'r> {
    pub value: Value<'v>,
    pub rest: &'r [u8],
}

// What is written is read; bytes that are a row are the bytes of that row; a row takes as many bytes as it weighs.
pub fn rows_stand()
    ensures read { RowsRead }
    ensures written { RowsWritten }
    ensures columns { RowsColumns }
    ensures weigh { RowsWeigh }
{}

// A value written at `at`: the place behind it. Nothing is written where it has no room, or where 2 bytes don't hold a text's length.
pub fn write_value(value: Value, out: &mut [u8], at: usize) -> Option<usize>
    ensures storable { Storable (meaning_of value.entry) }
    ensures place { result ≡ (if has_room out.old at (meaning_of value.entry) then Some (at + weight (meaning_of value.entry)) else None) }
    ensures bytes { out.new ≡ (if has_room out.old at (meaning_of value.entry) then put out.old at (bytes_of (meaning_of value.entry)) else out.old) }
{
    let weight = value.weight();
    let end = at.checked_add(weight)?;
    if weight > HEAVIEST || end > out.len() {
        return None;
    }
    put_value(value, out, at);
    Some(end)
}

fn put_value(value: Value, out: &mut [u8], at: usize)
    requires room { at + weight (meaning_of value) ≤ length out.old }
    requires short { weight (meaning_of value) ≤ 65538 }
    ensures { out.new ≡ put out.old at (bytes_of (meaning_of value.entry)) }
{
    out[at] = value.kind().in_row();
    match value {
        Value::Null => {}
        Value::Number(n) => put_u64(out, at + 1, lift(n)),
        Value::Text(text) => put_text(text, out, at + 1),
    }
}

// A text's length in 2 bytes, and its bytes.
fn put_text(text: &[u8], out: &mut [u8], at: usize)
    requires room { at + 2 + length text.now ≤ length out.old }
    requires short { length text.now ≤ 65535 }
    ensures { out.new ≡ put out.old at (be 2 (length text.now) ++ text.now) }
{
    put_u16(out, at, text.len() as u16);
    put_bytes(out, at + 2, text);
}

// The first value of bytes; none where no value stands there.
pub fn first_value<'a>(bytes: &'a [u8]) -> Option<First<'a, 'a>>
    ensures { option_map seen result ≡ front bytes.now }
{
    let (&byte, rest) = bytes.split_first()?;
    match Kind::of_row(byte)? {
        Kind::Null => Some(First {
            value: Value::Null,
            rest,
        }),
        Kind::Number => first_number(rest),
        Kind::Text => first_text(rest),
    }
}

pub(crate) fn first_number<'v, 'r>(bytes: &'r [u8]) -> Option<First<'v, 'r>>
    ensures { option_map seen result ≡ front_of 1 bytes.now }
{
    let (digits, rest) = bytes.split_first_chunk::<8>()?;
    Some(First {
        value: Value::Number(lower(u64::from_be_bytes(*digits))),
        rest,
    })
}

fn first_text<'a>(bytes: &'a [u8]) -> Option<First<'a, 'a>>
    ensures { option_map seen result ≡ front_of 2 bytes.now }
{
    let (len, behind) = bytes.split_first_chunk::<2>()?;
    let (text, rest) = behind.split_at_checked(u16::from_be_bytes(*len).into())?;
    Some(First {
        value: Value::Text(text),
        rest,
    })
}

// The number of which the bytes hold 2^63 more.
pub fn lower(n: u64) -> i64
    ensures { result ≡ lowered n }
{
    (n as i128 - 0x8000_0000_0000_0000) as i64
}

// The value of a column, a part of the row's bytes; none where the row has no such column.
pub fn column<'a>(row: &'a [u8], index: usize) -> Option<Value<'a>>
    ensures { option_map meaning_of result ≡ column_of index row.now }
{
    Values { rest: row }.nth(index)
}

// How many columns bytes have; none where they are no row.
pub fn columns(bytes: &[u8]) -> Option<usize>
    ensures { result ≡ option_map (λ vs. length vs) (row_of bytes.now) }
{
    let mut values = Values { rest: bytes };
    let mut count = 0;
    // kept: (c) a count by hand: after `by_ref().count()` a proof doesn't know where the values ended
    while values.next().is_some() {
        count += 1;
    }
    values.rest.is_empty().then_some(count)
}

// The values of a row, up to where the bytes end or none stands.
#[derive(Drop)]
struct Values<'a> {
    rest: &'a [u8],
}

impl<'a> Iterator for Values<'a> {
    type Item = Value<'a>;

    ghost next_gives = { λ s r t. Takes s.rest.now r t.rest.now };

    ghost remaining = { λ s. at_most (length s.rest.now) };

    fn next(&mut self) -> Option<Value<'a>> {
        let First { value, rest } = first_value(self.rest)?;
        self.rest = rest;
        Some(value)
    }
}

impl<'a> Value<'a> {
    // How many bytes it takes in a row. What the code holds can be stored.
    #[tactic(auto, unfolding(meaning::specs::Doing::weight))]
    pub fn weight(self) -> usize
        ensures value { result ≡ weight (meaning_of self.entry) }
        ensures storable { Storable (meaning_of self.entry) }
    {
        match self {
            Value::Null => 1,
            Value::Number(_) => 9,
            Value::Text(text) => text_weight(text),
        }
    }
}

fn text_weight(text: &[u8]) -> usize
    ensures value { result ≡ 3 + length text.now }
    ensures bytes { Bytes text.now }
{
    3 + text.len()
}
