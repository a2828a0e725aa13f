// Rising columns of a key read back. A text is taken back into memory that the caller lends, since a 0 in it takes two bytes in the key.
ghost use Rattle.std.specs.Prelude.{◌≡◌, ◌≤◌, take, IfSome};
ghost use Rattle.std.specs.Option.{option_map};
ghost use Rattle.values.specs.Row.{seen};
ghost use Rattle.values.specs.Back.{unescaped, text_back, back, Steps, ColumnsRead, ColumnsWritten};

use crate::Value;
use crate::compute::LONGEST;
use crate::kind::Kind;
use crate::row::{First, first_number};

// What is written is read, and bytes that are read as a column are the bytes of that column.
pub fn columns_stand()
    ensures read { ColumnsRead }
    ensures written { ColumnsWritten }
{}

// The first column of a key, and the bytes behind it; none where no rising column stands there, or its text has more than 4,000 bytes.
pub fn first_column<'k, 'o>(key: &'k [u8], out: &'o mut [u8; 4000]) -> Option<First<'o, 'k>>
    ensures { option_map seen result ≡ back key.now }
{
    let (&byte, rest) = key.split_first()?;
    match Kind::of_key(byte)? {
        Kind::Null => Some(First {
            value: Value::Null,
            rest,
        }),
        Kind::Number => first_number(rest),
        Kind::Text => text_back(rest, out),
    }
}

fn text_back<'k, 'o>(bytes: &'k [u8], out: &'o mut [u8; 4000]) -> Option<First<'o, 'k>>
    ensures { option_map seen result ≡ text_back bytes.now }
{
    let (len, rest) = unescape(bytes, out)?;
    Some(First {
        value: Value::Text(&out[0..len]),
        rest,
    })
}

// The text is taken into `out`: its length there, and the bytes behind it in the key.
fn unescape<'k>(bytes: &'k [u8], out: &mut [u8; 4000]) -> Option<(usize, &'k [u8])>
    ensures value { option_map (λ p. record { text = take p.0 out.new; rest = p.1.now }) result ≡ unescaped 4000 bytes.now }
    ensures within { IfSome result (λ p. p.0 ≤ 4000) }
{
    let mut rest = bytes;
    let mut len = 0;
    // kept: (c) a place counted by hand: where a byte goes in by `get_mut`, a proof doesn't know that it was written
    loop {
        match next_byte(rest)? {
            Next::Byte(byte, behind) => {
                if len == LONGEST {
                    return None;
                }
                out[len] = byte;
                len += 1;
                rest = behind;
            }
            Next::End(behind) => return Some((len, behind)),
        }
    }
}

// What an escaped text goes on with, and the bytes behind it.
#[derive(Clone, Copy)]
enum Next<'k> {
    Byte(u8, &'k [u8]),
    End(&'k [u8]),
}

fn next_byte(bytes: &[u8]) -> Option<Next>
    ensures { Steps bytes.now result }
{
    let (&byte, rest) = bytes.split_first()?;
    if byte != 0 {
        return Some(Next::Byte(byte, rest));
    }
    let (&mark, rest) = rest.split_first()?;
    match mark {
        1 => Some(Next::End(rest)),
        255 => Some(Next::Byte(0, rest)),
        _ => None,
    }
}
