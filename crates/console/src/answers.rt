// Answers as text: `no 3`, `done 2`, `full`, `begun`, `end`; a row has its values between bars.
// kept: (d) functions and no Display: a text is any bytes, and what is displayed has to be UTF-8
ghost use Rattle.std.specs.Prelude.{◌≡◌, [], ◌∷◌, ◌++◌, OnOk};
ghost use Rattle.std.specs.Fmt.{signed_decimal};
ghost use Rattle.console.specs.Text.{twice, doubled, quoted, cell_text, reply_text};

use session::{Reply, Value};
use std::alloc::AllocError;

// A byte of a text: a quote is written twice.
fn push_byte(out: &mut Vec<u8>, byte: u8) -> Result<(), AllocError>
    ensures { OnOk result (out.new.items ≡ out.old.items ++ twice byte) }
{
    if byte == b'\'' {
        return out.extend_from_slice(b"''");
    }
    out.push(byte)?;
    Ok(())
}

// The bytes of a text, a quote in it doubled, every other byte as it is.
fn push_doubled(out: &mut Vec<u8>, text: &[u8]) -> Result<(), AllocError>
    ensures { OnOk result (out.new.items ≡ out.old.items ++ doubled text.now) }
{
    for byte in text {
        push_byte(out, *byte)?;
    }
    Ok(())
}

// A text in single quotes.
pub fn push_text(out: &mut Vec<u8>, text: &[u8]) -> Result<(), AllocError>
    ensures { OnOk result (out.new.items ≡ out.old.items ++ quoted text.now) }
{
    out.push(b'\'')?;
    push_doubled(out, text)?;
    out.push(b'\'')?;
    Ok(())
}

fn push_number(out: &mut Vec<u8>, number: i64) -> Result<(), AllocError>
    ensures { OnOk result (out.new.items ≡ out.old.items ++ signed_decimal number) }
{
    let digits = format!(in *out.allocator(); "{number}")?;
    out.extend_from_slice(digits.as_bytes())
}

// A value of a row, and the bar after it.
pub fn push_value(out: &mut Vec<u8>, value: Value, text: &[u8]) -> Result<(), AllocError>
    ensures { OnOk result (out.new.items ≡ out.old.items ++ cell_text value text.now) }
{
    match value {
        Value::Null => out.extend_from_slice(b"null")?,
        Value::Number(number) => push_number(out, number)?,
        Value::Text => push_text(out, text)?,
    }
    out.push(b'|')?;
    Ok(())
}

// The line of a row: its values, each with a bar after it, behind a bar.
fn push_row(out: &mut Vec<u8>, row: &[u8]) -> Result<(), AllocError>
    ensures { OnOk result (out.new.items ≡ out.old.items ++ reply_text Reply.Row row.now) }
{
    out.push(b'|')?;
    out.extend_from_slice(row)?;
    out.push(b'\n')?;
    Ok(())
}

// The line that answers a call; the values of a row stand in `row`.
pub fn push_reply(out: &mut Vec<u8>, reply: Reply, row: &[u8]) -> Result<(), AllocError>
    ensures { OnOk result (out.new.items ≡ out.old.items ++ reply_text reply row.now) }
{
    match reply {
        Reply::No(number) => {
            let line = format!(in *out.allocator(); "no {number}\n")?;
            out.extend_from_slice(line.as_bytes())
        }
        Reply::Done(rows) => {
            let line = format!(in *out.allocator(); "done {rows}\n")?;
            out.extend_from_slice(line.as_bytes())
        }
        Reply::Begun => out.extend_from_slice(b"begun\n"),
        Reply::Row => push_row(out, row),
        Reply::End => out.extend_from_slice(b"end\n"),
        Reply::Full => out.extend_from_slice(b"full\n"),
    }
}
