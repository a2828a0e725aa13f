// How bytes, values, rows and keys are printed.
use std::fmt;
use values::Value;
use values::back::first_column;
use values::row::{column, columns};

// Bytes, two digits each.
#[derive(Clone, Copy)]
pub struct Hex<'a>(pub &'a [u8]);

impl<'a> fmt::Display for Hex<'a> {
    fn fmt<W: fmt::Write>(&self, f: &mut fmt::Formatter<W>) -> fmt::Result {
        for byte in self.0 {
            write!(f, "{byte:02x}")?;
        }
        Ok(())
    }
}

// A value; a text by its bytes.
#[derive(Clone, Copy)]
pub struct Shown<'a>(pub Value<'a>);

impl<'a> fmt::Display for Shown<'a> {
    fn fmt<W: fmt::Write>(&self, f: &mut fmt::Formatter<W>) -> fmt::Result {
        match self.0 {
            Value::Null => write!(f, "null"),
            Value::Number(n) => write!(f, "{n}"),
            Value::Text(text) => write!(f, "'{}'", Hex(text)),
        }
    }
}

// What is read of a row's bytes: how many columns, and the first.
#[derive(Clone, Copy)]
pub struct RowRead<'a>(pub &'a [u8]);

impl<'a> fmt::Display for RowRead<'a> {
    fn fmt<W: fmt::Write>(&self, f: &mut fmt::Formatter<W>) -> fmt::Result {
        match (columns(self.0), column(self.0, 0)) {
            (Some(count), Some(first)) => write!(f, "({count}: {})", Shown(first)),
            _ => write!(f, "(no row)"),
        }
    }
}

// What is read of a key's bytes: the first column.
#[derive(Clone, Copy)]
pub struct KeyRead<'a>(pub &'a [u8]);

impl<'a> fmt::Display for KeyRead<'a> {
    fn fmt<W: fmt::Write>(&self, f: &mut fmt::Formatter<W>) -> fmt::Result {
        let mut text = [0u8; 4000];
        match first_column(self.0, &mut text) {
            Some(first) => write!(f, "({})", Shown(first.value)),
            None => write!(f, "(no column)"),
        }
    }
}
