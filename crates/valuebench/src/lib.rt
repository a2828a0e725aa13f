// Keys of 16 bytes written and compared in bulk, exported so that plain Rust can time them (bench/run).
#![tactic(auto)]

use values::Value;
use values::key::{Direction, less, write_column};

// A number rising and a text of 4 bytes falling: 16 bytes, where the text has no 0.
fn write_key(number: i64, text: &[u8], keys: &mut [u8], at: usize) -> Option<usize> {
    let next = write_column(Value::Number(number), Direction::Rising, keys, at)?;
    write_column(Value::Text(text), Direction::Falling, keys, next)
}

fn write_keys(numbers: &[i64], texts: &[u8], keys: &mut [u8]) -> Option<usize> {
    let mut texts = texts.chunks_exact(4);
    let mut at = 0;
    for number in numbers {
        at = write_key(*number, texts.next()?, keys, at)?;
    }
    Some(at)
}

// The keys of the numbers and texts, one behind the other; how many bytes they take, or 0 where they have no room.
// kept: (a) the 0: C has no Option
#[unsafe(no_mangle)]
pub extern "C" fn values_write_keys(numbers: &[i64], texts: &[u8], keys: &mut [u8]) -> usize {
    write_keys(numbers, texts, keys).unwrap_or(0)
}

// How many keys of 16 bytes are less than the one `step` keys further on.
// kept: (b) a sum in a `for`: by `zip`, `filter` and `count` it took 3.1 to 3.8 times plain Rust's time, and may take 3
#[unsafe(no_mangle)]
pub extern "C" fn values_count_less(keys: &[u8], step: usize) -> usize {
    let (keys, _) = keys.as_chunks::<16>();
    let further = keys.get(step..).unwrap_or(&[]);
    let mut found = 0usize;
    for (a, b) in keys.iter().zip(further) {
        found = found.wrapping_add(less(a, b).into());
    }
    found
}
