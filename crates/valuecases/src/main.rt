// Worked examples of values: the samples as rows and as keys, all pairs of them compared both ways, sums and products at the edges of 64 bits, tests with null, and texts of 4,000 bytes and one more.
#![tactic(auto)]

mod shown;

use shown::{Hex, KeyRead, RowRead, Shown};
use std::io;
use values::back::first_column;
use values::key::{Direction, write_column};
use values::row::write_value;
use values::{Truth, Value};

// The samples, in their order.
const SAMPLES: [Value; 18] = [
    Value::Null,
    Value::Number(i64::MIN),
    Value::Number(-256),
    Value::Number(-1),
    Value::Number(0),
    Value::Number(1),
    Value::Number(256),
    Value::Number(i64::MAX),
    Value::Text(b""),
    Value::Text(b"\x00"),
    Value::Text(b"\x00\x00"),
    Value::Text(b"\x00\x01"),
    Value::Text(b"\x00\xff"),
    Value::Text(b"\x01"),
    Value::Text(b"ab"),
    Value::Text(b"ab\x00"),
    Value::Text(b"abc"),
    Value::Text(b"\xff"),
];

const TRUTHS: [Truth; 3] = [Truth::Holds, Truth::Fails, Truth::Unknown];

// The bytes of a column, written to the front of `out`.
fn key_of<'a>(value: Value, direction: Direction, out: &'a mut [u8; 64]) -> &'a [u8] {
    let end = write_column(value, direction, out, 0);
    end.and_then(|end| out.get(..end)).unwrap_or(b"")
}

fn row_of<'a>(value: Value, out: &'a mut [u8; 64]) -> &'a [u8] {
    let end = write_value(value, out, 0);
    end.and_then(|end| out.get(..end)).unwrap_or(b"")
}

// A sample as a row of one column and as a key, and what is read of both.
fn print_sample(rt: &HostRuntime, value: Value) -> io::Result<()> {
    let mut bytes = [0u8; 64];
    let row = row_of(value, &mut bytes);
    print!(rt;
        "{}: weighs {}, row {} {}",
        Shown(value),
        value.weight(),
        Hex(row),
        RowRead(row)
    )?;
    let rising = key_of(value, Direction::Rising, &mut bytes);
    print!(rt; ", rising {} {}", Hex(rising), KeyRead(rising))?;
    let falling = key_of(value, Direction::Falling, &mut bytes);
    println!(rt; ", falling {}", Hex(falling))
}

// Whether the bytes of two keys compare as their values do.
fn agree(a: Value, b: Value) -> bool {
    let mut x = [0u8; 64];
    let mut y = [0u8; 64];
    let rising = key_of(a, Direction::Rising, &mut x) < key_of(b, Direction::Rising, &mut y);
    let falling = key_of(a, Direction::Falling, &mut x) < key_of(b, Direction::Falling, &mut y);
    rising == a.less(b) && falling == b.less(a)
}

fn print_pairs(rt: &HostRuntime) -> io::Result<()> {
    let mut wrong = 0u32;
    for (i, &a) in SAMPLES.iter().enumerate() {
        for (j, &b) in SAMPLES.iter().enumerate() {
            if !agree(a, b) || a.less(b) != (i < j) {
                wrong = wrong.saturating_add(1);
            }
        }
    }
    println!(rt; "pairs of keys in another order than their values: {wrong}")
}

fn print_numbers(rt: &HostRuntime) -> io::Result<()> {
    let least = Value::Number(i64::MIN);
    let most = Value::Number(i64::MAX);
    let one = Value::Number(1);
    let below_one = Value::Number(-1);
    let two_to_32 = Value::Number(4294967296);
    let results = [
        ("most + 1", most.plus(one)),
        ("most + least", most.plus(least)),
        ("least - 1", least.minus(one)),
        ("0 - least", least.negated()),
        ("0 - most", most.negated()),
        ("least * -1", least.times(below_one)),
        ("-1 * most", below_one.times(most)),
        (
            "4294967296 * 2147483648",
            two_to_32.times(Value::Number(2147483648)),
        ),
        (
            "4294967296 * 2147483647",
            two_to_32.times(Value::Number(2147483647)),
        ),
        ("null + 1", Value::Null.plus(one)),
        ("1 * 'a'", one.times(Value::Text(b"a"))),
    ];
    for (label, result) in results {
        println!(rt; "{label} = {}", Shown(result))?;
    }
    Ok(())
}

fn print_tests(rt: &HostRuntime) -> io::Result<()> {
    for a in TRUTHS {
        println!(rt; "not = {}", Shown(a.not().into()))?;
        for b in TRUTHS {
            let and = Shown(a.and(b).into());
            let or = Shown(a.or(b).into());
            println!(rt;
                "{}, {}: and {and}, or {or}",
                Shown(a.into()),
                Shown(b.into())
            )?;
        }
    }
    Ok(())
}

fn print_compared(rt: &HostRuntime) -> io::Result<()> {
    let pairs = [
        (Value::Null, Value::Null),
        (Value::Null, Value::Number(0)),
        (Value::Number(-1), Value::Number(1)),
        (Value::Text(b"ab"), Value::Text(b"ab")),
    ];
    for (a, b) in pairs {
        println!(rt; "equal = {}", Shown(a.equal(b)))?;
        println!(rt; "below = {}", Shown(a.below(b)))?;
        println!(rt; "at most = {}", Shown(a.at_most(b)))?;
    }
    Ok(())
}

fn text_length(value: Value) -> usize {
    match value {
        Value::Text(text) => text.len(),
        _ => 0,
    }
}

// Texts of 4,000 bytes, and of one more.
fn print_long(rt: &HostRuntime) -> io::Result<()> {
    let mut out = [0u8; 4000];
    let zeros = [0u8; 4001];
    let half = Value::Text(&zeros[..2000]);
    let joined = text_length(half.concat(half, &mut out));
    let over = half.concat(Value::Text(&zeros[..2001]), &mut out).is_null();
    println!(rt; "2000 and 2000 bytes make {joined}; one more makes null: {over}")?;
    let mut key = [0u8; 9000];
    let Some(end) = write_column(Value::Text(&zeros[..4000]), Direction::Rising, &mut key, 0) else {
        return println!(rt; "no room for a key");
    };
    println!(rt; "the key of 4000 zeros has {end} bytes")?;
    let back = key
        .get(..end)
        .and_then(|bytes| first_column(bytes, &mut out));
    println!(rt;
        "and is read back as {}",
        back.map_or(0, |first| text_length(first.value))
    )?;
    let Some(end) = write_column(Value::Text(&zeros), Direction::Rising, &mut key, 0) else {
        return println!(rt; "no room for a key");
    };
    let back = key
        .get(..end)
        .and_then(|bytes| first_column(bytes, &mut out));
    println!(rt;
        "the key of 4001 zeros has {end} bytes, and is read back: {}",
        back.is_some()
    )
}

// Bytes that are no row: a kind that is none, a number and a text that are cut short; and those of a row of two columns.
fn print_broken(rt: &HostRuntime) -> io::Result<()> {
    println!(rt;
        "03: {}, 010000: {}, 02000261: {}, 0002000161: {}",
        RowRead(b"\x03"),
        RowRead(b"\x01\x00\x00"),
        RowRead(b"\x02\x00\x02a"),
        RowRead(b"\x00\x02\x00\x01a")
    )
}

fn main(rt: HostRuntime) -> anyhow::Result<()> {
    for value in SAMPLES {
        print_sample(&rt, value)?;
    }
    print_broken(&rt)?;
    print_pairs(&rt)?;
    print_numbers(&rt)?;
    print_tests(&rt)?;
    print_compared(&rt)?;
    print_long(&rt)?;
    Ok(())
}
