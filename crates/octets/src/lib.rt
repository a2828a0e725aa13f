// Bytes in lent memory: parts of them, writes to a part, numbers in them, and their order. A part ends where the
// bytes end, a single byte past the end is 0, and a write for which there is no room is not done, so that nothing is asked of a caller.
// A write is an equation with `put`, so that what it leaves unchanged is known. A number has its highest byte first.
//
// What is meant stands in specs/Parts.antt and specs/Numbers.antt; laws for the crates above, of parts and writes in proofs/Parts.antt, of numbers
// as bytes in proofs/Numbers.antt, of the order in proofs/Order.antt, and in proofs/Compared.antt that numbers as bytes are in the order of numbers.
#![tactic(auto)]

ghost use Rattle.std.specs.Prelude.{◌≡◌, length, replicate, slice_index};
ghost use Rattle.std.specs.Int.Digits.{number_from_digits};
ghost use Rattle.meaning.specs.Value.{less_bytes};
ghost use Rattle.octets.specs.Numbers.{be};
ghost use Rattle.octets.specs.Parts.{part, put, put_in, blank, pair, pair_of};

// At most so many bytes from a place on; fewer where the slice ends.
pub fn part_of(bytes: &[u8], at: usize, len: usize) -> &[u8]
    ensures { result.now ≡ part bytes.now at len }
{
    let rest = bytes.get(at..).unwrap_or(&[]);
    &rest[..len.min(rest.len())]
}

// The byte at a place, or 0 past the end.
pub fn byte_at(bytes: &[u8], at: usize) -> u8
    ensures { result ≡ slice_index bytes.now at }
{
    bytes.get(at).copied().unwrap_or(0)
}

// The number in two bytes.
pub fn get_u16(bytes: &[u8], at: usize) -> u16
    ensures { result ≡ pair bytes.now at }
{
    u16::from_be_bytes([byte_at(bytes, at), byte_at(bytes, at.saturating_add(1))])
}

// The number in at most eight bytes; fewer where the slice ends.
pub fn get_u64(bytes: &[u8], at: usize) -> u64
    ensures { result ≡ number_from_digits 256 (part bytes.now at 8) }
{
    let part = part_of(bytes, at, 8);
    let mut digits = [0u8; 8];
    let from = 8 - part.len();
    digits[from..].copy_from_slice(part);
    u64::from_be_bytes(digits)
}

// Bytes go to their place, if they fit in.
pub fn put_bytes(out: &mut [u8], at: usize, bytes: &[u8])
    ensures { out.new ≡ put_in out.old at bytes.now }
{
    let len = bytes.len();
    if at > out.len() || len > out.len() - at {
        return;
    }
    out[at..at + len].copy_from_slice(bytes);
}

// A number goes to its place in two bytes, if they fit in.
pub fn put_u16(out: &mut [u8], at: usize, number: u16)
    ensures { out.new ≡ put_in out.old at (pair_of number) }
{
    put_bytes(out, at, &number.to_be_bytes());
}

// A number goes to its place in eight bytes, if they fit in.
pub fn put_u64(out: &mut [u8], at: usize, number: u64)
    ensures { out.new ≡ put_in out.old at (be 8 number) }
{
    put_bytes(out, at, &number.to_be_bytes());
}

// Zeros all over.
pub fn fill_zero(out: &mut [u8])
    ensures { out.new ≡ replicate (length out.old) 0 }
{
    out.fill(0);
}

// Whether there is nothing but zeros.
pub fn is_blank(bytes: &[u8]) -> bool
    ensures { result ≡ blank bytes.now }
{
    bytes.iter().all(|&byte| byte == 0)
}

// The order of texts and keys: by bytes, a beginning first.
// kept: (d) a name for `<`: callers have its contract, which says that it is the order of the meaning
pub fn less(a: &[u8], b: &[u8]) -> bool
    ensures { result ≡ less_bytes a.now b.now }
{
    a < b
}
