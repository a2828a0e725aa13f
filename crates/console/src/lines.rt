// Lines of input, as bytes: a statement may hold any byte but a line feed. Which lines they are is said of an input whose bytes
// are known, as those of a slice are, and fewer than the loops count to.
ghost use Rattle.std.specs.Prelude.{◌≡◌, ℕ, ◌-◌, ◌<◌, ◌⊎◌, ◌↔◌, List, [], ◌++◌, length, take, Some, IsTrue, OnOk, OnErr, IfOk, IfErr, All, Contains, vec_len};
ghost use Rattle.std.specs.IoError.{error_kind};
ghost use Rattle.std.specs.Io.BufRead.{take_through, drop_through};
ghost use Rattle.console.specs.Lines.{first_line, held, held_lines, IsHeld, IfKnown, AnswersEach, StopsByAnswer, BreaksOff};

use crate::drive::Stop;
use std::io;
use std::io::{BufRead, ErrorKind};

// One byte more than a statement may have: more of a line need not be held to refuse it.
pub const HELD: usize = 4097;

// Takes the line's next part from what was read; how many bytes that were, and whether the line has ended.
// kept: (d) a number and a flag: both are there in each case
fn take_part(part: &[u8], line: &mut Vec<u8>) -> io::Result<(usize, bool)>
    ensures text { OnOk result (line.new.items
        ≡ line.old.items ++ take (HELD - vec_len line.old) (first_line part.now)) }
    ensures taken { IfOk result (λ r. r.0 ≡ length (take_through 10 part.now)) }
    ensures ended { IfOk result (λ r. IsTrue r.1 ↔ Contains part.now 10) }
    ensures err { OnErr result (line.new.items ≡ line.old.items) }
    ensures kind { IfErr result (λ e. error_kind e ≡ ErrorKind.OutOfMemory) }
{
    let end = part.iter().position(|byte| *byte == b'\n');
    let text = &part[..end.unwrap_or(part.len())];
    let room = HELD.saturating_sub(line.len());
    line.extend_from_slice(&text[..room.min(text.len())])?;
    match end {
        Some(at) => Ok((at + 1, true)),
        None => Ok((part.len(), false)),
    }
}

// Reads the next line, without its line feed, and no more of it than is held; false at the end of the input.
// kept: (d) whether there was a line: it stands in what the caller lends, so that an Option would hold nothing
pub fn read_line<R: BufRead>(input: &mut R, line: &mut Vec<u8>) -> io::Result<bool>
    ensures short { IsHeld line.new.items }
    ensures none { IfOk result (λ any. ¬ IsTrue any → line.new.items ≡ []) }

    // Where the input's bytes are known.
    ensures any { IfOk result (λ any. IfKnown (R.remaining input.old)
        (λ bytes. IsTrue any ↔ (0 < length bytes))) }
    ensures text { OnOk result (IfKnown (R.remaining input.old)
        (λ bytes. line.new.items ≡ held (first_line bytes))) }
    ensures rest { OnOk result (IfKnown (R.remaining input.old)
        (λ bytes. R.remaining input.new ≡ Some (drop_through 10 bytes))) }
{
    line.clear();
    let mut any = false;
    // kept: (d) a count that is not reached: the form that the toolchain has for a loop on input, whose end is in no number that falls
    for _ in 0..u64::MAX {
        let part = input.fill_buf()?;
        if part.is_empty() {
            return Ok(any);
        }
        any = true;
        let (taken, ended) = take_part(part, line)?;
        input.consume(taken);
        if ended {
            return Ok(true);
        }
    }
    Ok(any)
}

// Answers each line that is left, one after the other.
pub fn for_each_line<R: BufRead, F: FnMut(&[u8]) -> Result<(), Stop>>(
    input: &mut R,
    line: &mut Vec<u8>,
    mut answer: F,
) -> Result<(), Stop>
    requires { F.IsAlwaysCallable answer }

    ensures short { OnOk result ((texts : List (List ℕ)) × (last : F)
        × AnswersEach F.FnMut answer texts last × All IsHeld texts) }
    ensures err { IfErr result (λ stop.
        StopsByAnswer F.FnMut answer (R.remaining input.old) (R.remaining input.new) stop
        ⊎ BreaksOff F.FnMut answer (R.remaining input.old) stop) }

    // Where the input's bytes are known.
    ensures lines { OnOk result (IfKnown (R.remaining input.old)
        (λ bytes. (last : F) × AnswersEach F.FnMut answer (held_lines bytes) last)) }
    ensures end { OnOk result (IfKnown (R.remaining input.old)
        (λ _. R.remaining input.new ≡ Some [])) }
{
    // kept: (d) a count that is not reached: the form that the toolchain has for a loop on input, whose end is in no number that falls
    for _ in 0..u64::MAX {
        if !read_line(input, line).map_err(Stop::Failed)? {
            return Ok(());
        }
        answer(line.as_slice())?;
    }
    Ok(())
}
