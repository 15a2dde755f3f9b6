// What is put out for a line, and its line in the report.
ghost use Rattle.std.specs.Prelude.{◌≡◌, [], ◌∷◌, ◌++◌, length};
ghost use Rattle.ascii.specs.route.Puts.{Puts};
ghost use Rattle.rescue.specs.Rescue.{FateOf, line_out, fate_name, report_line};
ghost use Rattle.rescue.specs.route.Steps.{LongAs};

use crate::{Fate, ROW_MAX};

// A line that is kept is copied.
pub fn put_out(output: &mut [u8], at: usize, line: &[u8], fate: Fate) -> usize
    requires { FateOf line.now fate }
    ensures { Puts output.old at (line_out fate) output.new result }
{
    match fate {
        Fate::Kept(_) => put_ended(output, at, line),
        Fate::Restored(w) => listing::put_line(output, at, w),
        Fate::Dropped => at,
    }
}

// A line, and a newline.
fn put_ended(output: &mut [u8], at: usize, line: &[u8]) -> usize
    ensures { Puts output.old at (line.now ++ (10 ∷ [])) output.new result }
{
    let end = put_copy(output, at, line);
    ascii::put_byte(output, end, b'\n')
}

// Eight bytes at a time, and then those left over. Not by `put_text`: a copy between two texts that are both lent is a call of
// C's `memmove`, and the archive for C needs no more than `memcpy` and `memset`.
fn put_copy(output: &mut [u8], at: usize, line: &[u8]) -> usize
    ensures { Puts output.old at line.now output.new result }
{
    let (eights, rest) = line.as_chunks::<8>();
    let mut next = at;
    for eight in eights {
        next = ascii::put_bytes(output, next, *eight);
    }
    for byte in rest {
        next = ascii::put_byte(output, next, *byte);
    }
    next
}

pub fn put_row(report: &mut [u8], at: usize, number: u64, fate: Fate) -> usize
    ensures { Puts report.old at (report_line number fate ++ (10 ∷ [])) report.new result }
{
    let tab = ascii::put_decimal(report, at, number);
    let name = ascii::put_byte(report, tab, b'\t');
    let end = put_name(report, name, fate);
    ascii::put_byte(report, end, b'\n')
}

fn put_name(report: &mut [u8], at: usize, fate: Fate) -> usize
    ensures { Puts report.old at (fate_name fate) report.new result }
{
    match fate {
        Fate::Kept(_) => ascii::put_text(report, at, b"kept"),
        Fate::Restored(_) => ascii::put_text(report, at, b"restored"),
        Fate::Dropped => ascii::put_text(report, at, b"dropped"),
    }
}

// A line that is kept is as long as it was, and its newline.
pub fn out_length(fate: Fate, body: usize) -> usize
    requires { LongAs body fate }
    ensures { result ≡ length (line_out fate) }
{
    match fate {
        Fate::Kept(_) => body + 1,
        Fate::Restored(w) => listing::line_length(w),
        Fate::Dropped => 0,
    }
}

pub fn row_length(number: u64, fate: Fate) -> usize
    ensures { result ≡ length (report_line number fate ++ (10 ∷ [])) }
{
    let mut row = [0u8; ROW_MAX];
    put_row(&mut row, 0, number, fate)
}
