// Rescue of damaged listings, line by line: a line is kept, restored from its text, or dropped.
#![tactic(auto)]

mod line;
mod put;

ghost use Rattle.std.specs.Prelude.{◌≡◌, ◌+◌, ◌≤◌, min, eqb, length, filter};
ghost use Rattle.instruction.specs.Answers.{answer_number};
ghost use Rattle.rescue.specs.Lines.{lines_of};
ghost use Rattle.rescue.specs.Rescue.{outcome, RescueOf};
ghost use Rattle.rescue.specs.route.Steps.{FitsAs, PutAs};

use instruction::Answer;

// The most bytes that a line gains. Of a restored one these are its word, its answer and its newline: its text and two tabs
// stood there.
const GAIN_MAX: usize = 10;

// The most bytes of a line of the report: twenty digits, a tab, a word of eight letters, and a newline.
const ROW_MAX: usize = 30;

// What becomes of a line, and the word whose line is put out.
#[derive(Clone, Copy)]
pub enum Fate {
    Kept(u32),
    Restored(u32),
    Dropped,
}

// The answer's number, and the lengths of what is put out and of the report. They are 0 where the answer is not.
#[repr(C)]
#[derive(Drop)]
pub struct Reply {
    pub answer: u64,
    pub length: u64,
    pub report_length: u64,
}

// Puts the lines that are kept and restored at the start of the output, and a line for each line of the input at the
// start of the report. Where either has no room, both are unchanged.
pub fn milestarling_rescue(input: &[u8], output: &mut [u8], report: &mut [u8]) -> Reply
    ensures { RescueOf input.now output.old report.old (outcome result output.new report.new) }
{
    if !fits(input, output.len(), report.len()) {
        return replied(Answer::NoRoom, 0, 0);
    }
    let ends = put_both(input, output, report);
    replied(Answer::Done, ends.output, ends.report)
}

fn replied(answer: Answer, length: usize, rows: usize) -> Reply
    ensures { result ≡ record { answer = answer_number answer; length = length; report_length = rows } }
{
    Reply {
        answer: u64::from(answer),
        length: length as u64,
        report_length: rows as u64,
    }
}

// Whether both texts have room. Rooms that suffice for any input of so many bytes and lines are told by counting.
fn fits(input: &[u8], room: usize, space: usize) -> bool
    ensures { FitsAs input.now room space result }
{
    let lines = count(input);
    if input.len() <= room && lines <= (room - input.len()) / GAIN_MAX && lines <= space / ROW_MAX {
        true
    } else {
        measured(input, room, space)
    }
}

// The last byte is of the last line, whatever it is; each newline before it ends another.
fn count(input: &[u8]) -> usize
    ensures { result ≡ length (lines_of input.now) }
{
    match input {
        [] => 0,
        [before @ .., _] => newlines(before) + 1,
    }
}

fn newlines(bytes: &[u8]) -> usize
    ensures { result ≡ length (filter (λ byte. eqb byte 10) bytes.now) }
{
    let mut lines = 0;
    for byte in bytes {
        lines += usize::from(*byte == b'\n');
    }
    lines
}

// Takes each line from what is left of the rooms. By an index: a step is as long as the line that stands there.
fn measured(input: &[u8], room: usize, space: usize) -> bool
    ensures { FitsAs input.now room space result }
{
    let mut left = room;
    let mut report_left = space;
    let mut at = 0;
    let mut number = 0u64;
    while at < input.len() {
        let line = line::line_at(input, at);
        let end = line.end;
        let fate = line.fate;
        let n = put::out_length(fate, end - at);
        if left < n {
            return false;
        }
        let m = put::row_length(number + 1, fate);
        if report_left < m {
            return false;
        }
        left -= n;
        report_left -= m;
        number += 1;
        at = behind(end, input.len());
    }
    true
}

// Where the next line begins: behind a newline, or at the end.
fn behind(end: usize, length: usize) -> usize
    requires { end ≤ length }
    ensures { result ≡ min (end + 1) length }
{
    if end < length { end + 1 } else { end }
}

// The ends of both texts, by name, so that neither is taken for the other.
#[derive(Drop)]
struct Ends {
    output: usize,
    report: usize,
}

// By an index, as `measured` goes.
fn put_both(input: &[u8], output: &mut [u8], report: &mut [u8]) -> Ends
    ensures { PutAs input.now output.old report.old output.new report.new result.output result.report }
{
    let mut next = 0;
    let mut row = 0;
    let mut at = 0;
    let mut number = 0u64;
    while at < input.len() {
        let line = line::line_at(input, at);
        let end = line.end;
        let fate = line.fate;
        next = put::put_out(output, next, &input[at..end], fate);
        row = put::put_row(report, row, number + 1, fate);
        number += 1;
        at = behind(end, input.len());
    }
    Ends {
        output: next,
        report: row,
    }
}
