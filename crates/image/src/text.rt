// A whole text, line by line: a pass that finds the first fault, and one that writes.
ghost use Rattle.std.specs.Prelude.{◌≡◌, true, false, length};
ghost use Rattle.image.specs.Lines.{lines_of};
ghost use Rattle.image.specs.Records.{places_of};
ghost use Rattle.image.specs.Import.{checked, reply_of, is_done, puts, clears};
ghost use Rattle.image.specs.route.Rest.{Replies};

use crate::line::{behind, byte_in, fault, upper_after};
use crate::place::{Span, fill_line};
use instruction::Answer;
use plan::Window;

// Why a text is refused, and the number of the line at fault, from 1. It is 0 where no line is.
#[derive(Drop)]
pub struct Fault {
    pub answer: Answer,
    pub line: u64,
}

#[tactic(auto, unfolding(crate::specs::Import::reply_of))]
pub fn check(text: &[u8], window: Window, len: u64, taints: u64) -> Result<(), Fault>
    ensures { Replies result (reply_of window len taints text.now) }
{
    if plan::is_bad(window, len, taints, 0) {
        return Err(Fault {
            answer: Answer::BadWindow,
            line: 0,
        });
    }
    let origin = window.origin;
    check_lines(text, Span { origin, len })
}

fn check_lines(text: &[u8], span: Span) -> Result<(), Fault>
    ensures { Replies result (checked span.origin span.len 1 false 0 (lines_of text.now)) }
{
    let mut rest = text;
    let mut line: u64 = 1;
    let mut ended = false;
    let mut upper = 0;
    while !rest.is_empty() {
        if let Err(answer) = fault(rest, ended, upper, span) {
            return Err(Fault { answer, line });
        }
        ended = byte_in(rest, 3) == 1;
        upper = upper_after(rest, upper);
        rest = behind(rest);
        line += 1;
    }
    // A missing end is a line more.
    if !ended {
        return Err(Fault {
            answer: Answer::Malformed,
            line,
        });
    }
    Ok(())
}

// Writes what a text without a fault says.
pub fn fill(text: &[u8], origin: u64, memory: &mut [u8], taint: &mut [u8])
    requires { is_done (checked origin (length memory.old) 1 false 0 (lines_of text.now)) ≡ true }
    ensures { (memory.new ≡ puts origin (places_of 0 (lines_of text.now)) memory.old) × (taint.new ≡ clears origin (places_of 0 (lines_of text.now)) taint.old) }
{
    let mut rest = text;
    let mut upper = 0;
    while !rest.is_empty() {
        fill_line(rest, upper, origin, memory, taint);
        upper = upper_after(rest, upper);
        rest = behind(rest);
    }
}
