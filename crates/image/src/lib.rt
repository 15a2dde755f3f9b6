// Memory images in Intel HEX: a whole text is read into lent memory, or refused. A first pass over the text finds the first
// fault, and a second writes: so a refused text leaves memory as it was, and nothing of it is kept.
#![tactic(auto)]

mod line;
mod place;
mod text;

ghost use Rattle.std.specs.Prelude.{◌≡◌};
ghost use Rattle.image.specs.Import.{reply, outcome, import_of};

use instruction::Answer;
use plan::Window;

// The answer's number, and the number of the line that is refused, from 1. It is 0 where no line is.
#[repr(C)]
#[derive(Drop)]
pub struct Reply {
    pub answer: u64,
    pub line: u64,
}

// Reads a text into memory, and clears the taint of each byte that it writes. Where it is refused nothing is changed.
pub fn milestarling_import(
    text: &[u8],
    origin: u64,
    readonly: u64,
    memory: &mut [u8],
    taint: &mut [u8],
) -> Reply
    ensures { outcome result memory.new taint.new ≡ import_of (record { origin = origin; readonly = readonly }) text.now memory.old taint.old }
{
    let window = Window { origin, readonly };
    match text::check(text, window, memory.len() as u64, taint.len() as u64) {
        Ok(()) => {
            text::fill(text, origin, memory, taint);
            replied(Answer::Done, 0)
        }
        Err(fault) => replied(fault.answer, fault.line),
    }
}

fn replied(answer: Answer, line: u64) -> Reply
    ensures { result ≡ reply answer line }
{
    Reply {
        answer: answer.into(),
        line,
    }
}
