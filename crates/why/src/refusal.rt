// The refusals of a question, in their order: 1, 7, 11, 17 and 18; and the byte that is followed where there are none.
ghost use Rattle.std.specs.Prelude.{◌≡◌, false};
ghost use Rattle.plan.specs.Refusals.{verdict_in};
ghost use Rattle.why.specs.Reply.{no_byte, no_part, no_register, place_of, early_refusals};
ghost use Rattle.why.specs.route.Came.{spot_place};
ghost use Rattle.why.specs.route.Lent.{past_in};

use crate::history::History;
use crate::source::Spot;
use crate::{Question, trace};
use instruction::Answer;
use plan::Window;

// The first of them that holds. The taints of registers are not looked at.
pub fn first(
    history: &History,
    steps: usize,
    window: Window,
    len: u64,
    step: usize,
    q: Question,
) -> Result<(), Answer>
    ensures { result ≡ verdict_in (early_refusals window len (past_in history.now) steps step q) }
{
    if plan::is_bad(window, len, history.taint.len() as u64, 0) {
        return Err(Answer::BadWindow);
    }
    if is_no_byte(q, window, len) {
        return Err(Answer::OutOfWindow);
    }
    if is_no_register(q) {
        return Err(Answer::NoSuchInstruction);
    }
    if trace::is_wrong_trace(history, steps, window, len) {
        return Err(Answer::BadTrace);
    }
    if steps < step {
        return Err(Answer::AfterEnd);
    }
    Ok(())
}

// Answer 7, of a byte of memory.
fn is_no_byte(q: Question, window: Window, len: u64) -> bool
    ensures { result ≡ no_byte window len q }
{
    q.kind == 1 && plan::is_outside(1, q.number, window.origin, len)
}

// Answer 11: no register, no byte of it, or no kind of place.
fn is_no_register(q: Question) -> bool
    ensures { result ≡ no_register q }
{
    match q.kind {
        0 => is_no_part(q, 7),
        1 => false,
        2 => is_no_part(q, 15),
        _ => true,
    }
}

fn is_no_part(q: Question, last: u64) -> bool
    ensures { result ≡ no_part last q }
{
    31 < q.number || last < q.byte
}

// The byte of a question that is not refused. The kinds are numbers, as C has them.
pub fn spot(q: Question, origin: u64) -> Spot
    requires { no_register q ≡ false }
    ensures { spot_place result ≡ place_of origin q }
{
    match q.kind {
        0 => Spot::Part(16 * q.number + q.byte),
        1 => Spot::Cell(q.number.saturating_sub(origin)),
        _ => Spot::Part(16 * (32 + q.number) + q.byte),
    }
}
