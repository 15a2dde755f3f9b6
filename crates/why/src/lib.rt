// Why a byte of a register, of a vector register or of memory is tainted: by the byte that it was copied from, each time at an
// earlier step, back to the start.
#![tactic(auto)]

mod follow;
mod history;
mod marks;
mod refusal;
mod source;
mod trace;

ghost use Rattle.std.specs.Prelude.{◌≡◌};
ghost use Rattle.instruction.specs.Answers.{answer_number};
ghost use Rattle.why.specs.Trail.{lent, trail_of, told};
ghost use Rattle.why.specs.Reply.{said, said_of};
ghost use Rattle.why.specs.route.Came.{spot_place, Asks};
ghost use Rattle.why.specs.route.Lent.{past_in, steps_in};
ghost use Rattle.why.specs.route.Reached.{listed_of};

use follow::follow;
pub use history::History;
use instruction::Answer;
use plan::Window;
use source::Spot;

// Kind 0 is a byte of a register, by the register's number and the byte's; kind 1 a byte of memory, by its address; kind 2 a byte of a
// vector register.
#[repr(C)]
#[derive(Clone, Copy)]
pub struct Question {
    pub kind: u64,
    pub number: u64,
    pub byte: u64,
}

// The answer's number, and how many links there are.
#[repr(C)]
#[derive(Drop)]
pub struct Reply {
    pub answer: u64,
    pub links: u64,
}

// For C: a slice is a pointer and a length, and steps are counted by numbers of 64 bits.
pub fn milestarling_why(
    words: &[u32],
    trace: &[u64],
    statuses: &[u8],
    steps: u64,
    register_taint: &[u64; 32],
    vector_taint: &[[u64; 2]; 32],
    taint: &[u8],
    origin: u64,
    readonly: u64,
    memory_length: u64,
    step: u64,
    kind: u64,
    number: u64,
    byte: u64,
    links: &mut [u64],
) -> Reply
    ensures { said result links.new ≡ said_of (record { origin = origin; readonly = readonly }) memory_length (lent words.now trace.now statuses.now origin register_taint.now vector_taint.now taint.now) steps step (record { kind = kind; number = number; byte = byte }) links.old }
{
    let history = History {
        words,
        trace,
        statuses,
        origin,
        register_taint,
        vector_taint,
        taint,
    };
    let question = Question { kind, number, byte };
    explain(
        &history,
        steps as usize,
        readonly,
        memory_length,
        step as usize,
        question,
        links,
    )
}

// Why a place is tainted just before a step of a run. The links are put into the list from its start, the latest first; where
// the answer is not 0, none is.
pub fn explain(
    history: &History,
    steps: usize,
    readonly: u64,
    len: u64,
    step: usize,
    q: Question,
    links: &mut [u64],
) -> Reply
    ensures { said result links.new ≡ said_of (record { origin = history.now.origin; readonly = readonly }) len (past_in history.now) steps step q links.old }
{
    let origin = history.origin;
    match refusal::first(history, steps, Window { origin, readonly }, len, step, q) {
        Err(answer) => replied(answer, 0),
        Ok(()) => listed(history, step, refusal::spot(q, origin), links),
    }
}

// The links, if there is room for all of them.
fn listed(history: &History, step: usize, spot: Spot, links: &mut [u64]) -> Reply
    requires { Asks (steps_in history.now) step 0 }
    ensures { said result links.new ≡ listed_of history.now.origin (told (trail_of (past_in history.now) step (spot_place spot))) links.old }
{
    let found = follow(history, step, spot, &mut []);
    if links.len() / 3 < found {
        return replied(Answer::NoRoom, 0);
    }
    if found == 0 {
        return replied(Answer::Done, 0);
    }
    let written = follow(history, step, spot, links);
    replied(Answer::Done, written as u64)
}

fn replied(answer: Answer, links: u64) -> Reply
    ensures { result ≡ record { answer = answer_number answer; links = links } }
{
    Reply {
        answer: answer.into(),
        links,
    }
}
