// The machine, the text, the reader and the listing for a host in another language. Only numbers, structs of numbers and
// lent slices cross: an answer as its number, and a session's record as it is. Parameters come one by one, as C has them.
#![tactic(auto)]

ghost use Rattle.std.specs.Prelude.{◌≡◌, ℕ, List};
ghost use Rattle.machine.specs.Machine.{machine_of};
ghost use Rattle.execution.specs.Walk.{log};
ghost use Rattle.printer.specs.Writing.{write_of, outcome};
ghost use Rattle.listing.specs.Listing.{list_of};
ghost use Rattle.stream.specs.Streams.{push, close, call_of, outcome as lister_told};
ghost use Rattle.host.specs.Replies.{text_outcome, numbered, ReadAs, lister_outcome, lister_numbered};
ghost use Rattle.host.specs.Hosting.{hosted, host_run, run_reply};

use execution::Ran;
use instruction::Answer;
use machine::State;
use plan::Window;
use stream::Lister;

// What a run returns beside what it leaves in the slices: the record after the steps done, how many they are, and the
// answer, code and address of the last step tried.
#[repr(C)]
#[derive(Clone, Copy)]
pub struct RunReply {
    pub session: State,
    pub steps: u64,
    pub answer: u64,
    pub code: u64,
    pub address: u64,
}

impl From<Ran> for RunReply {
    ghost from_gives = { λ ran reply. reply ≡ run_reply ran };

    fn from(ran: Ran) -> RunReply {
        RunReply {
            session: ran.state,
            steps: ran.steps as u64,
            answer: ran.answer.into(),
            code: ran.shown.code,
            address: ran.shown.address,
        }
    }
}

// The length is 0 where the answer is not.
#[repr(C)]
#[derive(Drop)]
pub struct TextReply {
    pub answer: u64,
    pub length: u64,
}

// The word is 0 where the answer is not.
#[repr(C)]
#[derive(Drop)]
pub struct WordReply {
    pub answer: u64,
    pub word: u64,
}

// The length is 0 where the answer is not, and the lister is then the one handed in.
#[repr(C)]
#[derive(Drop)]
pub struct ListerReply {
    pub lister: Lister,
    pub answer: u64,
    pub length: u64,
}

// A run from a session's record, which is handed in by value and comes back in the reply, and from its vector registers and
// their taints, which are lent. Where the run is not begun, nothing is changed.
pub fn milestarling_run(
    words: &[u32],
    session: State,
    vectors: &mut [[u64; 2]; 32],
    vector_taint: &mut [[u64; 2]; 32],
    origin: u64,
    readonly: u64,
    memory: &mut [u8],
    taint: &mut [u8],
    trace: &mut [u64],
    statuses: &mut [u8],
) -> RunReply
    ensures { hosted result vectors.new vector_taint.new memory.new taint.new trace.new statuses.new
        ≡ host_run (record { origin = origin; readonly = readonly }) words.now (machine_of session vectors.old vector_taint.old memory.old taint.old) (log trace.old statuses.old) }
{
    let ran = arm::run(
        words,
        session,
        vectors,
        vector_taint,
        Window { origin, readonly },
        memory,
        taint,
        trace,
        statuses,
    );
    RunReply::from(ran)
}

// The text of a word, at the start of a buffer.
pub fn milestarling_text(word: u32, buffer: &mut [u8]) -> TextReply
    ensures { text_outcome result buffer.new ≡ numbered (write_of word buffer.old) }
{
    text_reply(printer::write(word, buffer))
}

// The word whose line a text is.
pub fn milestarling_word(text: &[u8]) -> WordReply
    ensures { ReadAs text.now result }
{
    match reader::read(text) {
        Ok(word) => WordReply {
            answer: 0,
            word: word.into(),
        },
        Err(answer) => WordReply {
            answer: answer.into(),
            word: 0,
        },
    }
}

// The listing of bytes, at the start of an output.
pub fn milestarling_list(bytes: &[u8], output: &mut [u8]) -> TextReply
    ensures { text_outcome result output.new ≡ numbered (list_of bytes.now output.old) }
{
    text_reply(listing::list(bytes, output))
}

// The lines of the words that are whole with one more fragment of a stream, at the start of an output.
pub fn milestarling_lister_push(lister: Lister, fragment: &[u8], output: &mut [u8]) -> ListerReply
    ensures { lister_outcome result output.new ≡ lister_numbered (call_of lister (push fragment.now output.old)) }
{
    let mut next = lister;
    let pushed = next.push(fragment, output);
    lister_reply(next, pushed)
}

// The line of the bytes over at the end of a stream, at the start of an output.
pub fn milestarling_lister_close(lister: Lister, output: &mut [u8]) -> ListerReply
    ensures { lister_outcome result output.new ≡ lister_numbered (call_of lister (close output.old)) }
{
    let mut next = lister;
    let closed = next.close(output);
    lister_reply(next, closed)
}

// A length, or why there is none, as it crosses.
fn text_reply(returned: Result<usize, Answer>) -> TextReply
    ensures { (buffer : List ℕ) → text_outcome result buffer ≡ numbered (outcome returned buffer) }
{
    match returned {
        Ok(length) => TextReply {
            answer: 0,
            length: length as u64,
        },
        Err(answer) => TextReply {
            answer: answer.into(),
            length: 0,
        },
    }
}

fn lister_reply(lister: Lister, returned: Result<usize, Answer>) -> ListerReply
    ensures { (output : List ℕ) → lister_outcome result output ≡ lister_numbered (lister_told lister returned output) }
{
    let reply = text_reply(returned);
    ListerReply {
        lister,
        answer: reply.answer,
        length: reply.length,
    }
}
