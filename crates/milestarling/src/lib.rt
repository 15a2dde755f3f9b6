// The library for C and for hosts in other languages, built as a static library. It exports what the libraries below it
// have for such hosts, each function under its own name and with its own clauses, and does nothing more. Only numbers,
// structs of numbers and lent slices cross.
#![tactic(auto)]

ghost use Rattle.std.specs.Prelude.{◌≡◌};
ghost use Rattle.vectors.specs.File.{with_vector};
ghost use Rattle.machine.specs.Machine.{machine_of, opened};
ghost use Rattle.execution.specs.Walk.{log};
ghost use Rattle.arm.specs.Choices.{arm_turn};
ghost use Rattle.plain.specs.Coding.{decode_plain};
ghost use Rattle.records.specs.Replies.{class_number, touches_number, decode_numbered, EncodedAs};
ghost use Rattle.printer.specs.Writing.{write_of};
ghost use Rattle.listing.specs.Listing.{list_of};
ghost use Rattle.stream.specs.Streams.{push, close, call_of};
ghost use Rattle.host.specs.Replies.{text_outcome, numbered, ReadAs, lister_outcome, lister_numbered};
ghost use Rattle.host.specs.Hosting.{hosted, host_run, hosted_of};
ghost use Rattle.session.specs.Lent.{with_register, lent_outcome, lent_step};
ghost use Rattle.session.specs.Vector.{vector_at};
ghost use Rattle.session.specs.Watch.{observed};
ghost use Rattle.why.specs.Trail.{lent};
ghost use Rattle.why.specs.Reply.{said, said_of};
ghost use Rattle.image.specs.Import.{outcome as import_outcome, import_of};
ghost use Rattle.rescue.specs.Rescue.{outcome as rescue_outcome, RescueOf};

use host::{ListerReply, RunReply, TextReply, WordReply};
use machine::State;
use plain::Plain;
use plan::Ranges;
use records::{EncodedReply, PlainReply};
use session::{StepReply, VectorRegister};
use stream::Lister;

// A run from a session's record, which is handed in by value and comes back in the reply, and from its vector registers and
// their taints, which are lent. Where the run is not begun, nothing is changed.
#[unsafe(no_mangle)]
pub extern "C" fn milestarling_run(
    words: &[u32],
    session: State,
    vectors: &mut [[u64; 2]; 32],
    vector_taint: &mut [[u64; 2]; 32],
    origin: u64,
    readonly: u64,
    memory: &mut [u8],
    taint: &mut [u8],
    trace: &mut [u64],
    statuses: &mut [u8],
) -> RunReply
    ensures { hosted result vectors.new vector_taint.new memory.new taint.new trace.new statuses.new
        ≡ host_run (record { origin = origin; readonly = readonly }) words.now (machine_of session vectors.old vector_taint.old memory.old taint.old) (log trace.old statuses.old) }
{
    host::milestarling_run(
        words,
        session,
        vectors,
        vector_taint,
        origin,
        readonly,
        memory,
        taint,
        trace,
        statuses,
    )
}

// The text of a word, at the start of a buffer.
#[unsafe(no_mangle)]
pub extern "C" fn milestarling_text(word: u32, buffer: &mut [u8]) -> TextReply
    ensures { text_outcome result buffer.new ≡ numbered (write_of word buffer.old) }
{
    host::milestarling_text(word, buffer)
}

// The word whose line a text is.
#[unsafe(no_mangle)]
pub extern "C" fn milestarling_word(text: &[u8]) -> WordReply
    ensures { ReadAs text.now result }
{
    host::milestarling_word(text)
}

// The listing of bytes, at the start of an output.
#[unsafe(no_mangle)]
pub extern "C" fn milestarling_list(bytes: &[u8], output: &mut [u8]) -> TextReply
    ensures { text_outcome result output.new ≡ numbered (list_of bytes.now output.old) }
{
    host::milestarling_list(bytes, output)
}

// The lines of the words that are whole with one more fragment of a stream, at the start of an output.
#[unsafe(no_mangle)]
pub extern "C" fn milestarling_lister_push(
    lister: Lister,
    fragment: &[u8],
    output: &mut [u8],
) -> ListerReply
    ensures { lister_outcome result output.new ≡ lister_numbered (call_of lister (push fragment.now output.old)) }
{
    host::milestarling_lister_push(lister, fragment, output)
}

// The line of the bytes over at the end of a stream, at the start of an output.
#[unsafe(no_mangle)]
pub extern "C" fn milestarling_lister_close(lister: Lister, output: &mut [u8]) -> ListerReply
    ensures { lister_outcome result output.new ≡ lister_numbered (call_of lister (close output.old)) }
{
    host::milestarling_lister_close(lister, output)
}

#[unsafe(no_mangle)]
pub extern "C" fn milestarling_step(
    word: u32,
    state: &mut State,
    vectors: &mut [[u64; 2]; 32],
    vector_taint: &mut [[u64; 2]; 32],
    origin: u64,
    readonly: u64,
    memory: &mut [u8],
    taint: &mut [u8],
) -> StepReply
    ensures { lent_outcome state.new result vectors.new vector_taint.new memory.new taint.new ≡ lent_step (record { origin = origin; readonly = readonly }) word state.old vectors.old vector_taint.old memory.old taint.old }
{
    session::milestarling_step(
        word,
        state,
        vectors,
        vector_taint,
        origin,
        readonly,
        memory,
        taint,
    )
}

#[unsafe(no_mangle)]
pub extern "C" fn milestarling_set_register(state: &mut State, n: u32, value: u64, marks: u64)
    ensures { state.new ≡ with_register n value marks state.old }
{
    session::milestarling_set_register(state, n, value, marks);
}

// A vector register and its taints, which a host reads and sets by the register's number; one above 31 reads 0, untainted,
// and sets nothing.
#[unsafe(no_mangle)]
pub extern "C" fn milestarling_vector(
    n: u32,
    vectors: &[[u64; 2]; 32],
    vector_taint: &[[u64; 2]; 32],
) -> VectorRegister
    ensures { result ≡ vector_at vectors.now vector_taint.now n }
{
    session::milestarling_vector(n, vectors, vector_taint)
}

#[unsafe(no_mangle)]
pub extern "C" fn milestarling_set_vector(
    vectors: &mut [[u64; 2]; 32],
    vector_taint: &mut [[u64; 2]; 32],
    n: u32,
    low: u64,
    high: u64,
    taint_low: u64,
    taint_high: u64,
)
    ensures { (vectors.new ≡ with_vector vectors.old n (record { low = low; high = high })) × (vector_taint.new ≡ with_vector vector_taint.old n (record { low = taint_low; high = taint_high })) }
{
    session::milestarling_set_vector(vectors, vector_taint, n, low, high, taint_low, taint_high);
}

// The record with its monitor open.
#[unsafe(no_mangle)]
pub extern "C" fn milestarling_opened(state: State) -> State
    ensures { result ≡ opened state }
{
    session::milestarling_opened(state)
}

// The record after a step of another that showed this code, address and status: the monitor is open where that step has
// stored a byte that it watches.
#[unsafe(no_mangle)]
pub extern "C" fn milestarling_observed(state: State, code: u64, address: u64, status: u64) -> State
    ensures { result ≡ observed code address status state }
{
    session::milestarling_observed(state, code, address, status)
}

// One turn of the plugin that the ranges call own: a run from its record, which is handed in by value and comes back in the
// reply, and from its vector registers and their taints, which are lent. Where the turn is not begun, nothing is changed.
#[unsafe(no_mangle)]
pub extern "C" fn milestarling_turn(
    words: &[u32],
    session: State,
    vectors: &mut [[u64; 2]; 32],
    vector_taint: &mut [[u64; 2]; 32],
    origin: u64,
    ranges: Ranges,
    memory: &mut [u8],
    taint: &mut [u8],
    trace: &mut [u64],
    statuses: &mut [u8],
) -> RunReply
    ensures { hosted result vectors.new vector_taint.new memory.new taint.new trace.new statuses.new
        ≡ hosted_of (arm_turn origin ranges words.now (machine_of session vectors.old vector_taint.old memory.old taint.old) (log trace.old statuses.old)) }
{
    turns::milestarling_turn(
        words,
        session,
        vectors,
        vector_taint,
        origin,
        ranges,
        memory,
        taint,
        trace,
        statuses,
    )
}

// For C: a slice is a pointer and a length, and steps are counted by numbers of 64 bits.
#[unsafe(no_mangle)]
pub extern "C" fn milestarling_why(
    words: &[u32],
    trace: &[u64],
    statuses: &[u8],
    steps: u64,
    register_taint: &[u64; 32],
    vector_taint: &[[u64; 2]; 32],
    taint: &[u8],
    origin: u64,
    readonly: u64,
    memory_length: u64,
    step: u64,
    kind: u64,
    number: u64,
    byte: u64,
    links: &mut [u64],
) -> why::Reply
    ensures { said result links.new ≡ said_of (record { origin = origin; readonly = readonly }) memory_length (lent words.now trace.now statuses.now origin register_taint.now vector_taint.now taint.now) steps step (record { kind = kind; number = number; byte = byte }) links.old }
{
    why::milestarling_why(
        words,
        trace,
        statuses,
        steps,
        register_taint,
        vector_taint,
        taint,
        origin,
        readonly,
        memory_length,
        step,
        kind,
        number,
        byte,
        links,
    )
}

// Reads a text into memory, and clears the taint of each byte that it writes. Where it is refused nothing is changed.
#[unsafe(no_mangle)]
pub extern "C" fn milestarling_import(
    text: &[u8],
    origin: u64,
    readonly: u64,
    memory: &mut [u8],
    taint: &mut [u8],
) -> image::Reply
    ensures { import_outcome result memory.new taint.new ≡ import_of (record { origin = origin; readonly = readonly }) text.now memory.old taint.old }
{
    image::milestarling_import(text, origin, readonly, memory, taint)
}

// Puts the lines that are kept and restored at the start of the output, and a line for each line of the input at the
// start of the report. Where either has no room, both are unchanged.
#[unsafe(no_mangle)]
pub extern "C" fn milestarling_rescue(
    input: &[u8],
    output: &mut [u8],
    report: &mut [u8],
) -> rescue::Reply
    ensures { RescueOf input.now output.old report.old (rescue_outcome result output.new report.new) }
{
    rescue::milestarling_rescue(input, output, report)
}

// Answers 2, 3 and 4, which depend on the word alone, or 0.
#[unsafe(no_mangle)]
pub extern "C" fn milestarling_classify(word: u32) -> u64
    ensures { result ≡ class_number word }
{
    records::milestarling_classify(word)
}

// Whether a word touches memory, of the set or not: 1, or 0. One that doesn't is no load or store, and never needs a step.
#[unsafe(no_mangle)]
pub extern "C" fn milestarling_touches_memory(word: u32) -> u64
    ensures { result ≡ touches_number word }
{
    records::milestarling_touches_memory(word)
}

// The numbers of a word's instruction.
#[unsafe(no_mangle)]
pub extern "C" fn milestarling_decode(word: u32) -> PlainReply
    ensures { result ≡ decode_numbered (decode_plain word) }
{
    records::milestarling_decode(word)
}

// The word whose instruction has these numbers.
#[unsafe(no_mangle)]
pub extern "C" fn milestarling_encode(numbers: Plain) -> EncodedReply
    ensures { EncodedAs numbers result }
{
    records::milestarling_encode(numbers)
}
