// A session's record, which its host keeps, lent and changed in place: by a step, and by setting one register. Between two steps the host opens the monitor, or tells what another has stored, by value.
#![tactic(auto)]

mod watch;

ghost use Rattle.std.specs.Prelude.{◌≡◌};
ghost use Rattle.vectors.specs.File.{with_vector};
ghost use Rattle.machine.specs.Machine.{opened};
ghost use Rattle.session.specs.Lent.{with_register, lent_outcome, lent_step, reply_of};
ghost use Rattle.session.specs.Vector.{vector_at};
ghost use Rattle.session.specs.Watch.{observed};

use instruction::Answer;
use machine::{Reach, Shown, State, Window};
use vectors::Halves;

// What a step says beside the record that it leaves, the answer by its number; the status is 0 but for a store-exclusive
// that fails.
#[repr(C)]
#[derive(Clone, Copy)]
pub struct StepReply {
    pub answer: u64,
    pub code: u64,
    pub address: u64,
    pub status: u64,
}

#[repr(C)]
#[derive(Drop)]
pub struct VectorRegister {
    pub low: u64,
    pub high: u64,
    pub taint_low: u64,
    pub taint_high: u64,
}

// Vector registers aren't copied: only a step that fills some changes them.
pub fn milestarling_step(
    word: u32,
    state: &mut State,
    vectors: &mut [[u64; 2]; 32],
    vector_taint: &mut [[u64; 2]; 32],
    origin: u64,
    readonly: u64,
    memory: &mut [u8],
    taint: &mut [u8],
) -> StepReply
    ensures { lent_outcome state.new result vectors.new vector_taint.new memory.new taint.new ≡ lent_step (record { origin = origin; readonly = readonly }) word state.old vectors.old vector_taint.old memory.old taint.old }
{
    arm::real(*state, *vectors, *vector_taint, memory, taint);
    match machine::decide(
        word,
        state.pc,
        state.monitor,
        Window { origin, readonly },
        Reach::Alone,
        &state.registers.value,
        &state.registers.taint,
        vectors,
        vector_taint,
        memory,
        taint,
    ) {
        Err(refusal) => reply(refusal.answer, machine::no_code(refusal.address)),
        Ok(effect) => reply(Answer::Done, effect.settle(state, vectors, vector_taint)),
    }
}

fn reply(answer: Answer, shown: Shown) -> StepReply
    ensures { result ≡ reply_of answer shown }
{
    StepReply {
        answer: instruction::answer_number(answer) as u64,
        code: shown.code,
        address: shown.address,
        status: shown.status as u64,
    }
}

#[tactic(auto, unfolding(crate::specs::Lent::with_register))]
pub fn milestarling_set_register(state: &mut State, n: u32, value: u64, marks: u64)
    ensures { state.new ≡ with_register n value marks state.old }
{
    state.registers = state.registers.set(n, value, marks);
}

// A vector register and its taints, which a host reads and sets by the register's number; one above 31 reads 0, untainted,
// and sets nothing.
pub fn milestarling_vector(
    n: u32,
    vectors: &[[u64; 2]; 32],
    vector_taint: &[[u64; 2]; 32],
) -> VectorRegister
    ensures { result ≡ vector_at vectors.now vector_taint.now n }
{
    let value = vectors::halves_in(vectors, n);
    let taint = vectors::halves_in(vector_taint, n);
    VectorRegister {
        low: value.low,
        high: value.high,
        taint_low: taint.low,
        taint_high: taint.high,
    }
}

pub fn milestarling_set_vector(
    vectors: &mut [[u64; 2]; 32],
    vector_taint: &mut [[u64; 2]; 32],
    n: u32,
    low: u64,
    high: u64,
    taint_low: u64,
    taint_high: u64,
)
    ensures { (vectors.new ≡ with_vector vectors.old n (record { low = low; high = high })) × (vector_taint.new ≡ with_vector vector_taint.old n (record { low = taint_low; high = taint_high })) }
{
    vectors::put(vectors, n, Halves { low, high });
    vectors::put(
        vector_taint,
        n,
        Halves {
            low: taint_low,
            high: taint_high,
        },
    );
}

// The record with its monitor open.
pub fn milestarling_opened(state: State) -> State
    ensures { result ≡ opened state }
{
    machine::open(state)
}

// The record after a step of another that showed this code, address and status: the monitor is open where that step has
// stored a byte that it watches.
pub fn milestarling_observed(state: State, code: u64, address: u64, status: u64) -> State
    ensures { result ≡ observed code address status state }
{
    if watch::stores_watched(state.monitor, code, address, status) {
        machine::open(state)
    } else {
        state
    }
}
