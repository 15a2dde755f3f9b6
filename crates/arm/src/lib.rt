// Arm's pages as definitions, and the theorems that every step and every run does what they say: in specs/ and proofs/.
// The code adds nothing to the machine's: its contracts say the theorems of whatever code can be handed.
#![tactic(auto)]

ghost use Rattle.std.specs.Prelude.{◌≡◌, ℕ, ◌<◌, ◌^◌, get_or};
ghost use Rattle.machine.specs.Machine.{machine_of};
ghost use Rattle.machine.specs.Real.{Real};
ghost use Rattle.machine.specs.Step.{outcome, leaves};
ghost use Rattle.execution.specs.Walk.{log, run_of};
ghost use Rattle.execution.specs.Run.{result_of};
ghost use Rattle.arm.specs.Choices.{bad_start, arm_step};

use execution::Ran;
use machine::{State, Stepped, Window};

// The machine's step, with a contract in Arm's terms.
pub fn step(
    word: u32,
    state: State,
    vectors: [[u64; 2]; 32],
    vector_taint: [[u64; 2]; 32],
    window: Window,
    memory: &mut [u8],
    taint: &mut [u8],
) -> Stepped
    ensures { outcome result vectors vector_taint memory.new taint.new ≡ leaves (arm_step window word) (machine_of state vectors vector_taint memory.old taint.old) }
{
    real(state, vectors, vector_taint, memory, taint);
    machine::step(word, state, vectors, vector_taint, window, memory, taint)
}

// The run, with a contract in Arm's terms.
pub fn run(
    words: &[u32],
    state: State,
    vectors: &mut [[u64; 2]; 32],
    vector_taint: &mut [[u64; 2]; 32],
    window: Window,
    memory: &mut [u8],
    taint: &mut [u8],
    trace: &mut [u64],
    statuses: &mut [u8],
) -> Ran
    ensures { result_of result vectors.new vector_taint.new memory.new taint.new trace.new statuses.new ≡ run_of (bad_start window) (arm_step window) words.now (machine_of state vectors.old vector_taint.old memory.old taint.old) (log trace.old statuses.old) }
{
    real(state, *vectors, *vector_taint, memory, taint);
    execution::run(
        words,
        state,
        vectors,
        vector_taint,
        window,
        memory,
        taint,
        trace,
        statuses,
    )
}

// The theorems are of machines that are `Real`. This says that whatever a step or a run can be handed is one: its types
// hold no other.
pub fn real(
    state: State,
    vectors: [[u64; 2]; 32],
    vector_taint: [[u64; 2]; 32],
    memory: &[u8],
    taint: &[u8],
)
    ensures { Real (machine_of state vectors vector_taint memory.now taint.now) }
{
    let file = state.registers;
    let value = file.value;
    let marks = file.taint;
    values(&value);
    values(&marks);
    vectors::held(vectors);
    vectors::held(vector_taint);
    bytes(memory);
}

fn values(v: &[u64])
    ensures { (n : ℕ) → get_or v.now n 0 < 2 ^ 64 }
{
    nothing();
}

fn bytes(b: &[u8])
    ensures { (n : ℕ) → get_or b.now n 0 < 256 }
{
    nothing();
}

// What is known of a slice's elements is known where a function is called.
fn nothing() {}
