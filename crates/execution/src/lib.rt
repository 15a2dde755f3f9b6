// A run: a step for each word of a list, up to the first refusal, with a trace of the steps done and their statuses.
#![tactic(auto)]

ghost use Rattle.std.specs.Prelude.{◌≡◌, List, ℕ, ◌+◌, ◌*◌, ◌≤◌, ◌<◌, length, set};
ghost use Rattle.machine.specs.Rule.{word_rule};
ghost use Rattle.machine.specs.Machine.{Machine, machine_of};
ghost use Rattle.machine.specs.Step.{shown, step_in};
ghost use Rattle.execution.specs.Walk.{walk_of, Log, log, glue, too_short, after_steps, run_of};
ghost use Rattle.execution.specs.Run.{machine_run, turn_of, result_of, bad_in, bad_by};
ghost use Rattle.execution.specs.Secrecy.{Same, Filled, SameRoom, ShowsRun};

use instruction::Answer;
use machine::{Shown, State};
use plan::{Ranges, Reach, Window};

// What a run returns, refused or not: how many steps were done, the answer, code and address of the last step tried, and the
// state after the steps done.
#[derive(Drop)]
pub struct Ran {
    pub state: State,
    pub steps: usize,
    pub answer: Answer,
    pub shown: Shown,
}

// The steps, their order and all that they leave are those of the definition. The taints at the end are those
// of the taint rule over the steps done. And whatever else the run could have started from that differs only
// in what is tainted and in what the trace and the status list held: it would have shown the same. And if all that
// is tainted was 0 here and 255 there at the start, and all else alike, then so it is at the end.
pub fn run(
    words: &[u32],
    state: State,
    vectors: &mut [[u64; 2]; 32],
    vector_taint: &mut [[u64; 2]; 32],
    window: Window,
    memory: &mut [u8],
    taint: &mut [u8],
    trace: &mut [u64],
    statuses: &mut [u8],
) -> Ran
    ensures exact { result_of result vectors.new vector_taint.new memory.new taint.new trace.new statuses.new ≡ machine_run window words.now (machine_of state vectors.old vector_taint.old memory.old taint.old) (log trace.old statuses.old) }
    ensures rule { (machine_of result.state vectors.new vector_taint.new memory.new taint.new).taints ≡ after_steps (word_rule window.origin) words.now (log trace.new statuses.new) result.steps (machine_of state vectors.old vector_taint.old memory.old taint.old).taints }
    ensures secret { (other : Machine) (lent : Log) → Same (machine_of state vectors.old vector_taint.old memory.old taint.old) other → SameRoom (log trace.old statuses.old) lent
        → ShowsRun Same (result_of result vectors.new vector_taint.new memory.new taint.new trace.new statuses.new) (machine_run window words.now other lent) }
    ensures filled { (other : Machine) (lent : Log) → Filled (machine_of state vectors.old vector_taint.old memory.old taint.old) other → SameRoom (log trace.old statuses.old) lent
        → ShowsRun Filled (result_of result vectors.new vector_taint.new memory.new taint.new trace.new statuses.new) (machine_run window words.now other lent) }
{
    reaching(
        words,
        state,
        vectors,
        vector_taint,
        window,
        Reach::Alone,
        memory,
        taint,
        trace,
        statuses,
    )
}

// One turn of a plugin that shares memory with another: a run that reaches what its ranges allow. Memory begins at origin,
// and nothing of it is read-only but the shared range.
pub fn turn(
    words: &[u32],
    state: State,
    vectors: &mut [[u64; 2]; 32],
    vector_taint: &mut [[u64; 2]; 32],
    origin: u64,
    ranges: Ranges,
    memory: &mut [u8],
    taint: &mut [u8],
    trace: &mut [u64],
    statuses: &mut [u8],
) -> Ran
    ensures { result_of result vectors.new vector_taint.new memory.new taint.new trace.new statuses.new ≡ turn_of origin ranges words.now (machine_of state vectors.old vector_taint.old memory.old taint.old) (log trace.old statuses.old) }
{
    let window = Window {
        origin,
        readonly: 0,
    };
    reaching(
        words,
        state,
        vectors,
        vector_taint,
        window,
        Reach::Ranged(ranges),
        memory,
        taint,
        trace,
        statuses,
    )
}

// A run by what it may reach. What is lent comes one by one: a struct of so many `&mut` has to promise at every call that it holds the
// same ones afterwards. Inlined, since of a state that one function takes and returns the compiler makes a call of memmove.
#[inline(always)]
fn reaching(
    words: &[u32],
    state: State,
    vectors: &mut [[u64; 2]; 32],
    vector_taint: &mut [[u64; 2]; 32],
    window: Window,
    reach: Reach,
    memory: &mut [u8],
    taint: &mut [u8],
    trace: &mut [u64],
    statuses: &mut [u8],
) -> Ran
    ensures { result_of result vectors.new vector_taint.new memory.new taint.new trace.new statuses.new ≡ run_of (bad_in window reach) (step_in window reach) words.now (machine_of state vectors.old vector_taint.old memory.old taint.old) (log trace.old statuses.old) }
{
    if is_bad(window, reach, memory.len(), taint.len(), state.pc) {
        return ended(state, 0, Answer::BadWindow, machine::no_code(0));
    }
    if is_short(words.len(), trace.len(), statuses.len()) {
        return ended(state, 0, Answer::NoRoom, machine::no_code(0));
    }
    walk(
        words,
        state,
        vectors,
        vector_taint,
        window,
        reach,
        memory,
        taint,
        trace,
        statuses,
    )
}

// Whether a window, or the ranges in it, are answered with 1.
fn is_bad(window: Window, reach: Reach, len: usize, taints: usize, pc: u64) -> bool
    ensures { result ≡ bad_by window reach len taints pc }
{
    plan::is_bad(window, len as u64, taints as u64, pc)
        || match reach {
            Reach::Alone => false,
            Reach::Ranged(ranges) => plan::are_bad(ranges, window.origin, len as u64),
        }
}

// Whether a trace or a status list is shorter than so many words ask: answer 10.
#[tactic(auto, unfolding(crate::specs::Walk::too_short))]
pub fn is_short(words: usize, trace: usize, statuses: usize) -> bool
    ensures { result ≡ too_short words trace statuses }
{
    trace / 2 < words || statuses < words
}

// The steps of a run whose window and lists were tested. Both halves of a step stand in the loop, so that a step that
// sets no register copies none.
#[inline(always)]
fn walk(
    words: &[u32],
    start: State,
    vectors: &mut [[u64; 2]; 32],
    vector_taint: &mut [[u64; 2]; 32],
    window: Window,
    reach: Reach,
    memory: &mut [u8],
    taint: &mut [u8],
    trace: &mut [u64],
    statuses: &mut [u8],
) -> Ran
    requires { (length words.now * 2 ≤ length trace.old) × (length words.now ≤ length statuses.old) }
    ensures { result_of result vectors.new vector_taint.new memory.new taint.new trace.new statuses.new ≡ glue 0 (log trace.old statuses.old) (walk_of (step_in window reach) words.now (machine_of start vectors.old vector_taint.old memory.old taint.old) (shown 0 0 0)) }
{
    let mut state = start;
    let mut last = machine::no_code(0);
    for i in 0..words.len() {
        match machine::decide(
            words[i],
            state.pc,
            state.monitor,
            window,
            reach,
            &state.registers.value,
            &state.registers.taint,
            vectors,
            vector_taint,
            memory,
            taint,
        ) {
            Err(refusal) => return ended(
                state,
                i,
                refusal.answer,
                machine::no_code(refusal.address),
            ),
            Ok(effect) => {
                last = effect.settle(&mut state, vectors, vector_taint);
                note(trace, statuses, i, last);
            }
        }
    }
    ended(state, words.len(), Answer::Done, last)
}

// What is returned after so many steps, with the answer of the last step tried and what it shows.
fn ended(state: State, steps: usize, answer: Answer, shown: Shown) -> Ran
    ensures { (vs us : List (List ℕ)) (m k t s : List ℕ) → result_of result vs us m k t s ≡ record { machine = machine_of state vs us m k; log = log t s; steps = steps; answer = answer; shown = shown } }
{
    Ran {
        state,
        steps,
        answer,
        shown,
    }
}

// The two numbers of a step in the trace, and its status.
fn note(trace: &mut [u64], statuses: &mut [u8], i: usize, shown: Shown)
    requires { (i * 2 + 2 ≤ length trace.old) × (i < length statuses.old) }
    ensures { (trace.new ≡ set (set trace.old (i * 2) shown.code) (i * 2 + 1) shown.address) × (statuses.new ≡ set statuses.old i shown.status) }
{
    trace[i * 2] = shown.code;
    trace[i * 2 + 1] = shown.address;
    statuses[i] = shown.status;
}
