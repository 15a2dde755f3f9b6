// One step of the machine, in two halves: the first decodes a word, plans the access and makes it in memory, or
// refuses and changes nothing; the second sets registers, and gives back the whole state.
#![tactic(auto)]

mod effects;
mod files;
mod monitor;

ghost use Rattle.std.specs.Prelude.{◌≡◌, ℕ, ◌+◌, ◌-◌, ◌≤◌, ◌||◌, List, Ok, length, nat_lt};
ghost use Rattle.instruction.specs.declared.answer.Answer.TheVariants.{Done};
ghost use Rattle.vectors.specs.route.Slots.{Plain};
ghost use Rattle.access.specs.route.Bounds.{Within, Bounded, Placed};
ghost use Rattle.plan.specs.Admission.{total_of};
ghost use Rattle.plan.specs.Ranges.{admit_in};
ghost use Rattle.machine.specs.Machine.{machine_of, opened, next_pc};
ghost use Rattle.machine.specs.Step.{shown, touch_of, step_in, step_of, outcome, leaves};
ghost use Rattle.machine.specs.route.Parts.{word_step, access_step};
ghost use Rattle.machine.specs.route.Writing.{state_of, passed_on, settled_of, completed_of, after_store, after_load, moved_to, told, Decides};
ghost use Rattle.machine.specs.route.Starting.{DecidesFrom};

use access::{Access, Addressing, Transfer};
use effects::Back;
pub use effects::{Writes, code};
use files::{Bytes, Files, Start};
use instruction::Answer;
pub use monitor::{Monitor, fails};
use plan::Touch;
pub use plan::{Reach, Refusal, Window};
use registers::Registers;
use vectors::VectorWrites;

#[repr(C)]
#[derive(Clone, Copy)]
pub struct State {
    pub registers: Registers,
    pub pc: u64,
    pub monitor: Monitor,
}

// What a done step shows; the status is 0 but for a store-exclusive that fails.
#[derive(Clone, Copy)]
pub struct Shown {
    pub code: u64,
    pub address: u64,
    pub status: u8,
}

// What an access that is made leaves to be set: no register; or some; or vector registers, too.
#[derive(Drop)]
pub enum Effect {
    Passed(Shown),
    Wrote(Shown, Writes),
    Vectors(Shown, Writes, VectorWrites),
}

impl Effect {
    // The second half, where all that it sets is lent; and what the step shows. Inlined, so that a step that sets nothing copies nothing.
    #[inline(always)]
    pub fn settle(
        self,
        state: &mut State,
        vectors: &mut [[u64; 2]; 32],
        vector_taint: &mut [[u64; 2]; 32],
    ) -> Shown
        ensures { (memory taint : List ℕ) → moved_to (machine_of state.new vectors.new vector_taint.new memory taint) result ≡ told state.old vectors.old vector_taint.old (Ok self) memory taint }
    {
        match self {
            Effect::Passed(shown) => {
                state.pc = next_pc(state.pc);
                shown
            }
            Effect::Wrote(shown, writes) => {
                *state = settled(*state, writes);
                shown
            }
            Effect::Vectors(shown, writes, filled) => {
                *state = settled(*state, writes);
                vectors::write(vectors, filled);
                vectors::write_taint(vector_taint, filled);
                shown
            }
        }
    }
}

// What a step returns, refused or not: 01's answer, code and address, and the state after it; and what it writes to the vector registers,
// which `vectors::written` puts into them.
#[derive(Drop)]
pub struct Stepped {
    pub state: State,
    pub answer: Answer,
    pub shown: Shown,
    pub vectors: VectorWrites,
}

pub fn step(
    word: u32,
    state: State,
    vectors: [[u64; 2]; 32],
    vector_taint: [[u64; 2]; 32],
    window: Window,
    memory: &mut [u8],
    taint: &mut [u8],
) -> Stepped
    ensures { outcome result vectors vector_taint memory.new taint.new ≡ leaves (step_of window word) (machine_of state vectors vector_taint memory.old taint.old) }
{
    let decision = decide(
        word,
        state.pc,
        state.monitor,
        window,
        Reach::Alone,
        &state.registers.value,
        &state.registers.taint,
        &vectors,
        &vector_taint,
        memory,
        taint,
    );
    completed(decision, state)
}

// The second half, whatever the first has decided.
fn completed(decision: Result<Effect, Refusal>, state: State) -> Stepped
    ensures { result ≡ completed_of state decision }
{
    match decision {
        Err(refusal) => Stepped {
            state,
            answer: refusal.answer,
            shown: no_code(refusal.address),
            vectors: vectors::no_writes(),
        },
        Ok(Effect::Passed(shown)) => done(passed_on(state), shown, vectors::no_writes()),
        Ok(Effect::Wrote(shown, writes)) => done(
            settled(state, writes),
            shown,
            vectors::no_writes(),
        ),
        Ok(Effect::Vectors(shown, writes, filled)) => done(settled(state, writes), shown, filled),
    }
}

fn done(state: State, shown: Shown, vectors: VectorWrites) -> Stepped
    ensures { result ≡ record { state = state; answer = Done; shown = shown; vectors = vectors } }
{
    Stepped {
        state,
        answer: Answer::Done,
        shown,
        vectors,
    }
}

// What a refusal shows, and with address 0 a prefetch, and a run without a step.
pub fn no_code(address: u64) -> Shown
    ensures { result ≡ shown 0 address 0 }
{
    Shown {
        code: 0,
        address,
        status: 0,
    }
}

// The host's way to open the monitor.
pub fn open(state: State) -> State
    ensures { result ≡ opened state }
{
    State {
        monitor: Monitor::OPEN,
        ..state
    }
}

// The second half of a step that sets registers.
pub fn settled(state: State, writes: Writes) -> State
    ensures { result ≡ settled_of writes state }
{
    State {
        registers: state
            .registers
            .set(writes.base, writes.next, 0)
            .set(writes.first, writes.value, writes.taint)
            .set(writes.second, writes.value2, writes.taint2),
        pc: next_pc(state.pc),
        monitor: writes.monitor,
    }
}

// The second half of a step that sets none.
pub fn passed_on(state: State) -> State
    ensures { result ≡ passed_on state }
{
    State {
        pc: next_pc(state.pc),
        ..state
    }
}

// The program counter after a step that is done.
pub fn next_pc(pc: u64) -> u64
    ensures { result ≡ next_pc pc }
{
    std::num::wrapping_add_u64(pc, 4)
}

// The first half, by what may be reached: what is left to be set, or the refusal. The arrays of the register file are lent, so that
// reading a register copies nothing. They come one by one, since a struct that says how long each is would ask a caller to show it.
pub fn decide<'a>(
    word: u32,
    pc: u64,
    monitor: Monitor,
    window: Window,
    reach: Reach,
    value: &'a [u64; 32],
    tainted: &'a [u64; 32],
    vectors: &'a [[u64; 2]; 32],
    vector_taint: &'a [[u64; 2]; 32],
    memory: &mut [u8],
    taint: &mut [u8],
) -> Result<Effect, Refusal>
    ensures { Decides (step_in window reach word) (state_of value.now tainted.now pc monitor) vectors.now vector_taint.now memory.old taint.old result memory.new taint.new }
{
    if plan::is_bad(window, memory.len() as u64, taint.len() as u64, pc) {
        return Err(Refusal {
            answer: Answer::BadWindow,
            address: 0,
        });
    }
    counted(*value);
    counted(*tainted);
    vectors::held(*vectors);
    vectors::held(*vector_taint);
    let start = Start {
        pc,
        monitor,
        window,
        reach,
        files: Files {
            value,
            tainted,
            vectors,
            vector_taint,
        },
    };
    decide_word(word, &start, memory, taint)
}

// How long an array is, which nothing says of one behind a reference. No code comes of it.
pub fn counted(numbers: [u64; 32])
    ensures { length numbers ≡ 32 }
{
    nothing();
}

fn nothing() {}

// In a window that is well formed.
fn decide_word(
    word: u32,
    start: &Start,
    memory: &mut [u8],
    taint: &mut [u8],
) -> Result<Effect, Refusal>
    requires { length taint.old ≡ length memory.old }
    ensures { DecidesFrom (word_step start.now.window.origin (admit_in start.now.window start.now.reach (length memory.old)) word) start.now memory.old taint.old result memory.new taint.new }
{
    let examined = decoder::examine(word);
    match examined.answer {
        Answer::Done => decide_access(
            access::access_of(examined.instruction),
            start,
            memory,
            taint,
        ),
        answer => Err(Refusal { answer, address: 0 }),
    }
}

#[tactic(auto, unfolding(crate::specs::route::Parts::access_step))]
fn decide_access(
    x: Access,
    start: &Start,
    memory: &mut [u8],
    taint: &mut [u8],
) -> Result<Effect, Refusal>
    requires { Within x × (length taint.old ≡ length memory.old) }
    ensures { DecidesFrom (access_step start.now.window.origin (admit_in start.now.window start.now.reach (length memory.old)) x) start.now memory.old taint.old result memory.new taint.new }
{
    match x {
        // A prefetch: the program counter goes on.
        Access::Nothing => Ok(Effect::Passed(no_code(0))),
        Access::Moves(t, a) => decide_moves(t, a, start, memory, taint),
    }
}

fn decide_moves(
    t: Transfer,
    a: Addressing,
    start: &Start,
    memory: &mut [u8],
    taint: &mut [u8],
) -> Result<Effect, Refusal>
    requires { Bounded t × Placed a × (length taint.old ≡ length memory.old) }
    ensures { DecidesFrom (access_step start.now.window.origin (admit_in start.now.window start.now.reach (length memory.old)) (Access.Moves t a)) start.now memory.old taint.old result memory.new taint.new }
{
    let value = start.files.value;
    let tainted = start.files.tainted;
    let operands = plan::operands_of(a, start.pc, value, tainted);
    let touch = plan::planned(
        t,
        a,
        operands,
        start.window,
        start.reach,
        memory.len() as u64,
    )?;
    Ok(touched(t, a.written, touch, start, memory, taint))
}

// An access that passed its tests.
fn touched(
    t: Transfer,
    written: u32,
    touch: Touch,
    start: &Start,
    memory: &mut [u8],
    taint: &mut [u8],
) -> Effect
    requires { Bounded t × Plain written × (start.now.window.origin ≤ touch.address) × (touch.address - start.now.window.origin + total_of t ≤ length memory.old) × (length taint.old ≡ length memory.old) }
    ensures { DecidesFrom (touch_of start.now.window.origin t written touch.address touch.sum) start.now memory.old taint.old (Ok result) memory.new taint.new }
{
    let address = touch.address;
    let at = (address - start.window.origin) as usize;
    let status = monitor::status(t, address, start.monitor);
    let shown = Shown {
        code: effects::code(t),
        address,
        status,
    };
    let back = Back {
        base: written,
        next: monitor::written_back(t, status, touch.sum),
        monitor: monitor::after(t, address, start.monitor),
    };
    if t.store {
        effects::stored(t, status, at, &start.files, memory, taint);
        return after_store(t.exclusive, back, shown);
    }
    after_load(t, back, at, shown, &Bytes { memory, taint })
}

// A store that is made leaves the base or the status to set, and the monitor, or nothing.
fn after_store(exclusive: bool, back: Back, shown: Shown) -> Effect
    ensures { result ≡ after_store (exclusive || nat_lt back.base 32) back.base back.next shown back.monitor }
{
    if exclusive || back.base < 32 {
        Effect::Wrote(shown, effects::written_back(back))
    } else {
        Effect::Passed(shown)
    }
}

// A load sets general registers, or vector registers.
fn after_load(t: Transfer, back: Back, at: usize, shown: Shown, bytes: &Bytes) -> Effect
    requires { Bounded t × (at + total_of t ≤ length bytes.now.memory.now) }
    ensures { result ≡ after_load t back.base at back.next shown back.monitor bytes.now.memory.now bytes.now.taint.now }
{
    if vectors::is_vector(t.target) {
        Effect::Vectors(
            shown,
            effects::written_back(back),
            effects::fills(t, at, bytes),
        )
    } else {
        Effect::Wrote(shown, effects::loads(t, back, at, bytes))
    }
}
