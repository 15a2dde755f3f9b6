// The lent forms of a session's record for callers that hold the record by value: each lends a record of its own, and
// returns what is then in it. Vector registers are lent on.
#![tactic(auto)]

ghost use Rattle.std.specs.Prelude.{◌≡◌};
ghost use Rattle.session.specs.Lent.{with_register, lent_outcome, lent_step};

use machine::State;
use session::StepReply;

// What a step leaves in the record, and says beside it.
#[derive(Clone, Copy)]
pub struct Lent {
    pub state: State,
    pub reply: StepReply,
}

pub fn step(
    word: u32,
    mut state: State,
    vectors: &mut [[u64; 2]; 32],
    vector_taint: &mut [[u64; 2]; 32],
    origin: u64,
    readonly: u64,
    memory: &mut [u8],
    taint: &mut [u8],
) -> Lent
    ensures { lent_outcome result.state result.reply vectors.new vector_taint.new memory.new taint.new ≡ lent_step (record { origin = origin; readonly = readonly }) word state vectors.old vector_taint.old memory.old taint.old }
{
    let reply = session::milestarling_step(
        word,
        &mut state,
        vectors,
        vector_taint,
        origin,
        readonly,
        memory,
        taint,
    );
    Lent { state, reply }
}

pub fn set_register(mut state: State, n: u32, value: u64, marks: u64) -> State
    ensures { result ≡ with_register n value marks state }
{
    session::milestarling_set_register(&mut state, n, value, marks);
    state
}
