// Two plugins that take turns on one memory: what a host calls for each turn. Sequences of turns, and what neither plugin sees of
// the other, are definitions and theorems alone.
#![tactic(auto)]

ghost use Rattle.std.specs.Prelude.{◌≡◌};
ghost use Rattle.machine.specs.Machine.{machine_of};
ghost use Rattle.execution.specs.Walk.{log};
ghost use Rattle.arm.specs.Choices.{arm_turn};
ghost use Rattle.host.specs.Hosting.{hosted, hosted_of};

use host::RunReply;
use machine::State;
use plan::Ranges;

// One turn of the plugin that the ranges call own: a run from its record, which is handed in by value and comes back in the
// reply, and from its vector registers and their taints, which are lent. Where the turn is not begun, nothing is changed.
#[tactic(auto, using(arm::proofs::Runs::turn_as_arm))]
pub fn milestarling_turn(
    words: &[u32],
    session: State,
    vectors: &mut [[u64; 2]; 32],
    vector_taint: &mut [[u64; 2]; 32],
    origin: u64,
    ranges: Ranges,
    memory: &mut [u8],
    taint: &mut [u8],
    trace: &mut [u64],
    statuses: &mut [u8],
) -> RunReply
    ensures { hosted result vectors.new vector_taint.new memory.new taint.new trace.new statuses.new
        ≡ hosted_of (arm_turn origin ranges words.now (machine_of session vectors.old vector_taint.old memory.old taint.old) (log trace.old statuses.old)) }
{
    arm::real(session, *vectors, *vector_taint, memory, taint);
    let ran = execution::turn(
        words,
        session,
        vectors,
        vector_taint,
        origin,
        ranges,
        memory,
        taint,
        trace,
        statuses,
    );
    RunReply::from(ran)
}
