// Answer 17: a trace and statuses that no run can have left.
ghost use Rattle.std.specs.Prelude.{◌≡◌, ◌*◌, ◌≤◌, true, not, length, ◌==◌};
ghost use Rattle.bits.specs.Choice.{pick};
ghost use Rattle.plan.specs.Refusals.{answer_in};
ghost use Rattle.plan.specs.Admission.{admit_of};
ghost use Rattle.machine.specs.Machine.{code_of};
ghost use Rattle.machine.specs.Step.{shown};
ghost use Rattle.execution.specs.Walk.{log};
ghost use Rattle.why.specs.Trace.{is_refused, wrong_access, wrong_step, some_step, wrong_at, wrong_trace};

use crate::history::History;
use access::{Access, Transfer};
use instruction::Answer;
use plan::Window;

#[tactic(auto, unfolding(crate::specs::Trace::wrong_trace, execution::specs::Walk::too_short))]
pub fn is_wrong_trace(history: &History, steps: usize, window: Window, len: u64) -> bool
    ensures { result ≡ wrong_trace window len history.now.words.now (log history.now.trace.now history.now.statuses.now) steps }
{
    if history.words.len() < steps {
        return true;
    }
    if execution::is_short(steps, history.trace.len(), history.statuses.len()) {
        return true;
    }
    has_wrong_step(history, steps, window, len)
}

// From the last on: places behind the end of a run are wrong at once.
#[tactic(auto, unfolding(crate::specs::Trace::some_step))]
fn has_wrong_step(history: &History, steps: usize, window: Window, len: u64) -> bool
    requires { (steps ≤ length history.now.words.now) × (steps * 2 ≤ length history.now.trace.now) × (steps ≤ length history.now.statuses.now) }
    ensures { result ≡ some_step (wrong_at window len history.now.words.now (log history.now.trace.now history.now.statuses.now)) steps }
{
    for i in (0..steps).rev() {
        if is_wrong_step(
            history.words[i],
            history.trace[i * 2],
            history.trace[i * 2 + 1],
            history.statuses[i],
            window,
            len,
        ) {
            return true;
        }
    }
    false
}

#[tactic(auto, unfolding(crate::specs::Trace::wrong_step))]
fn is_wrong_step(word: u32, code: u64, address: u64, status: u8, window: Window, len: u64) -> bool
    ensures { result ≡ wrong_step window len word (shown code address status) }
{
    let examined = decoder::examine(word);
    if examined.answer != Answer::Done || 1 < status {
        return true;
    }
    let instruction = examined.instruction;
    is_wrong_access(access::access_of(instruction), code, address, window, len)
}

fn is_wrong_access(x: Access, code: u64, address: u64, window: Window, len: u64) -> bool
    ensures { result ≡ wrong_access window len x code address }
{
    match x {
        Access::Nothing => is_wrong_nothing(code, address),
        Access::Moves(t, a) => is_wrong_move(t, code, address, window, len),
    }
}

fn is_wrong_nothing(code: u64, address: u64) -> bool
    ensures { result ≡ pick (code == 0) (not (address == 0)) true }
{
    code != 0 || address != 0
}

#[tactic(auto, using(plan::proofs::Tests::admitted_refused))]
fn is_wrong_move(t: Transfer, code: u64, address: u64, window: Window, len: u64) -> bool
    ensures { result ≡ pick (code == code_of t) (is_refused (answer_in (admit_of window len t address))) true }
{
    code != machine::code(t) || plan::admitted(t, address, window, len).is_err()
}
