// What an access is to do, before anything is changed: a refusal, or where it touches memory. A plan looks at
// numbers alone, and at no byte of memory.
#![tactic(auto)]

mod address;
mod admission;
mod operands;
mod ranges;
mod window;

ghost use Rattle.std.specs.Prelude.{◌≡◌};
ghost use Rattle.plan.specs.Admission.{admit_of};
ghost use Rattle.plan.specs.Ranges.{admit_in};
ghost use Rattle.plan.specs.Refusals.{verdict_in};
ghost use Rattle.plan.specs.Plans.{misaligned_stack, plan_in, plan_of};

use access::{Addressing, Transfer};
pub use admission::is_outside;
use instruction::Answer;
pub use operands::{Operands, operands_of};
pub use ranges::{Range, Ranges, Reach, are_bad};
pub use window::{Window, is_bad};

// Where an access touches memory: the address of its first byte, and the number that is written back.
#[derive(Clone, Copy)]
pub struct Touch {
    pub address: u64,
    pub sum: u64,
}

// What an access is refused with, and the address that is reported.
#[derive(Clone, Copy)]
pub struct Refusal {
    pub answer: Answer,
    pub address: u64,
}

// The window, what may be reached and the length of memory come each by itself, as the definition `admit_in` takes them.
pub fn planned(
    transfer: Transfer,
    addressing: Addressing,
    operands: Operands,
    window: Window,
    reach: Reach,
    len: u64,
) -> Result<Touch, Refusal>
    ensures { plan_in result ≡ plan_of (admit_in window reach len) transfer addressing operands }
{
    if operands.tainted {
        return Err(Refusal {
            answer: Answer::TaintedAddress,
            address: 0,
        });
    }
    if is_misaligned_stack(addressing.base, operands.base) {
        return Err(Refusal {
            answer: Answer::Misaligned,
            address: operands.base,
        });
    }
    let sum = address::sum(addressing, operands);
    let address = address::first_byte(addressing.post, operands.base, sum);
    match admission::admission(transfer, address, window, reach, len) {
        Ok(()) => Ok(Touch { address, sum }),
        Err(answer) => Err(Refusal { answer, address }),
    }
}

// What an access of a plugin alone is refused with at an address, whatever the registers hold.
pub fn admitted(transfer: Transfer, address: u64, window: Window, len: u64) -> Result<(), Answer>
    ensures { result ≡ verdict_in (admit_of window len transfer address) }
{
    admission::admission(transfer, address, window, Reach::Alone, len)
}

// Whether SP is the base of an access and not a multiple of 16.
#[tactic(auto, unfolding(crate::specs::Plans::misaligned_stack))]
fn is_misaligned_stack(slot: u32, base: u64) -> bool
    ensures { result ≡ misaligned_stack slot base }
{
    slot == 31 && base % 16 != 0
}
