// Whether an access may be made at an address: answers 6, 7, 8 and 12, in their order.
ghost use Rattle.std.specs.Prelude.{◌≡◌, ◌+◌, ◌%◌, ◌≤◌, not, ◌==◌};
ghost use Rattle.plan.specs.Refusals.{verdict_in};
ghost use Rattle.plan.specs.Ranges.{admit_in};
ghost use Rattle.plan.specs.Admission.{misaligned, unaligned, outside, guarded, guards};

use crate::ranges;
use crate::ranges::{Range, Reach};
use crate::window::Window;
use access::Transfer;
use instruction::Answer;

#[inline(always)]
pub fn admission(
    t: Transfer,
    address: u64,
    window: Window,
    reach: Reach,
    len: u64,
) -> Result<(), Answer>
    ensures { result ≡ verdict_in (admit_in window reach len t address) }
{
    let total = u64::from(t.bytes) + u64::from(t.more);
    if is_misaligned(t.ordered, total, address) || is_unaligned(t.exclusive, total, address) {
        return Err(Answer::Misaligned);
    }
    if is_outside(total, address, window.origin, len) {
        return Err(Answer::OutOfWindow);
    }
    let touched = Range {
        address,
        length: total,
    };
    ranges::reached(t.store, touched, window, reach)
}

#[tactic(auto, unfolding(crate::specs::Admission::misaligned))]
fn is_misaligned(ordered: bool, total: u64, address: u64) -> bool
    ensures { result ≡ misaligned ordered total address }
{
    ordered && 16 - address % 16 < total
}

#[tactic(auto, unfolding(crate::specs::Admission::unaligned))]
fn is_unaligned(exclusive: bool, total: u64, address: u64) -> bool
    ensures { result ≡ unaligned exclusive total address }
{
    exclusive && remains(address, total)
}

// Whether a division leaves a remainder. Of 0, only 0 is a multiple.
fn remains(address: u64, total: u64) -> bool
    ensures { result ≡ not (address % total == 0) }
{
    if total == 0 {
        address != 0
    } else {
        address % total != 0
    }
}

// Answer 7, of so many bytes at an address.
#[tactic(auto, unfolding(crate::specs::Admission::outside))]
pub fn is_outside(total: u64, address: u64, origin: u64, len: u64) -> bool
    ensures { result ≡ outside total address origin len }
{
    address < origin || len < address - origin || len - (address - origin) < total
}

// Answer 8 of a plugin alone.
pub fn guard(store: bool, address: u64, window: Window) -> Result<(), Answer>
    ensures { result ≡ verdict_in (guards window store address) }
{
    if is_guarded(store, address, window) {
        Err(Answer::ReadOnly)
    } else {
        Ok(())
    }
}

#[tactic(auto, unfolding(crate::specs::Admission::guarded))]
fn is_guarded(store: bool, address: u64, window: Window) -> bool
    ensures { result ≡ guarded store address window }
{
    store && (address < window.origin || address - window.origin < window.readonly)
}
