// The bits of an offset, or none where it is out of range or no multiple of its scale.
ghost use Rattle.std.specs.Prelude.{◌≡◌, ◌<◌, ◌≤◌};
ghost use Rattle.bits.specs.Signed.{quotient_of, bits_of, plain_bits_of};
ghost use Rattle.instruction.specs.Operations.{sized_bytes, pair_bytes};

use instruction::{PairOp, SizedOp};

#[tactic(auto, using(instruction::proofs::Codes::paired))]
pub fn imm7(offset: i64, op: PairOp) -> Option<u32>
    ensures { result ≡ bits_of 64 (pair_bytes op) offset }
{
    signed_bits(offset, 64, instruction::pair_bytes(op))
}

pub fn imm9(offset: i64) -> Option<u32>
    ensures { result ≡ bits_of 256 1 offset }
{
    signed_bits(offset, 256, 1)
}

#[tactic(auto, using(instruction::proofs::Codes::sized))]
pub fn imm12(offset: i64, op: SizedOp) -> Option<u32>
    ensures { result ≡ plain_bits_of 4096 (sized_bytes op) offset }
{
    plain_bits(offset, 4096, instruction::sized_bytes(op))
}

pub fn imm19(offset: i64) -> Option<u32>
    ensures { result ≡ bits_of 262144 4 offset }
{
    signed_bits(offset, 262144, 4)
}

// In two's complement. Half is how many values each sign has.
#[tactic(auto, using(bits::proofs::Offsets::quotient_below), unfolding(bits::specs::Signed::bits_of))]
fn signed_bits(offset: i64, half: u32, scale: u32) -> Option<u32>
    requires { (0 < scale) × (half ≤ 262144) }
    ensures { result ≡ bits_of half scale offset }
{
    let far = offset.unsigned_abs();
    if offset < 0 {
        let q = quotient(far, scale, half + 1)?;
        Some(2 * half - q)
    } else {
        quotient(far, scale, half)
    }
}

// Without sign, one of limit values.
#[tactic(auto, unfolding(bits::specs::Signed::plain_bits_of))]
fn plain_bits(offset: i64, limit: u32, scale: u32) -> Option<u32>
    requires { 0 < scale }
    ensures { result ≡ plain_bits_of limit scale offset }
{
    let far = u64::try_from(offset).ok()?;
    quotient(far, scale, limit)
}

// The quotient, where it is whole and below the limit.
#[tactic(auto, unfolding(bits::specs::Signed::quotient_of))]
fn quotient(magnitude: u64, scale: u32, limit: u32) -> Option<u32>
    requires { 0 < scale }
    ensures { result ≡ quotient_of magnitude scale limit }
{
    let scale = u64::from(scale);
    let whole = magnitude / scale;
    if magnitude % scale == 0 && whole < u64::from(limit) {
        Some(whole as u32)
    } else {
        None
    }
}
