// The fields of a word, as operations and operands. A family is made of its operation, wherever that was read, and of the
// operands in the rest of the word.
ghost use Rattle.std.specs.Prelude.{◌≡◌, ◌*◌, ◌<◌, ◌≤◌};
ghost use Rattle.bits.specs.Signed.{signed_of};
ghost use Rattle.instruction.specs.Operands.{sized_in, literal_op_in, literal_in, pair_op_in, pair_in, signed_in, index_in, unsigned_in, exclusive_op_in, store_exclusive_op_in, exclusive_in, store_exclusive_in};

use instruction::{
    ExclusiveOp, ExclusiveOperands, Family, IndexOperands, LiteralOp, LiteralOperands,
    OffsetOperands, PairOp, PairOperands, SizedOp, StoreExclusiveOp, StoreExclusiveOperands,
};

pub fn literal(op: LiteralOp, word: u32) -> Family
    ensures { result ≡ Family.Literal op (literal_in word) }
{
    Family::Literal(op, literal_operands(word))
}

pub fn pair(op: PairOp, word: u32) -> Family
    ensures { result ≡ Family.Pair op (pair_in op word) }
{
    Family::Pair(op, pair_operands(op, word))
}

// Four families have the same operands. One function for them would take the constructor, which is all that these four say.
pub fn ordered(op: SizedOp, word: u32) -> Family
    ensures { result ≡ Family.Ordered op (signed_in word) }
{
    Family::Ordered(op, signed_operands(word))
}

pub fn unscaled(op: SizedOp, word: u32) -> Family
    ensures { result ≡ Family.Unscaled op (signed_in word) }
{
    Family::Unscaled(op, signed_operands(word))
}

pub fn post_index(op: SizedOp, word: u32) -> Family
    ensures { result ≡ Family.PostIndex op (signed_in word) }
{
    Family::PostIndex(op, signed_operands(word))
}

pub fn pre_index(op: SizedOp, word: u32) -> Family
    ensures { result ≡ Family.PreIndex op (signed_in word) }
{
    Family::PreIndex(op, signed_operands(word))
}

pub fn register(op: SizedOp, word: u32) -> Family
    ensures { result ≡ Family.Register op (index_in word) }
{
    Family::Register(op, index_operands(word))
}

pub fn unsigned(op: SizedOp, word: u32) -> Family
    ensures { result ≡ Family.Unsigned op (unsigned_in op word) }
{
    Family::Unsigned(op, unsigned_operands(op, word))
}

pub fn exclusive(op: ExclusiveOp, word: u32) -> Family
    ensures { result ≡ Family.Exclusive op (exclusive_in word) }
{
    Family::Exclusive(op, exclusive_operands(word))
}

pub fn store_exclusive(op: StoreExclusiveOp, word: u32) -> Family
    ensures { result ≡ Family.StoreExclusive op (store_exclusive_in word) }
{
    Family::StoreExclusive(op, store_exclusive_operands(word))
}

#[tactic(auto, unfolding(instruction::specs::Operands::sized_in, bits::specs::Fields::part))]
pub(crate) fn sized_op_in(word: u32) -> SizedOp
    ensures { result ≡ sized_in word }
{
    instruction::sized_at(
        word / 0x400_0000 % 2 * 16 + word / 0x4000_0000 % 4 * 4 + word / 0x40_0000 % 4,
    )
}

#[tactic(auto, unfolding(instruction::specs::Operands::literal_op_in, bits::specs::Fields::part))]
pub(crate) fn literal_op_in(word: u32) -> LiteralOp
    ensures { result ≡ literal_op_in word }
{
    instruction::literal_at(word / 0x400_0000 % 2 * 4 + word / 0x4000_0000 % 4)
}

#[tactic(auto, unfolding(instruction::specs::Operands::pair_op_in, bits::specs::Fields::part))]
pub(crate) fn pair_op_in(word: u32) -> PairOp
    ensures { result ≡ pair_op_in word }
{
    instruction::pair_at(
        word / 0x400_0000 % 2 * 8 + word / 0x4000_0000 % 4 * 2 + word / 0x40_0000 % 2,
    )
}

#[tactic(auto, unfolding(instruction::specs::Operands::exclusive_op_in, bits::specs::Fields::part))]
pub(crate) fn exclusive_op_in(word: u32) -> ExclusiveOp
    ensures { result ≡ exclusive_op_in word }
{
    instruction::exclusive_at(
        word / 0x80_0000 % 2 * 4 + word / 0x40_0000 % 2 * 2 + word / 0x8000 % 2,
    )
}

#[tactic(auto, unfolding(instruction::specs::Operands::store_exclusive_op_in, bits::specs::Fields::part))]
pub(crate) fn store_exclusive_op_in(word: u32) -> StoreExclusiveOp
    ensures { result ≡ store_exclusive_op_in word }
{
    instruction::store_exclusive_at(
        word / 0x80_0000 % 2 * 4 + word / 0x40_0000 % 2 * 2 + word / 0x8000 % 2,
    )
}

// The number that a field in two's complement holds, times scale. Half is how many values each sign has.
#[tactic(auto, unfolding(bits::specs::Signed::signed_of))]
fn signed(bits: u32, half: u32, scale: u32) -> i64
    requires { (bits < 2 * half) × (half ≤ 262144) × (scale ≤ 16) }
    ensures { result ≡ signed_of half scale bits }
{
    if bits < half {
        i64::from(bits * scale)
    } else {
        -i64::from((2 * half - bits) * scale)
    }
}

#[tactic(auto, unfolding(instruction::specs::Operands::literal_in, bits::specs::Fields::part))]
fn literal_operands(word: u32) -> LiteralOperands
    ensures { result ≡ literal_in word }
{
    LiteralOperands {
        target: word / 1 % 32,
        offset: signed(word / 32 % 0x8_0000, 0x4_0000, 4),
    }
}

#[tactic(auto, unfolding(instruction::specs::Operands::pair_in, bits::specs::Fields::part))]
fn pair_operands(op: PairOp, word: u32) -> PairOperands
    ensures { result ≡ pair_in op word }
{
    PairOperands {
        first: word / 1 % 32,
        second: word / 0x400 % 32,
        base: word / 32 % 32,
        mode: instruction::mode_at(word / 0x80_0000 % 4),
        offset: signed(word / 0x8000 % 128, 64, instruction::pair_bytes(op)),
    }
}

#[tactic(auto, unfolding(instruction::specs::Operands::signed_in, bits::specs::Fields::part))]
fn signed_operands(word: u32) -> OffsetOperands
    ensures { result ≡ signed_in word }
{
    OffsetOperands {
        target: word / 1 % 32,
        base: word / 32 % 32,
        offset: signed(word / 0x1000 % 512, 256, 1),
    }
}

#[tactic(auto, unfolding(instruction::specs::Operands::index_in, bits::specs::Fields::part))]
fn index_operands(word: u32) -> IndexOperands
    ensures { result ≡ index_in word }
{
    IndexOperands {
        target: word / 1 % 32,
        base: word / 32 % 32,
        index: word / 0x1_0000 % 32,
        option: word / 0x2000 % 8,
        scaled: word / 0x1000 % 2,
    }
}

#[tactic(auto, unfolding(instruction::specs::Operands::unsigned_in, bits::specs::Fields::part))]
fn unsigned_operands(op: SizedOp, word: u32) -> OffsetOperands
    ensures { result ≡ unsigned_in op word }
{
    let scale = instruction::sized_bytes(op);
    OffsetOperands {
        target: word / 1 % 32,
        base: word / 32 % 32,
        offset: i64::from(word / 0x400 % 4096 * scale),
    }
}

#[tactic(auto, unfolding(instruction::specs::Operands::exclusive_in, bits::specs::Fields::part))]
fn exclusive_operands(word: u32) -> ExclusiveOperands
    ensures { result ≡ exclusive_in word }
{
    ExclusiveOperands {
        size: instruction::size_at(word / 0x4000_0000 % 4),
        target: word / 1 % 32,
        base: word / 32 % 32,
    }
}

#[tactic(auto, unfolding(instruction::specs::Operands::store_exclusive_in, bits::specs::Fields::part))]
fn store_exclusive_operands(word: u32) -> StoreExclusiveOperands
    ensures { result ≡ store_exclusive_in word }
{
    StoreExclusiveOperands {
        size: instruction::size_at(word / 0x4000_0000 % 4),
        status: word / 0x1_0000 % 32,
        target: word / 1 % 32,
        base: word / 32 % 32,
    }
}
