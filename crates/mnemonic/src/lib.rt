// Mnemonics, and the letter of the first operand behind each: w or x for a register, b, h, s, d or q for a
// vector register, and # for the hint of a prefetch.
#![tactic(auto)]

mod names;
mod stems;
mod table;

ghost use Rattle.std.specs.Prelude.{◌≡◌, ◌<◌};
ghost use Rattle.instruction.specs.Operations.{sized_at, pair_at, exclusive_code, store_exclusive_code, size_at};
ghost use Rattle.mnemonic.specs.Mnemonics.{sized_name, literal_sized, literal_name, pair_name, exclusive_name};
ghost use Rattle.mnemonic.specs.Operands.{Narrow, sized_operand, literal_operand, pair_operand, access_operand};
ghost use Rattle.mnemonic.specs.route.Named.{known, told};
ghost use Rattle.mnemonic.specs.route.Names.{name_at, name_text, name_operand};

use instruction::{
    AccessSize, ExclusiveOp, LiteralOp, PairMode, PairOp, SizedOp, StoreExclusiveOp,
};
pub use names::{NAMES, Name, name_at};

// The letters are packed into a number, the first lowest. The shape has their number in its low byte, and the letter
// of the operand above it.
#[derive(Clone, Copy)]
pub struct Mnemonic {
    pub letters: u64,
    pub shape: u16,
}

// The stems of the mnemonics with a size: str and ldr, stur and ldur, stlur and ldapur.
#[derive(Clone, Copy)]
pub enum Stem {
    Plain,
    Unscale,
    Order,
}

#[tactic(auto, using(crate::proofs::Told::sized_by))]
pub fn sized_name(stem: Stem, op: SizedOp) -> Mnemonic
    ensures { known result ≡ told (sized_name stem op) (sized_operand op) }
{
    sized_at(stem, instruction::sized_code(op))
}

fn sized_at(stem: Stem, code: u32) -> Mnemonic
    ensures { known result ≡ told (sized_name stem (sized_at code)) (sized_operand (sized_at code)) }
{
    let entry = table::sized_entry(code);
    entry.behind(stems::sized_stem(stem, entry.kind))
}

pub fn literal_name(op: LiteralOp) -> Mnemonic
    ensures { known result ≡ told (literal_name op) (literal_operand op) }
{
    sized_name(Stem::Plain, literal_sized(op))
}

fn literal_sized(op: LiteralOp) -> SizedOp
    ensures { result ≡ literal_sized op }
{
    match op {
        LiteralOp::LiteralWord => SizedOp::LoadWord,
        LiteralOp::LiteralDouble => SizedOp::LoadDouble,
        LiteralOp::LiteralSignedWord => SizedOp::LoadSignedWord64,
        LiteralOp::LiteralPrefetch => SizedOp::Prefetch,
        LiteralOp::LiteralVectorWord => SizedOp::LoadVectorWord,
        LiteralOp::LiteralVectorDouble => SizedOp::LoadVectorDouble,
        LiteralOp::LiteralVectorQuad => SizedOp::LoadVectorQuad,
    }
}

#[tactic(auto, using(crate::proofs::Told::pair_by))]
pub fn pair_name(mode: PairMode, op: PairOp) -> Mnemonic
    ensures { known result ≡ told (pair_name mode op) (pair_operand op) }
{
    pair_at(mode, instruction::pair_code(op))
}

fn pair_at(mode: PairMode, code: u32) -> Mnemonic
    ensures { known result ≡ told (pair_name mode (pair_at code)) (pair_operand (pair_at code)) }
{
    let entry = table::pair_entry(code);
    entry.behind(stems::pair_stem(mode, entry.kind))
}

#[tactic(auto, using(crate::proofs::Told::exclusive_by))]
pub fn exclusive_name(op: ExclusiveOp, size: AccessSize) -> Mnemonic
    ensures { known result ≡ told (exclusive_name (exclusive_code op) size) (access_operand size) }
{
    let scale = instruction::access_scale(size);
    exclusive_at(instruction::exclusive_code(op), scale)
}

// What stands behind the stem, and the letter of the data, is as in a store of the size.
#[tactic(auto, using(crate::proofs::Told::exclusive_is))]
fn exclusive_at(code: u32, scale: u32) -> Mnemonic
    requires { (code < 8) × (scale < 4) }
    ensures { known result ≡ told (exclusive_name code (size_at scale)) (access_operand (size_at scale)) }
{
    let entry = table::sized_entry(scale * 4);
    entry.behind(stems::exclusive_stem(code))
}

// The first operand is the status, a w whatever the data are.
#[tactic(auto, using(crate::proofs::Told::exclusive_by, crate::proofs::Told::with_status))]
pub fn store_exclusive_name(op: StoreExclusiveOp, size: AccessSize) -> Mnemonic
    ensures { known result ≡ told (exclusive_name (store_exclusive_code op) size) Narrow }
{
    let scale = instruction::access_scale(size);
    let m = exclusive_at(instruction::store_exclusive_code(op), scale);
    Mnemonic {
        letters: m.letters,
        shape: m.shape % 256 + 0x7700,
    }
}

// The mnemonic of a name, by its number. Not by way of `name_at`: the operation would be made of its code, and its code of
// the operation, for each name that a search tries.
#[tactic(auto, using(std::proofs::lemmas::Bool::Decides::nat_tests), unfolding(crate::specs::route::Names::name_at))]
pub fn mnemonic_at(number: u32) -> Mnemonic
    ensures { known result ≡ told (name_text (name_at number)) (name_operand (name_at number)) }
{
    match number {
        0..=7 => {
            let op = instruction::store_exclusive_at(number / 4);
            store_exclusive_name(op, instruction::size_at(number % 4))
        }
        8..=31 => {
            let op = instruction::exclusive_at(number / 4);
            exclusive_name(op, instruction::size_at(number % 4))
        }
        32..=127 => sized_at(names::stem_at(number / 32), number % 32),
        128..=143 => pair_at(PairMode::NoAllocate, number % 16),
        _ => pair_at(PairMode::Offset, number % 16),
    }
}
