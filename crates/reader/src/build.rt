// The one instruction whose line a scanned text can be.
ghost use Rattle.std.specs.Prelude.{◌≡◌};
ghost use Rattle.reader.specs.route.Scanned.{scan_of};
ghost use Rattle.reader.specs.route.Build.{register_of, literal_for, literal_from, offset_from, index_from, pair_from, mode_for, bracketed_for, plain_for, sized_for, exclusive_from, size_for, store_exclusive_from, family_for, build_of};

use crate::first::target_at;
use crate::name::{letter_for, name_for};
use crate::scan::Scan;
use crate::tail::{Tail, offset_at, option_at, scaled_at, tail_at};
use instruction::{
    AccessSize, ExclusiveOperands, Family, IndexOperands, Instruction, LiteralOp, LiteralOperands,
    OffsetOperands, PairMode, PairOperands, SizedOp, StoreExclusiveOperands,
};
use mnemonic::{Name, Stem};

// The cast keeps the remainder, which fits.
fn register(number: u64) -> u32
    ensures { result ≡ register_of number }
{
    (number % 32) as u32
}

// The load from a literal that has the name of a load with a size.
#[tactic(auto, unfolding(crate::specs::route::Build::literal_for))]
fn literal_for(op: SizedOp) -> LiteralOp
    ensures { result ≡ literal_for op }
{
    match op {
        SizedOp::LoadSignedWord64 => LiteralOp::LiteralSignedWord,
        SizedOp::LoadDouble => LiteralOp::LiteralDouble,
        SizedOp::Prefetch => LiteralOp::LiteralPrefetch,
        SizedOp::LoadVectorWord => LiteralOp::LiteralVectorWord,
        SizedOp::LoadVectorDouble => LiteralOp::LiteralVectorDouble,
        SizedOp::LoadVectorQuad => LiteralOp::LiteralVectorQuad,
        _ => LiteralOp::LiteralWord,
    }
}

fn literal_from(s: Scan) -> LiteralOperands
    ensures { result ≡ literal_from (scan_of s) }
{
    LiteralOperands {
        target: target_at(s.words[1]),
        offset: offset_at(s.words[2]),
    }
}

fn offset_from(s: Scan) -> OffsetOperands
    ensures { result ≡ offset_from (scan_of s) }
{
    OffsetOperands {
        target: target_at(s.words[1]),
        base: register(s.words[4].number),
        offset: offset_at(s.words[5]),
    }
}

fn index_from(s: Scan) -> IndexOperands
    ensures { result ≡ index_from (scan_of s) }
{
    IndexOperands {
        target: target_at(s.words[1]),
        base: register(s.words[4].number),
        index: register(s.words[5].number),
        option: option_at(s.words[6].key),
        scaled: scaled_at(s.words[6].key),
    }
}

fn pair_from(mode: PairMode, s: Scan) -> PairOperands
    ensures { result ≡ pair_from mode (scan_of s) }
{
    PairOperands {
        first: register(s.words[1].number),
        second: register(s.words[2].number),
        base: register(s.words[4].number),
        mode,
        offset: offset_at(s.words[5]),
    }
}

// No pair has an index.
fn mode_for(tail: Tail) -> PairMode
    ensures { result ≡ mode_for tail }
{
    match tail {
        Tail::AtOffset => PairMode::Offset,
        Tail::Before => PairMode::Pre,
        Tail::After => PairMode::Post,
        Tail::Indexed => PairMode::Offset,
    }
}

fn bracketed_for(tail: Tail, op: SizedOp, s: Scan) -> Family
    ensures { result ≡ bracketed_for tail op (scan_of s) }
{
    match tail {
        Tail::AtOffset => Family::Unsigned(op, offset_from(s)),
        Tail::Before => Family::PreIndex(op, offset_from(s)),
        Tail::After => Family::PostIndex(op, offset_from(s)),
        Tail::Indexed => Family::Register(op, index_from(s)),
    }
}

// Only a literal's line has a word 2 here.
fn plain_for(op: SizedOp, s: Scan) -> Family
    ensures { result ≡ plain_for op (scan_of s) }
{
    if s.words[2].key == 0 {
        return bracketed_for(tail_at(s.words[5].key), op, s);
    }
    Family::Literal(literal_for(op), literal_from(s))
}

fn sized_for(stem: Stem, op: SizedOp, s: Scan) -> Family
    ensures { result ≡ sized_for stem op (scan_of s) }
{
    match stem {
        Stem::Plain => plain_for(op, s),
        Stem::Unscale => Family::Unscaled(op, offset_from(s)),
        Stem::Order => Family::Ordered(op, offset_from(s)),
    }
}

fn exclusive_from(size: AccessSize, s: Scan) -> ExclusiveOperands
    ensures { result ≡ exclusive_from size (scan_of s) }
{
    ExclusiveOperands {
        size,
        target: register(s.words[1].number),
        base: register(s.words[4].number),
    }
}

// The names of store-exclusives of a word and of a doubleword are the same: the letter of the data tells.
#[tactic(auto, unfolding(crate::specs::route::Build::size_for))]
fn size_for(size: AccessSize, letter: u16) -> AccessSize
    ensures { result ≡ size_for size letter }
{
    match size {
        AccessSize::Double if letter == u16::from(b'w') => AccessSize::Word,
        _ => size,
    }
}

fn store_exclusive_from(size: AccessSize, s: Scan) -> StoreExclusiveOperands
    ensures { result ≡ store_exclusive_from size (scan_of s) }
{
    let told = size_for(size, letter_for(s.words[2].key));
    StoreExclusiveOperands {
        size: told,
        status: register(s.words[1].number),
        target: register(s.words[2].number),
        base: register(s.words[4].number),
    }
}

fn family_for(name: Name, s: Scan) -> Family
    ensures { result ≡ family_for name (scan_of s) }
{
    match name {
        Name::Sized(stem, op) => sized_for(stem, op, s),
        Name::NoAllocatePair(op) => Family::Pair(op, pair_from(PairMode::NoAllocate, s)),
        Name::AllocatePair(op) => Family::Pair(op, pair_from(mode_for(tail_at(s.words[5].key)), s)),
        Name::Exclusive(op, size) => Family::Exclusive(op, exclusive_from(size, s)),
        Name::StoreExclusive(op, size) => {
            Family::StoreExclusive(op, store_exclusive_from(size, s))
        }
    }
}

pub fn build(s: Scan) -> Instruction
    ensures { result ≡ build_of (scan_of s) }
{
    Instruction {
        family: family_for(name_for(s.words[1].key, s.words[0].key), s),
    }
}
