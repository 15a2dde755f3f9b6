// An instruction: 01's record. It holds one of the nine families, and the family its own operands.
// Registers are numbers from 0; 31 is SP as a base and the zero register elsewhere. Offsets are in bytes.
use crate::exclusive::{AccessSize, ExclusiveOp, StoreExclusiveOp};
use crate::operation::{LiteralOp, PairMode, PairOp, SizedOp};

#[derive(Clone, Copy)]
pub struct Instruction {
    pub family: Family,
}

#[derive(Clone, Copy)]
pub enum Family {
    // 01's empty record, of a word that is not an instruction.
    Empty,
    Literal(LiteralOp, LiteralOperands),
    Pair(PairOp, PairOperands),
    Ordered(SizedOp, OffsetOperands),
    Unscaled(SizedOp, OffsetOperands),
    PostIndex(SizedOp, OffsetOperands),
    PreIndex(SizedOp, OffsetOperands),
    Register(SizedOp, IndexOperands),
    Unsigned(SizedOp, OffsetOperands),
    // 02's ninth family in two cases: only a store-exclusive has a status register.
    Exclusive(ExclusiveOp, ExclusiveOperands),
    StoreExclusive(StoreExclusiveOp, StoreExclusiveOperands),
}

// The target of a prefetch is its hint.
#[derive(Clone, Copy)]
pub struct LiteralOperands {
    pub target: u32,
    pub offset: i64,
}

#[derive(Clone, Copy)]
pub struct PairOperands {
    pub first: u32,
    pub second: u32,
    pub base: u32,
    pub mode: PairMode,
    pub offset: i64,
}

#[derive(Clone, Copy)]
pub struct OffsetOperands {
    pub target: u32,
    pub base: u32,
    pub offset: i64,
}

// The option says how the index is extended; scaled is 01's S, 0 or 1: the index is shifted by the size.
#[derive(Clone, Copy)]
pub struct IndexOperands {
    pub target: u32,
    pub base: u32,
    pub index: u32,
    pub option: u32,
    pub scaled: u32,
}

#[derive(Clone, Copy)]
pub struct ExclusiveOperands {
    pub size: AccessSize,
    pub target: u32,
    pub base: u32,
}

#[derive(Clone, Copy)]
pub struct StoreExclusiveOperands {
    pub size: AccessSize,
    pub status: u32,
    pub target: u32,
    pub base: u32,
}
