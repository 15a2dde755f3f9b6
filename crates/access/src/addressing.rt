// How the address of an access is formed.
ghost use Rattle.std.specs.Prelude.{◌≡◌};
ghost use Rattle.bits.specs.Signed.{twos_complement};
ghost use Rattle.access.specs.Addressings.{based, offset_mode, pre_mode, post_mode, paired_mode, shift_of, indexed_mode, literal_mode};

use crate::transfer::NONE;
use instruction::{
    IndexOperands, LiteralOperands, OffsetOperands, PairMode, PairOperands, SizedOp,
};

// The base is a register, or the program counter where relative. The offset and the index are added to it,
// the index extended by its option and shifted. Post takes the base alone as the address. The sum is written
// to the slot written; where an access has a status, that is written there. Relative and post are flags,
// since the definition of an address tests them.
#[derive(Clone, Copy)]
pub struct Addressing {
    pub relative: bool,
    pub base: u32,
    pub offset: u64,
    pub index: u32,
    pub option: u32,
    pub shift: u32,
    pub post: bool,
    pub written: u32,
}

// A base and an offset.
#[tactic(auto, unfolding(crate::specs::Addressings::based))]
pub fn based(base: u32, offset: u64, post: bool, written: u32) -> Addressing
    ensures { result ≡ based base offset post written }
{
    Addressing {
        relative: false,
        base,
        offset,
        index: NONE,
        option: 0b011,
        shift: 0,
        post,
        written,
    }
}

pub fn offset(o: OffsetOperands) -> Addressing
    ensures { result ≡ offset_mode o.base (twos_complement o.offset) }
{
    based(o.base, bits::twos_complement(o.offset), false, NONE)
}

pub fn pre(o: OffsetOperands) -> Addressing
    ensures { result ≡ pre_mode o.base (twos_complement o.offset) }
{
    based(o.base, bits::twos_complement(o.offset), false, o.base)
}

pub fn post(o: OffsetOperands) -> Addressing
    ensures { result ≡ post_mode o.base (twos_complement o.offset) }
{
    based(o.base, bits::twos_complement(o.offset), true, o.base)
}

pub fn paired(o: PairOperands) -> Addressing
    ensures { result ≡ paired_mode o.mode o.base (twos_complement o.offset) }
{
    let mode = o.mode;
    in_mode(mode, o.base, bits::twos_complement(o.offset))
}

fn in_mode(mode: PairMode, base: u32, offset: u64) -> Addressing
    ensures { result ≡ paired_mode mode base offset }
{
    match mode {
        PairMode::NoAllocate | PairMode::Offset => based(base, offset, false, NONE),
        PairMode::Post => based(base, offset, true, base),
        PairMode::Pre => based(base, offset, false, base),
    }
}

#[tactic(auto, unfolding(crate::specs::Addressings::based, crate::specs::Addressings::indexed_mode))]
pub fn indexed(op: SizedOp, o: IndexOperands) -> Addressing
    ensures { result ≡ indexed_mode op o }
{
    Addressing {
        index: registers::zero_slot(o.index),
        option: o.option,
        shift: shift(op, o.scaled),
        ..based(o.base, 0, false, NONE)
    }
}

// An index is shifted by the size where S is 1.
#[tactic(auto, unfolding(crate::specs::Addressings::shift_of))]
fn shift(op: SizedOp, scaled: u32) -> u32
    ensures { result ≡ shift_of op scaled }
{
    if scaled == 1 {
        instruction::scale(op)
    } else {
        0
    }
}

#[tactic(auto, unfolding(crate::specs::Addressings::based, crate::specs::Addressings::literal_mode))]
pub fn literal(o: LiteralOperands) -> Addressing
    ensures { result ≡ literal_mode (twos_complement o.offset) }
{
    Addressing {
        relative: true,
        ..based(NONE, bits::twos_complement(o.offset), false, NONE)
    }
}
