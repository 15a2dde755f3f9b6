// The word with the fields of an instruction, or none where one is out of range. The constants are the
// fixed bits of each row.
ghost use Rattle.std.specs.Prelude.{◌≡◌, ◌<◌, ◌≤◌};
ghost use Rattle.encoder.specs.Encoding.{fixed, word_with, literal_fields, literal_word, pair_fields, pair_word, signed_word, ordered_word, index_word, unsigned_word, exclusive_word, word_of};
ghost use Rattle.encoder.specs.route.Sized.{sized_word};

use crate::offset;
use instruction::{
    AccessSize, Family, IndexOperands, LiteralOp, LiteralOperands, OffsetOperands, PairOp,
    PairOperands, Row, SizedOp,
};

pub fn word_of(family: Family) -> Option<u32>
    ensures { result ≡ word_of family }
{
    match family {
        Family::Empty => None,
        Family::Literal(op, o) => literal_word(op, o),
        Family::Pair(op, o) => pair_word(op, o),
        Family::Ordered(op, o) => ordered_word(op, o),
        Family::Unscaled(op, o) => signed_word(0x3800_0000, op, o),
        Family::PostIndex(op, o) => signed_word(0x3800_0400, op, o),
        Family::PreIndex(op, o) => signed_word(0x3800_0c00, op, o),
        Family::Register(op, o) => index_word(op, o),
        Family::Unsigned(op, o) => unsigned_word(op, o),
        Family::Exclusive(op, o) => {
            let code = instruction::exclusive_code(op);
            exclusive_word(code, o.size, 31, o.target, o.base)
        }
        Family::StoreExclusive(op, o) => {
            let code = instruction::store_exclusive_code(op);
            exclusive_word(code, o.size, o.status, o.target, o.base)
        }
    }
}

#[tactic(auto, using(crate::proofs::Words::signed_below), unfolding(crate::specs::Encoding::literal_word))]
fn literal_word(op: LiteralOp, o: LiteralOperands) -> Option<u32>
    ensures { result ≡ literal_word op o }
{
    let imm19 = offset::imm19(o.offset)?;
    literal_sum(op, o.target, imm19)
}

#[tactic(auto, using(instruction::proofs::Codes::lettered), unfolding(crate::specs::Encoding::word_with))]
fn literal_sum(op: LiteralOp, target: u32, imm19: u32) -> Option<u32>
    requires { imm19 < 524288 }
    ensures { result ≡ word_with (fixed Row.LiteralRow) (literal_fields op target imm19) }
{
    if target >= 32 {
        return None;
    }
    let code = instruction::literal_opc(op) * 0x4000_0000
        + instruction::literal_vector(op) * 0x400_0000;
    Some(0x1800_0000 + code + target + imm19 * 32)
}

#[tactic(auto, using(crate::proofs::Words::signed_below), unfolding(crate::specs::Encoding::pair_word))]
fn pair_word(op: PairOp, o: PairOperands) -> Option<u32>
    ensures { result ≡ pair_word op o }
{
    let imm7 = offset::imm7(o.offset, op)?;
    pair_sum(op, o, imm7)
}

#[tactic(auto, using(instruction::proofs::Codes::paired, instruction::proofs::Codes::mode_below), unfolding(crate::specs::Encoding::word_with))]
fn pair_sum(op: PairOp, o: PairOperands, imm7: u32) -> Option<u32>
    requires { imm7 < 128 }
    ensures { result ≡ word_with (fixed Row.PairRow) (pair_fields op o imm7) }
{
    if o.base >= 32 || o.first >= 32 || o.second >= 32 {
        return None;
    }
    let registers = o.base * 32 + o.first + o.second * 0x400;
    let code = instruction::pair_opc(op) * 0x4000_0000
        + instruction::pair_vector(op) * 0x400_0000
        + instruction::mode_code(o.mode) * 0x80_0000
        + instruction::pair_load(op) * 0x40_0000;
    Some(0x2800_0000 + code + registers + imm7 * 0x8000)
}

// The fields that all families with a size have, beside their own, which are in place already.
#[tactic(auto, unfolding(crate::specs::route::Sized::sized_word))]
fn sized_word(op: SizedOp, base: u32, target: u32, own: u32) -> Option<u32>
    requires { own < 0x3a00_0000 }
    ensures { result ≡ sized_word op base target own }
{
    if base >= 32 || target >= 32 {
        return None;
    }
    let size = instruction::size_field(op);
    let vector = instruction::vector_field(op);
    let opc = instruction::opc_field(op);
    let code = size * 0x4000_0000 + vector * 0x400_0000 + opc * 0x40_0000;
    Some(code + base * 32 + target + own)
}

// The ordered family has no vector forms.
#[tactic(auto, unfolding(crate::specs::Encoding::ordered_word))]
fn ordered_word(op: SizedOp, o: OffsetOperands) -> Option<u32>
    ensures { result ≡ ordered_word op o }
{
    if instruction::vector_field(op) == 0 {
        signed_word(0x1900_0000, op, o)
    } else {
        None
    }
}

#[tactic(auto, using(crate::proofs::Words::signed_below, crate::proofs::Words::signed_is), unfolding(crate::specs::Encoding::signed_word))]
fn signed_word(row: u32, op: SizedOp, o: OffsetOperands) -> Option<u32>
    requires { row ≤ 0x3900_0000 }
    ensures { result ≡ signed_word row op o }
{
    let imm9 = offset::imm9(o.offset)?;
    sized_word(op, o.base, o.target, row + imm9 * 0x1000)
}

#[tactic(auto, using(instruction::proofs::Codes::sized), unfolding(crate::specs::Encoding::index_word, crate::specs::Encoding::word_with, crate::specs::route::Sized::sized_word))]
fn index_word(op: SizedOp, o: IndexOperands) -> Option<u32>
    ensures { result ≡ index_word op o }
{
    if o.index >= 32 || o.option >= 8 || o.scaled >= 2 {
        return None;
    }
    let own = 0x3820_0800 + o.index * 0x1_0000 + o.option * 0x2000 + o.scaled * 0x1000;
    sized_word(op, o.base, o.target, own)
}

#[tactic(auto, using(crate::proofs::Words::plain_below, crate::proofs::Words::unsigned_is), unfolding(crate::specs::Encoding::unsigned_word))]
fn unsigned_word(op: SizedOp, o: OffsetOperands) -> Option<u32>
    ensures { result ≡ unsigned_word op o }
{
    let imm12 = offset::imm12(o.offset, op)?;
    sized_word(op, o.base, o.target, 0x3900_0000 + imm12 * 0x400)
}

// A code has bit 23, L and bit 15.
#[tactic(auto, using(instruction::proofs::Codes::scale_below), unfolding(crate::specs::Encoding::exclusive_word, crate::specs::Encoding::word_with))]
fn exclusive_word(code: u32, size: AccessSize, status: u32, target: u32, base: u32) -> Option<u32>
    requires { code < 8 }
    ensures { result ≡ exclusive_word code size status target base }
{
    if status >= 32 || base >= 32 || target >= 32 {
        return None;
    }
    let registers = status * 0x1_0000 + base * 32 + target;
    let operation = code / 4 * 0x80_0000 + code / 2 % 2 * 0x40_0000 + code % 2 * 0x8000;
    Some(0x0800_7c00 + instruction::access_scale(size) * 0x4000_0000 + operation + registers)
}
