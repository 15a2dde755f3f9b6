// An instruction from the numbers of a case, and its numbers again: the family in the order of 01's table, then 02's ninth,
// and the operation as the fields of a word that name it.
use crate::case::Case;
use instruction::{
    ExclusiveOperands, Family, IndexOperands, Instruction, LiteralOperands, OffsetOperands,
    PairOperands, SizedOp, StoreExclusiveOperands,
};

// Numbers of no family, operation or mode give the empty instruction.
pub fn instruction_of(c: Case) -> Instruction {
    let family = match c.what {
        1 => literal_of(c),
        2 => pair_of(c),
        3 => sized_of(c).map(|op| Family::Ordered(op, offset_operands(c))),
        4 => sized_of(c).map(|op| Family::Unscaled(op, offset_operands(c))),
        5 => sized_of(c).map(|op| Family::PostIndex(op, offset_operands(c))),
        6 => sized_of(c).map(|op| Family::PreIndex(op, offset_operands(c))),
        7 => sized_of(c).map(|op| Family::Register(op, index_operands(c))),
        8 => sized_of(c).map(|op| Family::Unsigned(op, offset_operands(c))),
        9 => exclusive_of(c),
        _ => None,
    };
    Instruction {
        family: family.unwrap_or(Family::Empty),
    }
}

fn literal_of(c: Case) -> Option<Family> {
    if c.operation > 6 {
        return None;
    }
    let operands = LiteralOperands {
        target: low_half(c.target),
        offset: c.offset,
    };
    Some(Family::Literal(instruction::literal_at(low_half(c.operation)), operands))
}

fn pair_of(c: Case) -> Option<Family> {
    if c.mode > 3 || !matches!(c.operation, 0..=1 | 3..=5 | 8..=13) {
        return None;
    }
    let operands = PairOperands {
        first: low_half(c.target),
        second: low_half(c.second),
        base: low_half(c.base),
        mode: instruction::mode_at(low_half(c.mode)),
        offset: c.offset,
    };
    Some(Family::Pair(instruction::pair_at(low_half(c.operation)), operands))
}

fn sized_of(c: Case) -> Option<SizedOp> {
    match c.operation {
        0..=10 | 12..=14 | 16..=21 | 24..=25 | 28..=29 => {
            Some(instruction::sized_at(low_half(c.operation)))
        }
        _ => None,
    }
}

// Bit 23, L and bit 15, and above them the size.
fn exclusive_of(c: Case) -> Option<Family> {
    let code = low_half(c.operation % 8);
    if c.operation > 31 || matches!(code, 0b100 | 0b110) {
        return None;
    }
    let size = instruction::size_at(low_half(c.operation / 8));
    let target = low_half(c.target);
    let base = low_half(c.base);
    if code < 0b010 {
        let status = low_half(c.second);
        let operands = StoreExclusiveOperands {
            size,
            status,
            target,
            base,
        };
        Some(Family::StoreExclusive(instruction::store_exclusive_at(code), operands))
    } else {
        let operands = ExclusiveOperands { size, target, base };
        Some(Family::Exclusive(instruction::exclusive_at(code), operands))
    }
}

fn offset_operands(c: Case) -> OffsetOperands {
    OffsetOperands {
        target: low_half(c.target),
        base: low_half(c.base),
        offset: c.offset,
    }
}

fn index_operands(c: Case) -> IndexOperands {
    IndexOperands {
        target: low_half(c.target),
        base: low_half(c.base),
        index: low_half(c.second),
        option: low_half(c.mode),
        scaled: low_half(c.scaled),
    }
}

pub fn low_half(n: u64) -> u32 {
    (n % 0x1_0000_0000) as u32
}

// The case that gives this instruction. Beside target and base a family has at most one register.
pub fn case_of(i: Instruction) -> Case {
    let p = plain::plain_of(i);
    let (second, mode) = match p.family {
        2 => (p.second, p.mode),
        7 => (p.index, p.option),
        _ => (p.status, p.mode),
    };
    Case {
        what: p.family.into(),
        operation: p.operation.into(),
        target: p.target.into(),
        base: p.base.into(),
        second: second.into(),
        mode: mode.into(),
        scaled: p.scaled.into(),
        offset: p.offset,
    }
}
