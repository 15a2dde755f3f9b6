// The instruction that numbers name, where they are those of one.
ghost use Rattle.std.specs.Prelude.{◌≡◌};
ghost use Rattle.plain.specs.route.Named.{instruction_named, family_named, literal_named, pair_named, offset_named, index_named, exclusive_named};

use crate::record::Plain;
use instruction::{
    ExclusiveOperands, Family, IndexOperands, Instruction, LiteralOperands, OffsetOperands,
    PairOperands, StoreExclusiveOperands,
};

#[tactic(auto, unfolding(crate::specs::route::Named::instruction_named))]
pub fn instruction_of(p: Plain) -> Instruction
    ensures { result ≡ instruction_named p }
{
    Instruction {
        family: family_of(p),
    }
}

fn family_of(p: Plain) -> Family
    ensures { result ≡ family_named p }
{
    match p.family {
        1 => literal(p),
        2 => pair(p),
        3 => Family::Ordered(instruction::sized_at(p.operation), offset(p)),
        4 => Family::Unscaled(instruction::sized_at(p.operation), offset(p)),
        5 => Family::PostIndex(instruction::sized_at(p.operation), offset(p)),
        6 => Family::PreIndex(instruction::sized_at(p.operation), offset(p)),
        7 => index(p),
        8 => Family::Unsigned(instruction::sized_at(p.operation), offset(p)),
        9 => exclusive(p),
        _ => Family::Empty,
    }
}

fn literal(p: Plain) -> Family
    ensures { result ≡ literal_named p }
{
    let op = instruction::literal_at(p.operation);
    Family::Literal(
        op,
        LiteralOperands {
            target: p.target,
            offset: p.offset,
        },
    )
}

fn pair(p: Plain) -> Family
    ensures { result ≡ pair_named p }
{
    let op = instruction::pair_at(p.operation);
    let mode = instruction::mode_at(p.mode);
    Family::Pair(
        op,
        PairOperands {
            first: p.target,
            second: p.second,
            base: p.base,
            mode,
            offset: p.offset,
        },
    )
}

fn offset(p: Plain) -> OffsetOperands
    ensures { result ≡ offset_named p }
{
    OffsetOperands {
        target: p.target,
        base: p.base,
        offset: p.offset,
    }
}

fn index(p: Plain) -> Family
    ensures { result ≡ index_named p }
{
    let op = instruction::sized_at(p.operation);
    Family::Register(
        op,
        IndexOperands {
            target: p.target,
            base: p.base,
            index: p.index,
            option: p.option,
            scaled: p.scaled,
        },
    )
}

fn exclusive(p: Plain) -> Family
    ensures { result ≡ exclusive_named p }
{
    let size = instruction::size_at(p.operation / 8);
    let code = p.operation % 8;
    if code < 2 {
        return Family::StoreExclusive(
            instruction::store_exclusive_at(code),
            StoreExclusiveOperands {
                size,
                status: p.status,
                target: p.target,
                base: p.base,
            },
        );
    }
    Family::Exclusive(
        instruction::exclusive_at(code),
        ExclusiveOperands {
            size,
            target: p.target,
            base: p.base,
        },
    )
}
