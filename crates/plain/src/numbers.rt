// The numbers of an instruction.
ghost use Rattle.std.specs.Prelude.{◌≡◌, ◌<◌};
ghost use Rattle.plain.specs.Plains.{plain_of, literal_plain, pair_plain, offset_plain, index_plain, exclusive_plain, sized_moved, literal_moved, sized_load, direction_of};

use crate::record::Plain;
use instruction::{
    AccessSize, Family, IndexOperands, Instruction, LiteralOp, LiteralOperands, OffsetOperands,
    PairOp, PairOperands, SizedOp,
};

#[tactic(auto, unfolding(crate::specs::Plains::plain_of))]
pub fn plain_of(i: Instruction) -> Plain
    ensures { result ≡ plain_of i }
{
    match i.family {
        Family::Empty => Plain::default(),
        Family::Literal(op, o) => literal(op, o),
        Family::Pair(op, o) => pair(op, o),
        Family::Ordered(op, o) => offset(3, op, o),
        Family::Unscaled(op, o) => offset(4, op, o),
        Family::PostIndex(op, o) => offset(5, op, o),
        Family::PreIndex(op, o) => offset(6, op, o),
        Family::Register(op, o) => index(op, o),
        Family::Unsigned(op, o) => offset(8, op, o),
        Family::Exclusive(op, o) => {
            let code = instruction::exclusive_code(op);
            exclusive(code, o.size, 0, o.target, o.base)
        }
        Family::StoreExclusive(op, o) => {
            let code = instruction::store_exclusive_code(op);
            exclusive(code, o.size, o.status, o.target, o.base)
        }
    }
}

fn literal(op: LiteralOp, o: LiteralOperands) -> Plain
    ensures { result ≡ literal_plain op o }
{
    let bytes = literal_moved(op);
    Plain {
        family: 1,
        operation: instruction::literal_code(op),
        direction: direction(bytes, 1),
        bytes,
        target: o.target,
        offset: o.offset,
        ..Plain::default()
    }
}

fn pair(op: PairOp, o: PairOperands) -> Plain
    ensures { result ≡ pair_plain op o }
{
    let bytes = 2 * instruction::pair_bytes(op);
    Plain {
        family: 2,
        operation: instruction::pair_code(op),
        direction: direction(bytes, instruction::pair_load(op)),
        bytes,
        target: o.first,
        second: o.second,
        base: o.base,
        mode: instruction::mode_code(o.mode),
        offset: o.offset,
        ..Plain::default()
    }
}

fn offset(family: u32, op: SizedOp, o: OffsetOperands) -> Plain
    ensures { result ≡ offset_plain family op o }
{
    let bytes = sized_moved(op);
    Plain {
        family,
        operation: instruction::sized_code(op),
        direction: direction(bytes, sized_load(op)),
        bytes,
        target: o.target,
        base: o.base,
        offset: o.offset,
        ..Plain::default()
    }
}

fn index(op: SizedOp, o: IndexOperands) -> Plain
    ensures { result ≡ index_plain op o }
{
    let bytes = sized_moved(op);
    Plain {
        family: 7,
        operation: instruction::sized_code(op),
        direction: direction(bytes, sized_load(op)),
        bytes,
        target: o.target,
        base: o.base,
        index: o.index,
        option: o.option,
        scaled: o.scaled,
        ..Plain::default()
    }
}

// A code has bit 23, L and bit 15.
fn exclusive(code: u32, size: AccessSize, status: u32, target: u32, base: u32) -> Plain
    requires { code < 8 }
    ensures { result ≡ exclusive_plain code size status target base }
{
    let bytes = instruction::access_bytes(size);
    Plain {
        family: 9,
        operation: instruction::access_scale(size) * 8 + code,
        direction: direction(bytes, code / 2 % 2),
        bytes,
        target,
        base,
        status,
        ..Plain::default()
    }
}

// A prefetch moves nothing.
#[tactic(auto, using(crate::proofs::Arms::moves), unfolding(crate::specs::Plains::sized_moved))]
fn sized_moved(op: SizedOp) -> u32
    ensures { result ≡ sized_moved op }
{
    match op {
        SizedOp::Prefetch => 0,
        _ => instruction::sized_bytes(op),
    }
}

#[tactic(auto, unfolding(crate::specs::Plains::literal_moved))]
fn literal_moved(op: LiteralOp) -> u32
    ensures { result ≡ literal_moved op }
{
    match op {
        LiteralOp::LiteralPrefetch => 0,
        LiteralOp::LiteralWord | LiteralOp::LiteralSignedWord | LiteralOp::LiteralVectorWord => 4,
        LiteralOp::LiteralDouble | LiteralOp::LiteralVectorDouble => 8,
        LiteralOp::LiteralVectorQuad => 16,
    }
}

// 1 for a load, and 0 for a store.
#[tactic(auto, unfolding(crate::specs::Plains::sized_load))]
fn sized_load(op: SizedOp) -> u32
    ensures { result ≡ sized_load op }
{
    u32::from(!instruction::sized_stores(op))
}

// By a number that only a load has.
#[tactic(auto, unfolding(crate::specs::Plains::direction_of))]
fn direction(bytes: u32, load: u32) -> u32
    ensures { result ≡ direction_of bytes load }
{
    if bytes == 0 {
        0
    } else if load == 0 {
        2
    } else {
        1
    }
}
