// The line of an instruction in pieces.
ghost use Rattle.std.specs.Prelude.{◌≡◌, ◌++◌, ◌<◌, nat_abs};
ghost use Rattle.instruction.specs.route.Bounds.{LiteralBounds, PairBounds, IndexBounds, ExclusiveBounds, StoreExclusiveBounds, Bounded};
ghost use Rattle.ascii.specs.Ascii.{asc};
ghost use Rattle.mnemonic.specs.Mnemonics.{plain_name, sized_name};
ghost use Rattle.mnemonic.specs.Operands.{letter_of, access_operand};
ghost use Rattle.text.specs.Texts.{base_text, pair_tail, index_tail, literal_text, pair_text, sized_text, exclusive_text, store_exclusive_text, family_text};
ghost use Rattle.text.specs.route.Pieces.{text_in};
ghost use Rattle.text.specs.route.Lines.{Made, ahead};

use crate::piece::{Front, Piece, Pieces};
use crate::{form, index, register};
use instruction::{
    AccessSize, ExclusiveOp, ExclusiveOperands, Family, IndexOperands, LiteralOp, LiteralOperands,
    OffsetOperands, PairMode, PairOp, PairOperands, SizedOp, StoreExclusiveOp,
    StoreExclusiveOperands,
};
use mnemonic::Stem;

pub fn pieces_of(family: Family) -> Pieces
    requires { Bounded family }
    ensures { Made (family_text family) result }
{
    match family {
        Family::Empty => nothing(),
        Family::Literal(op, o) => literal(op, o),
        Family::Pair(op, o) => pair(op, o),
        Family::Ordered(op, o) => sized(Stem::Order, PairMode::Offset, op, o),
        Family::Unscaled(op, o) => sized(Stem::Unscale, PairMode::Offset, op, o),
        Family::PostIndex(op, o) => sized(Stem::Plain, PairMode::Post, op, o),
        Family::PreIndex(op, o) => sized(Stem::Plain, PairMode::Pre, op, o),
        Family::Register(op, o) => indexed(op, o),
        Family::Unsigned(op, o) => sized(Stem::Plain, PairMode::Offset, op, o),
        Family::Exclusive(op, o) => exclusive(op, o),
        Family::StoreExclusive(op, o) => store_exclusive(op, o),
    }
}

fn nothing() -> Pieces
    ensures { Made (family_text Family.Empty) result }
{
    let none = form::none();
    Pieces {
        name: none,
        first: none,
        second: none,
        third: none,
        fourth: none,
        last: none,
    }
}

fn literal(op: LiteralOp, o: LiteralOperands) -> Pieces
    requires { LiteralBounds o }
    ensures { Made (literal_text op o) result }
{
    let m = mnemonic::literal_name(op);
    let front = form::front(m, o.target);
    let rest = form::rest_operand(m, o.target, form::none());
    form::literal(front, rest, o.offset)
}

fn pair(op: PairOp, o: PairOperands) -> Pieces
    requires { PairBounds o }
    ensures { Made (pair_text op o) result }
{
    let mode = o.mode;
    let m = mnemonic::pair_name(mode, op);
    let second = register::operand((m.shape / 256) as u8, o.second);
    in_mode(mode, form::front(m, o.first), second, o.base, o.offset)
}

// Inlined with `sized`, so that each caller's mode is known: a text takes a sixth fewer instructions.
#[inline(always)]
fn in_mode(mode: PairMode, front: Front, second: Piece, base: u32, offset: i64) -> Pieces
    requires { (base < 32) × (nat_abs offset < 10000000) }
    ensures { Made (ahead front ++ text_in second ++ asc "[" ++ base_text base ++ pair_tail mode offset) result }
{
    match mode {
        PairMode::NoAllocate => form::plain(front, second, base, offset),
        PairMode::Post => form::post(front, second, base, offset),
        PairMode::Offset => form::plain(front, second, base, offset),
        PairMode::Pre => form::pre(front, second, base, offset),
    }
}

#[inline(always)]
fn sized(stem: Stem, mode: PairMode, op: SizedOp, o: OffsetOperands) -> Pieces
    requires { (o.target < 32) × (o.base < 32) × (nat_abs o.offset < 10000000) }
    ensures { Made (sized_text (sized_name stem op) op o.target o.base (pair_tail mode o.offset)) result }
{
    let m = mnemonic::sized_name(stem, op);
    let front = form::front(m, o.target);
    let rest = form::rest_operand(m, o.target, form::none());
    in_mode(mode, front, rest, o.base, o.offset)
}

fn indexed(op: SizedOp, o: IndexOperands) -> Pieces
    requires { IndexBounds o }
    ensures { Made (sized_text (plain_name op) op o.target o.base (index_tail op o)) result }
{
    let m = mnemonic::sized_name(Stem::Plain, op);
    let bracket = Piece {
        bytes: 0x5b, // [
        length: 1,
    };
    let front = form::front(m, o.target);
    let rest = form::rest_operand(m, o.target, bracket);
    index::indexed(front, rest, o, instruction::scale(op))
}

fn exclusive(op: ExclusiveOp, o: ExclusiveOperands) -> Pieces
    requires { ExclusiveBounds o }
    ensures { Made (exclusive_text op o) result }
{
    let size = o.size;
    let m = mnemonic::exclusive_name(op, size);
    form::plain(form::front(m, o.target), form::none(), o.base, 0)
}

fn store_exclusive(op: StoreExclusiveOp, o: StoreExclusiveOperands) -> Pieces
    requires { StoreExclusiveBounds o }
    ensures { Made (store_exclusive_text op o) result }
{
    let size = o.size;
    let m = mnemonic::store_exclusive_name(op, size);
    let data = register::operand(data_letter(size), o.target);
    form::plain(form::front(m, o.status), data, o.base, 0)
}

fn data_letter(size: AccessSize) -> u8
    ensures { result ≡ letter_of (access_operand size) }
{
    match size {
        AccessSize::Byte | AccessSize::Half | AccessSize::Word => b'w',
        AccessSize::Double => b'x',
    }
}
