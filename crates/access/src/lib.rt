// An instruction as one access: what it moves between registers and memory, and how its address is formed.
// What comes after it knows no families. Registers are slots, numbers that definitions count with: 0 to 30, 31 for SP, 32 to 63
// for vector registers, and 64 for none.
#![tactic(auto)]

mod addressing;
mod transfer;

ghost use Rattle.std.specs.Prelude.{◌≡◌};
ghost use Rattle.access.specs.Accesses.{is_prefetch, sized_access, literal_moves, literal_access, pair_access, exclusive_access, store_exclusive_access, family_access, access_of};

pub use addressing::Addressing;
use instruction::{
    ExclusiveOp, ExclusiveOperands, Family, Instruction, LiteralOp, LiteralOperands, PairOp,
    PairOperands, SizedOp, StoreExclusiveOperands,
};
use transfer::NONE;
pub use transfer::Transfer;

// A prefetch touches nothing. This is no Option, since the definitions of a step and of what a trace can show match on it.
#[derive(Clone, Copy)]
pub enum Access {
    Nothing,
    Moves(Transfer, Addressing),
}

#[tactic(auto, unfolding(crate::specs::Accesses::access_of))]
pub fn access_of(instruction: Instruction) -> Access
    ensures { result ≡ access_of instruction }
{
    family_access(instruction.family)
}

fn family_access(family: Family) -> Access
    ensures { result ≡ family_access family }
{
    match family {
        Family::Empty => Access::Nothing,
        Family::Literal(op, o) => literal_access(op, o),
        Family::Pair(op, o) => pair_access(op, o),
        Family::Ordered(op, o) => sized_access(op, o.target, true, addressing::offset(o)),
        Family::Unscaled(op, o) => sized_access(op, o.target, false, addressing::offset(o)),
        Family::PostIndex(op, o) => sized_access(op, o.target, false, addressing::post(o)),
        Family::PreIndex(op, o) => sized_access(op, o.target, false, addressing::pre(o)),
        Family::Register(op, o) => sized_access(op, o.target, false, addressing::indexed(op, o)),
        Family::Unsigned(op, o) => sized_access(op, o.target, false, addressing::offset(o)),
        Family::Exclusive(op, o) => exclusive_access(op, o),
        Family::StoreExclusive(op, o) => store_exclusive_access(o),
    }
}

#[tactic(auto, unfolding(crate::specs::Accesses::sized_access))]
fn sized_access(op: SizedOp, target: u32, ordered: bool, addressing: Addressing) -> Access
    ensures { result ≡ sized_access op target ordered addressing }
{
    if is_prefetch(op) {
        Access::Nothing
    } else {
        Access::Moves(transfer::sized(op, target, ordered), addressing)
    }
}

#[tactic(auto, unfolding(crate::specs::Accesses::is_prefetch))]
fn is_prefetch(op: SizedOp) -> bool
    ensures { result ≡ is_prefetch op }
{
    instruction::sized_code(op) == 0b0_11_10
}

fn literal_access(op: LiteralOp, o: LiteralOperands) -> Access
    ensures { result ≡ literal_access op o }
{
    match op {
        LiteralOp::LiteralWord => literal_moves(0, 4, 4, o),
        LiteralOp::LiteralDouble => literal_moves(0, 8, 8, o),
        LiteralOp::LiteralSignedWord => literal_moves(0, 4, 8, o),
        LiteralOp::LiteralPrefetch => Access::Nothing,
        LiteralOp::LiteralVectorWord => literal_moves(1, 4, 4, o),
        LiteralOp::LiteralVectorDouble => literal_moves(1, 8, 8, o),
        LiteralOp::LiteralVectorQuad => literal_moves(1, 16, 16, o),
    }
}

#[tactic(auto, unfolding(crate::specs::Accesses::literal_moves))]
fn literal_moves(vector: u32, bytes: u32, extent: u32, o: LiteralOperands) -> Access
    ensures { result ≡ literal_moves vector bytes extent o }
{
    Access::Moves(
        transfer::literal(vector, bytes, extent, o.target),
        addressing::literal(o),
    )
}

#[tactic(auto, unfolding(crate::specs::Accesses::pair_access))]
fn pair_access(op: PairOp, o: PairOperands) -> Access
    ensures { result ≡ pair_access op o }
{
    Access::Moves(transfer::pair(op, o.first, o.second), addressing::paired(o))
}

#[tactic(auto, unfolding(crate::specs::Accesses::exclusive_access))]
fn exclusive_access(op: ExclusiveOp, o: ExclusiveOperands) -> Access
    ensures { result ≡ exclusive_access op o }
{
    Access::Moves(
        transfer::exclusive(op, o.size, o.target),
        addressing::based(o.base, 0, false, NONE),
    )
}

// The slot of the writeback is that of the status.
#[tactic(auto, unfolding(crate::specs::Accesses::store_exclusive_access))]
fn store_exclusive_access(o: StoreExclusiveOperands) -> Access
    ensures { result ≡ store_exclusive_access o }
{
    Access::Moves(
        transfer::store_exclusive(o.size, o.target),
        addressing::based(o.base, 0, false, registers::zero_slot(o.status)),
    )
}
