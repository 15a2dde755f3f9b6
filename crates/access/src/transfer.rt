// What an access moves: registers, and bytes of memory.
ghost use Rattle.std.specs.Prelude.{◌≡◌, false, eqb};
ghost use Rattle.bits.specs.Choice.{pick};
ghost use Rattle.instruction.specs.Operations.{vector_of, opc_of, pair_code};
ghost use Rattle.access.specs.Transfers.{none, slot_of, extent_of, sized_transfer, literal_transfer, pair_transfer, monitored_transfer, exclusive_transfer, store_exclusive_transfer};

use instruction::{AccessSize, ExclusiveOp, PairOp, SizedOp};

// The slot of no register.
pub const NONE: u32 = 64;

// Each register's bytes are moved; the second of a pair lies behind the first, and a single register has no
// bytes there. A loaded number keeps its sign up to the extent, in bytes; it is as long as the number where
// zeros stand above. An ordered access lies in one block of 16 bytes. An exclusive one goes by the monitor. These
// are flags and not an enum, since the definitions of the refusals and of a step test them.
#[derive(Clone, Copy)]
pub struct Transfer {
    pub store: bool,
    pub ordered: bool,
    pub bytes: u32,
    pub more: u32,
    pub extent: u32,
    pub target: u32,
    pub second: u32,
    pub exclusive: bool,
}

#[tactic(auto, unfolding(crate::specs::Transfers::sized_transfer))]
pub fn sized(op: SizedOp, target: u32, ordered: bool) -> Transfer
    ensures { result ≡ sized_transfer op target ordered }
{
    let bytes = instruction::sized_bytes(op);
    Transfer {
        store: instruction::sized_stores(op),
        ordered,
        extent: sized_extent(op, bytes),
        ..loaded(bytes, slot(instruction::vector_field(op), target))
    }
}

// A load of one register, with zeros above the number: what other transfers differ from.
fn loaded(bytes: u32, target: u32) -> Transfer
    ensures { result ≡ record { store = false; ordered = false; bytes = bytes; more = 0; extent = bytes; target = target; second = none; exclusive = false } }
{
    Transfer {
        store: false,
        ordered: false,
        bytes,
        more: 0,
        extent: bytes,
        target,
        second: NONE,
        exclusive: false,
    }
}

// The slot of a register that is moved: a vector register's where bit 26 is 1.
#[tactic(auto, unfolding(crate::specs::Transfers::slot_of))]
fn slot(vector: u32, register: u32) -> u32
    ensures { result ≡ slot_of vector register }
{
    if vector == 1 {
        32 + register % 32
    } else {
        registers::zero_slot(register)
    }
}

// A vector is not extended.
fn sized_extent(op: SizedOp, bytes: u32) -> u32
    ensures { result ≡ pick (eqb (vector_of op) 1) bytes (extent_of (opc_of op) bytes) }
{
    if instruction::vector_field(op) == 1 {
        bytes
    } else {
        extent(instruction::opc_field(op), bytes)
    }
}

#[tactic(auto, unfolding(crate::specs::Transfers::extent_of))]
fn extent(opc: u32, bytes: u32) -> u32
    ensures { result ≡ extent_of opc bytes }
{
    match opc {
        0b10 => 8,
        0b11 => 4,
        _ => bytes,
    }
}

#[tactic(auto, unfolding(crate::specs::Transfers::literal_transfer))]
pub fn literal(vector: u32, bytes: u32, extent: u32, target: u32) -> Transfer
    ensures { result ≡ literal_transfer vector bytes extent target }
{
    Transfer {
        extent,
        ..loaded(bytes, slot(vector, target))
    }
}

#[tactic(auto, unfolding(crate::specs::Transfers::pair_transfer))]
pub fn pair(op: PairOp, first: u32, second: u32) -> Transfer
    ensures { result ≡ pair_transfer op first second }
{
    let bytes = instruction::pair_bytes(op);
    Transfer {
        store: instruction::pair_load(op) == 0,
        more: bytes,
        extent: pair_extent(op, bytes),
        second: slot(instruction::pair_vector(op), second),
        ..loaded(bytes, slot(instruction::pair_vector(op), first))
    }
}

fn pair_extent(op: PairOp, bytes: u32) -> u32
    ensures { result ≡ pick (eqb (pair_code op) 0b0_01_1) 8 bytes }
{
    if instruction::pair_code(op) == 0b0_01_1 {
        8
    } else {
        bytes
    }
}

#[tactic(auto, unfolding(crate::specs::Transfers::exclusive_transfer))]
pub fn exclusive(op: ExclusiveOp, size: AccessSize, target: u32) -> Transfer
    ensures { result ≡ exclusive_transfer op size target }
{
    let code = instruction::exclusive_code(op);
    monitored(code / 2 % 2 == 0, code < 0b100, size, target)
}

pub fn store_exclusive(size: AccessSize, target: u32) -> Transfer
    ensures { result ≡ store_exclusive_transfer size target }
{
    monitored(true, true, size, target)
}

// An access of the ninth family, which is ordered where it is not exclusive.
#[tactic(auto, unfolding(crate::specs::Transfers::monitored_transfer))]
fn monitored(store: bool, exclusive: bool, size: AccessSize, target: u32) -> Transfer
    ensures { result ≡ monitored_transfer store exclusive size target }
{
    Transfer {
        store,
        ordered: !exclusive,
        exclusive,
        ..loaded(
            instruction::access_bytes(size),
            registers::zero_slot(target),
        )
    }
}
