// Bytes of standard input, and the numbers in them, little-endian. Past the end of the bytes there is nothing but 0.
ghost use Rattle.std.specs.Prelude.{◌≡◌, ◌<◌, ◌*◌, ◌^◌, ℕ, min, drop, slice_index};
ghost use Rattle.fields.specs.Numbers.{number_in};

use crate::cases::Halt;
use registers::Registers;
use std::array;

// The input has to have as many.
pub fn fill(rt: &(impl Input + Eprint), bytes: &mut [u8]) -> Result<(), Halt> {
    if console::fill(rt, bytes) < bytes.len() {
        return Err(Halt::CutShort);
    }
    Ok(())
}

// The numbers of 64 bits that some bytes begin with.
pub fn numbers<const N: usize>(bytes: &[u8]) -> [u64; N]
    ensures { (i : ℕ) → i < N → slice_index result i ≡ number_in bytes.now 8 i }
{
    array::from_fn(|i| number(bytes, i, 8))
}

// The numbers of 32 bits, likewise.
pub fn words<const N: usize>(bytes: &[u8]) -> [u32; N]
    ensures { (i : ℕ) → i < N → slice_index result i ≡ number_in bytes.now 4 i }
{
    array::from_fn(|i| number(bytes, i, 4) as u32)
}

fn number(bytes: &[u8], i: usize, width: usize) -> u64
    ensures { (result ≡ number_in bytes.now width i) × (result < 256 ^ min width 8) }
{
    memory::load(behind(bytes, i, width), width)
}

// What stands behind so many pieces.
fn behind(bytes: &[u8], i: usize, width: usize) -> &[u8]
    ensures { result.now ≡ drop (i * width) bytes.now }
{
    bytes.get(i.saturating_mul(width)..).unwrap_or(&[])
}

// The registers: 32 numbers, and behind them a number of taints for each.
pub fn registers(bytes: &[u8]) -> Registers {
    Registers {
        value: numbers(bytes),
        taint: numbers(behind(bytes, 32, 8)),
    }
}

// The vector registers: 32 of two numbers each, the low half first.
pub fn vectors(bytes: &[u8]) -> [[u64; 2]; 32] {
    array::from_fn(|i| numbers(behind(bytes, i, 16)))
}

// And behind them their taints, likewise.
pub fn vector_taint(bytes: &[u8]) -> [[u64; 2]; 32] {
    vectors(behind(bytes, 32, 16))
}
