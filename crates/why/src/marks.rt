// Whether a byte was tainted at the start: of a register, of a vector register or of memory.
ghost use Rattle.std.specs.Prelude.{◌≡◌, ◌/◌, ◌%◌, ◌++◌, map, slice_index};
ghost use Rattle.memory.specs.Taints.{tainted, byte_at};
ghost use Rattle.vectors.specs.File.{wide, number_of};

use vectors::Halves;

// By 16 times the slot plus the byte.
pub fn register_start(register_taint: &[u64; 32], vector_taint: &[[u64; 2]; 32], part: u64) -> bool
    ensures { result ≡ tainted (byte_at (part % 16) (slice_index (register_taint.now ++ map wide vector_taint.now) (part / 16))) }
{
    machine::counted(*register_taint);
    vectors::held(*vector_taint);
    let slot = part / 16;
    if slot < 32 {
        byte_start(register_taint[slot as usize], part % 16)
    } else if slot < 64 {
        halves_start(
            vectors::halves_in(vector_taint, (slot - 32) as u32),
            part % 16,
        )
    } else {
        false
    }
}

fn halves_start(h: Halves, k: u64) -> bool
    ensures { result ≡ tainted (byte_at k (number_of h)) }
{
    if k < 8 {
        byte_start(h.low, k)
    } else {
        byte_start(h.high, k - 8)
    }
}

// A number of taints has a byte for each byte.
fn byte_start(taints: u64, k: u64) -> bool
    ensures { result ≡ tainted (byte_at k taints) }
{
    k < 8 && (taints >> (8 * k)) % 256 != 0
}

pub fn cell_start(taint: &[u8], i: u64) -> bool
    ensures { result ≡ tainted (slice_index taint.now i) }
{
    bits::byte_at(taint, i as usize) != 0
}
