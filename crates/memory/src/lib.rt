// The bytes of a number at the start of a part of memory, and their taints. The part is lent from the first
// byte of an access to the end of memory. A byte past the end reads 0 and is not written.
#![tactic(auto)]

mod eight;
mod ones;

ghost use Rattle.std.specs.Prelude.{◌≡◌, map, ◌*◌, ◌<◌, ◌^◌, min, set};
ghost use Rattle.std.proofs.lemmas.List.Edits.{sets};
ghost use Rattle.bits.specs.Bytes.{bytes_of, joined, span_of};
ghost use Rattle.memory.specs.Taints.{normal};

pub use ones::normal;

// The low n bytes of a number, the lowest first.
pub fn store(part: &mut [u8], n: usize, number: u64)
    ensures { part.new ≡ sets part.old 0 (bytes_of n number) }
{
    if n <= 8 && part.len() >= 8 {
        eight::put_low(part, n, number);
    } else {
        store_by_byte(part, n, number);
    }
}

fn store_by_byte(part: &mut [u8], n: usize, number: u64)
    ensures { part.new ≡ sets part.old 0 (bytes_of n number) }
{
    let mut rest = number;
    for i in 0..n.min(part.len()) {
        part[i] = (rest % 256) as u8;
        rest /= 256;
    }
}

// The taint bytes of the low n bytes of a number of taints, each 0 or 1.
pub fn store_taints(part: &mut [u8], n: usize, taints: u64)
    ensures { part.new ≡ sets part.old 0 (map normal (bytes_of n taints)) }
{
    store(part, n, ones::normal(taints));
}

// The number that the first n bytes make, at most 8 of them.
pub fn load(part: &[u8], n: usize) -> u64
    ensures { (result ≡ joined (span_of part.now 0 (min n 8))) × (result < 256 ^ min n 8) }
{
    eight::cut(bits::eight_at(part, 0), n.min(8))
}

// The number that the first n taint bytes make, at most 8 of them, each as 0 or 1.
pub fn load_taints(part: &[u8], n: usize) -> u64
    ensures { (result ≡ joined (map normal (span_of part.now 0 (min n 8)))) × (result * 255 < 256 ^ min n 8) }
{
    ones::normal(eight::cut(bits::eight_at(part, 0), n.min(8)))
}
