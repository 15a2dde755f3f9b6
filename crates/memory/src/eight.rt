// A number of eight bytes cut to a width, and stored in the eight bytes at the start of a part, of which the compiler makes
// one store. Each function asks for an n of at most 8, which `store` and `load` have tested: a type for it would be made there and taken
// apart here.
ghost use Rattle.std.specs.Prelude.{◌≡◌, ◌-◌, ◌%◌, ◌^◌, ◌≤◌, length};
ghost use Rattle.std.proofs.lemmas.List.Edits.{sets};
ghost use Rattle.bits.specs.Bytes.{bytes_of};
ghost use Rattle.bits.specs.route.Joins.{under};

// The low n bytes of a number.
#[tactic(auto, using(crate::proofs::Masks::masked))]
pub fn cut(number: u64, n: usize) -> u64
    requires { n ≤ 8 }
    ensures { result ≡ number % 256 ^ n }
{
    number & mask(n)
}

// The largest number of n bytes.
#[tactic(auto, using(crate::proofs::Masks::ones))]
fn mask(n: usize) -> u64
    requires { n ≤ 8 }
    ensures { result ≡ 256 ^ n - 1 }
{
    if n == 0 { 0 } else { u64::MAX >> (64 - 8 * n) }
}

// Puts the low n bytes of a number at the start of a part, as eight bytes of which the others are those that are there.
pub fn put_low(part: &mut [u8], n: usize, number: u64)
    requires { (n ≤ 8) × (8 ≤ length part.old) }
    ensures { part.new ≡ sets part.old 0 (bytes_of n number) }
{
    let old = bits::eight_at(part, 0);
    put_eight(part, merged(old, n, number));
}

fn merged(old: u64, n: usize, number: u64) -> u64
    requires { n ≤ 8 }
    ensures { result ≡ under n number old }
{
    let low = cut(old, n);
    old - low + cut(number, n)
}

#[tactic(auto, unfolding(bits::specs::Bytes::bytes_of))]
fn put_eight(part: &mut [u8], number: u64)
    requires { 8 ≤ length part.old }
    ensures { part.new ≡ sets part.old 0 (bytes_of 8 number) }
{
    part[..8].copy_from_slice(&number.to_le_bytes());
}
