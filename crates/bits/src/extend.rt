// Numbers extended with their sign.
ghost use Rattle.std.specs.Prelude.{◌≡◌, ◌-◌, ◌%◌, ◌^◌, min};
ghost use Rattle.bits.specs.Extension.{largest, extended_of};

// The sign of a number of n bytes is copied up to the extent. No number has more than 8 bytes.
pub fn extended(number: u64, n: u32, extent: u32) -> u64
    ensures { result ≡ extended_of (min n 8) (min extent 8) number % 2 ^ 64 }
{
    let top = largest(n);
    if top / 2 < number {
        number.wrapping_add(largest(extent).saturating_sub(top))
    } else {
        number
    }
}

// The largest number of n bytes, and of 8 where there would be more.
fn largest(n: u32) -> u64
    ensures { result ≡ largest (min n 8) }
{
    if 7 < n {
        u64::MAX
    } else {
        (1u64 << (8 * n)) - 1
    }
}
