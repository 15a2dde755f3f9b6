// Signed numbers as unsigned ones.
ghost use Rattle.std.specs.Prelude.{◌≡◌, unsigned_abs};
ghost use Rattle.bits.specs.Signed.{twos_complement};

// How far a number is from 0.
pub fn magnitude(number: i64) -> u64
    ensures { result ≡ unsigned_abs number }
{
    number.unsigned_abs()
}

// The 64 bits of a value: what adding it modulo 2^64 adds.
pub fn twos_complement(value: i64) -> u64
    ensures { result ≡ twos_complement value }
{
    value.cast_unsigned()
}
