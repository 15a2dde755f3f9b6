// Registers read where the arrays of a file are lent, so that reading copies neither: values, and taints alike. A number
// behind the end of an array reads 0, untainted, as one above 31 does of a file.
ghost use Rattle.std.specs.Prelude.{◌≡◌, get_or};

pub fn value_in(value: &[u64], n: u32) -> u64
    ensures { result ≡ get_or value.now n 0 }
{
    value.get(n as usize).copied().unwrap_or(0)
}
