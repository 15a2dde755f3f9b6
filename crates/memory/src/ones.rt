// The bytes of a number, each made 0 or 1.
ghost use Rattle.std.specs.Prelude.{◌≡◌, map};
ghost use Rattle.bits.specs.Bytes.{bytes_of, joined};
ghost use Rattle.memory.specs.Taints.{normal};

// All bytes at once: with 127 added to its low seven bits, a byte that is not 0 has bit 7, or had it.
pub fn normal(taints: u64) -> u64
    ensures { result ≡ joined (map normal (bytes_of 8 taints)) }
{
    let low = taints & 0x7f7f_7f7f_7f7f_7f7f;
    let any = (low + 0x7f7f_7f7f_7f7f_7f7f) | taints;
    (any & 0x8080_8080_8080_8080) / 128
}
