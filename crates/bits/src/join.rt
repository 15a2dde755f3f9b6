// Bytes from an index on as one number, the first lowest. They are joined by halves of halves and without a loop, of which
// the compiler makes one load. A byte past the end is 0.
ghost use Rattle.std.specs.Prelude.{◌≡◌, ◌+◌, ◌<◌, ◌≤◌, length, slice_index};
ghost use Rattle.bits.specs.route.Joins.{Joins};

pub fn eight_at(bytes: &[u8], at: usize) -> u64
    ensures { Joins bytes.now at 8 result }
{
    if bytes.len() < at {
        return 0;
    }
    if bytes.len() - at >= 8 {
        return eight(bytes, at);
    }
    if bytes.len() - at >= 4 {
        let low = four(bytes, at);
        return low + last_four(bytes, at + 4) * 0x1_0000_0000;
    }
    last_four(bytes, at)
}

pub fn four_at(bytes: &[u8], at: usize) -> u64
    ensures { Joins bytes.now at 4 result }
{
    if bytes.len() < at {
        return 0;
    }
    if bytes.len() - at >= 4 {
        return four(bytes, at);
    }
    last_four(bytes, at)
}

pub fn byte_at(bytes: &[u8], at: usize) -> u8
    ensures { result ≡ slice_index bytes.now at }
{
    bytes.get(at).copied().unwrap_or(0)
}

// Eight, four and two bytes that are all there.
fn eight(bytes: &[u8], at: usize) -> u64
    requires { at + 8 ≤ length bytes.now }
    ensures { Joins bytes.now at 8 result }
{
    let low = four(bytes, at);
    low + four(bytes, at + 4) * 0x1_0000_0000
}

fn four(bytes: &[u8], at: usize) -> u64
    requires { at + 4 ≤ length bytes.now }
    ensures { Joins bytes.now at 4 result }
{
    let low = two(bytes, at);
    low + two(bytes, at + 2) * 0x1_0000
}

fn two(bytes: &[u8], at: usize) -> u64
    requires { at + 2 ≤ length bytes.now }
    ensures { Joins bytes.now at 2 result }
{
    let low = wide(bytes[at]);
    low + wide(bytes[at + 1]) * 0x100
}

// Four bytes of which the last are past the end.
fn last_four(bytes: &[u8], at: usize) -> u64
    requires { (at ≤ length bytes.now) × (length bytes.now < at + 4) }
    ensures { Joins bytes.now at 4 result }
{
    if bytes.len() - at >= 2 {
        let low = two(bytes, at);
        return low + wide(byte_at(bytes, at + 2)) * 0x1_0000;
    }
    wide(byte_at(bytes, at))
}

// A byte as a number to join.
pub fn wide(byte: u8) -> u64
    ensures { (result ≡ byte) × (result < 256) }
{
    u64::from(byte)
}
