// The data bytes of the line at the start of what is left of a text, at their addresses.
ghost use Rattle.std.specs.Prelude.{◌≡◌, true, ◌+◌, ◌≤◌, ltb, leb};
ghost use Rattle.bits.specs.Choice.{pick};
ghost use Rattle.image.specs.Records.{places_in};
ghost use Rattle.image.specs.Import.{put, puts, clears};
ghost use Rattle.image.specs.route.Rest.{SomeBeyond};

use crate::line::{byte_in, first_in};

// Where memory lies: the address of its first byte, and how many there are.
#[derive(Clone, Copy)]
pub struct Span {
    pub origin: u64,
    pub len: u64,
}

impl Span {
    // Whether one of some addresses is outside: the lowest or the highest of them is then.
    fn excludes(self, low: u32, high: u32) -> bool
        requires { low ≤ high }
        ensures { result ≡ pick (ltb low self.origin) true (leb (self.origin + self.len) high) }
    {
        u64::from(low) < self.origin || u64::from(high) - self.origin >= self.len
    }

    // Whether one of so many bytes from an address on is. Those that run on past 2^32 have both ends of the addresses.
    pub fn is_left_by(self, first: u32, count: u8) -> bool
        ensures { SomeBeyond self.origin self.len first count result }
    {
        if count == 0 {
            return false;
        }
        match first.checked_add(u32::from(count - 1)) {
            Some(last) => self.excludes(first, last),
            None => self.excludes(0, u32::MAX),
        }
    }
}

#[tactic(auto, unfolding(crate::specs::Import::put))]
fn put_byte(bytes: &mut [u8], origin: u64, address: u32, byte: u8)
    ensures { bytes.new ≡ put origin address byte bytes.old }
{
    let Some(i) = u64::from(address).checked_sub(origin) else {
        return;
    };
    if (i as usize) < bytes.len() {
        bytes[i as usize] = byte;
    }
}

// Writes the data bytes of the line, and clears their taints.
#[tactic(auto, unfolding(crate::specs::Records::places_in))]
pub fn fill_line(rest: &[u8], upper: u16, origin: u64, memory: &mut [u8], taint: &mut [u8])
    ensures { (memory.new ≡ puts origin (places_in upper rest.now) memory.old) × (taint.new ≡ clears origin (places_in upper rest.now) taint.old) }
{
    if byte_in(rest, 3) != 0 {
        return;
    }
    let first = first_in(rest, upper);
    let count = byte_in(rest, 0);
    for i in 0..count {
        let address = first.wrapping_add(u32::from(i));
        put_byte(memory, origin, address, byte_in(rest, 4 + usize::from(i)));
        put_byte(taint, origin, address, 0);
    }
}
