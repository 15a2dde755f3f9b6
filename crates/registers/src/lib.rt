// The register file: X0 to X30 and SP, each with its taints: a number with a byte for each byte of the value, of which any
// but 0 is tainted. A file is handed over and given back by value.
// A register is asked for by number in two ways: 31 is SP, or it is the zero register, which no number from
// 32 on is told from: both read 0, untainted, and setting them changes nothing.
#![tactic(auto)]

mod lent;

ghost use Rattle.std.specs.Prelude.{◌≡◌};
ghost use Rattle.registers.specs.File.{zero_slot, value_at, taints_at, set_at};

pub use lent::value_in;

// Two arrays and not one of pairs, since the C interface has them so.
#[repr(C)]
#[derive(Clone, Copy)]
pub struct Registers {
    pub value: [u64; 32],
    pub taint: [u64; 32],
}

// The number of a register where 31 is the zero register, which is then 64, and no Option: definitions look it up in a file.
pub fn zero_slot(n: u32) -> u32
    ensures { result ≡ zero_slot n }
{
    if n == 31 { 64 } else { n }
}

impl Registers {
    pub fn get(self, n: u32) -> u64
        ensures { result ≡ value_at self n }
    {
        value_in(&self.value, n)
    }

    pub fn taints(self, n: u32) -> u64
        ensures { result ≡ taints_at self n }
    {
        value_in(&self.taint, n)
    }

    pub fn set(mut self, n: u32, value: u64, taints: u64) -> Self
        ensures { result ≡ set_at self n value taints }
    {
        if n < 32 {
            let i = n as usize;
            self.value[i] = value;
            self.taint[i] = taints;
        }
        self
    }

    pub fn get_zero(self, n: u32) -> u64
        ensures { result ≡ value_at self (zero_slot n) }
    {
        self.get(zero_slot(n))
    }

    pub fn taints_zero(self, n: u32) -> u64
        ensures { result ≡ taints_at self (zero_slot n) }
    {
        self.taints(zero_slot(n))
    }

    pub fn set_zero(self, n: u32, value: u64, taints: u64) -> Self
        ensures { result ≡ set_at self (zero_slot n) value taints }
    {
        self.set(zero_slot(n), value, taints)
    }
}
