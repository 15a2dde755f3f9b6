// The lines of a case, put together in a fixed buffer before they are written: a program allocates nothing.
ghost use Rattle.std.specs.Prelude.{◌≡◌, ◌<◌, ◌≤◌, true, [], ◌∷◌, length, take};
ghost use Rattle.std.specs.Result.{IsErr};
ghost use Rattle.ascii.specs.route.Puts.{Puts};
ghost use Rattle.io.specs.Digits.{hex_digit_ascii};

use console::Failed;
use machine::Monitor;
use registers::Registers;

// The bytes up to an end, in a buffer of so many as the program's longest case has. What there is no room for is left out.
#[derive(Drop)]
pub struct Lines<const N: usize> {
    bytes: [u8; N],
    end: usize,
}

impl<const N: usize> Lines<N> {
    pub fn new() -> Lines<N>
        ensures { result.end ≡ 0 }
    {
        Lines {
            bytes: [0; N],
            end: 0,
        }
    }

    pub fn clear(&mut self)
        ensures { self.new.end ≡ 0 }
    {
        self.end = 0;
    }

    // Whether two have the same bytes.
    pub fn is_same(&self, other: &Lines<N>) -> bool
        ensures { result ≡ true → (self.now.end ≡ other.now.end) × (self.now.end ≤ length self.now.bytes → self.now.end ≤ length other.now.bytes → take self.now.end self.now.bytes ≡ take self.now.end other.now.bytes) }
    {
        self.end == other.end && self.bytes.get(..self.end) == other.bytes.get(..other.end)
    }

    pub fn write(&self, rt: &(impl Print + Eprint)) -> Result<(), Failed>
        ensures { length self.now.bytes < self.now.end → IsErr result }
    {
        console::write(rt, &self.bytes, self.end)
    }

    pub fn put_byte(&mut self, byte: u8)
        ensures { Puts self.old.bytes self.old.end (byte ∷ []) self.new.bytes self.new.end }
    {
        self.end = ascii::put_byte(&mut self.bytes, self.end, byte);
    }

    pub fn put_text(&mut self, text: &[u8])
        ensures { Puts self.old.bytes self.old.end text.now self.new.bytes self.new.end }
    {
        self.end = ascii::put_text(&mut self.bytes, self.end, text);
    }

    // The start of the first line about a case.
    pub fn put_name(&mut self, number: u64) {
        self.clear();
        self.put_text(b"case");
        self.put_field(number);
    }

    // A number behind its tab.
    pub fn put_field(&mut self, number: u64) {
        self.put_byte(b'\t');
        self.end = ascii::put_decimal(&mut self.bytes, self.end, number);
    }

    // A line of one field, two digits for each byte.
    pub fn put_bytes(&mut self, name: &[u8], bytes: &[u8]) {
        self.put_text(name);
        self.put_byte(b'\t');
        for byte in bytes {
            self.end = ascii::put_bytes(
                &mut self.bytes,
                self.end,
                [digit(*byte / 16), digit(*byte % 16)],
            );
        }
        self.put_byte(b'\n');
    }

    // A line of as many fields as there are numbers.
    pub fn put_numbers(&mut self, name: &[u8], numbers: &[u64]) {
        self.put_text(name);
        for number in numbers {
            self.put_field(*number);
        }
        self.put_byte(b'\n');
    }

    // A line of 32 fields, with a star and its taints behind what is tainted.
    pub fn put_registers(&mut self, file: &Registers) {
        self.put_text(b"registers");
        for (value, taints) in file.value.iter().zip(file.taint.iter()) {
            self.put_register(*value, *taints);
        }
        self.put_byte(b'\n');
    }

    pub fn put_register(&mut self, value: u64, taints: u64) {
        self.put_byte(b'\t');
        self.put_hex(value, 16);
        if taints != 0 {
            self.put_byte(b'*');
            self.put_taints(taints);
        }
    }

    // A line of 32 fields likewise, the high half first.
    pub fn put_vectors(&mut self, vectors: &[[u64; 2]; 32], vector_taint: &[[u64; 2]; 32]) {
        self.put_text(b"vectors");
        for (value, taints) in vectors.iter().zip(vector_taint.iter()) {
            self.put_vector(*value, *taints);
        }
        self.put_byte(b'\n');
    }

    pub fn put_vector(&mut self, value: [u64; 2], taints: [u64; 2]) {
        let [low, high] = value;
        self.put_byte(b'\t');
        self.put_hex(high, 16);
        self.put_hex(low, 16);
        if taints != [0, 0] {
            let [low_taints, high_taints] = taints;
            self.put_byte(b'*');
            self.put_taints(high_taints);
            self.put_taints(low_taints);
        }
    }

    // A digit for each byte, 1 where it is tainted, byte 7 first.
    fn put_taints(&mut self, taints: u64) {
        for taint in taints.to_be_bytes() {
            self.put_byte(if taint == 0 { b'0' } else { b'1' });
        }
    }

    pub fn put_monitor(&mut self, monitor: Monitor) {
        self.put_text(b"monitor");
        self.put_field(monitor.address);
        self.put_field(monitor.size);
        self.put_byte(b'\n');
    }

    fn put_hex(&mut self, number: u64, width: usize) {
        let mut digits = [0u8; 16];
        let n = io::hex(number, width, &mut digits);
        self.put_text(&digits[..n]);
    }
}

// The digit of a number below 16.
fn digit(number: u8) -> u8
    requires { number < 16 }
    ensures { result ≡ hex_digit_ascii number }
{
    if number < 10 {
        b'0' + number
    } else {
        b'a' + (number - 10)
    }
}
