// The head of a case: seventeen numbers of 64 bits each, little-endian.

#[derive(Clone, Copy)]
pub struct Head {
    // What to call.
    pub what: u64,
    // How many bytes are given, and how many the lent buffer has.
    pub given: usize,
    pub room: usize,
    // The call's own.
    pub numbers: [u64; 14],
}

impl Head {
    pub fn read(bytes: &[u8]) -> Head {
        let [what, given, room, a, b, c, d, e, f, g, h, i, j, k, l, m, n]: [u64; 17] =
            fields::numbers(bytes);
        Head {
            what,
            given: given as usize,
            room: room as usize,
            numbers: [a, b, c, d, e, f, g, h, i, j, k, l, m, n],
        }
    }

    // Each as a number of 32 bits, or of 8.
    pub fn words(&self) -> [u32; 14] {
        self.numbers.map(|n| (n % 0x1_0000_0000) as u32)
    }

    pub fn bytes(&self) -> [u8; 14] {
        self.numbers.map(|n| (n % 256) as u8)
    }

    // Numbers 12 and 13 as one: n, or -1 - n where the second is not 0.
    pub fn signed(&self) -> i64 {
        let [.., n, below] = self.numbers;
        let n = (n % 0x8000_0000_0000_0000) as i64;
        if below == 0 { n } else { -1 - n }
    }
}
