// A case of the input: eight numbers of eight bytes each, little-endian.

pub const BYTES: usize = 64;

// What the case is: the number of a record's family, or this.
pub const WORD: u64 = 10;

// For a word, the second number is the word. Numbers that a case does not use are 0.
#[derive(Clone, Copy)]
pub struct Case {
    pub what: u64,
    pub operation: u64,
    pub target: u64,
    pub base: u64,
    // The second register of a pair, an index, or the status of a store-exclusive.
    pub second: u64,
    // The mode of a pair, or the option of an index.
    pub mode: u64,
    pub scaled: u64,
    pub offset: i64,
}

impl Case {
    // Bytes past the end are 0.
    pub fn from_bytes(bytes: &[u8]) -> Case {
        let number = |at: usize| bits::eight_at(bytes, at);
        Case {
            what: number(0),
            operation: number(8),
            target: number(16),
            base: number(24),
            second: number(32),
            mode: number(40),
            scaled: number(48),
            offset: number(56).cast_signed(),
        }
    }
}
