// What the first operand is: a register, or the hint of a prefetch.
// Matched by numbers: the packed key is what the scan makes of a word, and each number has its text beside it.
ghost use Rattle.std.specs.Prelude.{◌≡◌, ◌≤◌};
ghost use Rattle.reader.specs.route.Targets.{low_bits, target_at};

use crate::scan::Word;

// The key has the last eight letters of a hint's name with its comma. A hint without a name is a number, as a register is.
pub fn target_at(word: Word) -> u32
    ensures { result ≡ target_at word.key word.number }
{
    match word.key {
        0x2c70_6565_6b6c_646c => low_bits(word.number), // pldlkeep,
        0x2c6d_7274_736c_646c => low_bits(word.number), // pldlstrm,
        0x2c70_6565_6b6c_696c => 8 + low_bits(word.number), // plilkeep,
        0x2c6d_7274_736c_696c => 8 + low_bits(word.number), // plilstrm,
        0x2c70_6565_6b6c_7473 => 16 + low_bits(word.number), // pstlkeep,
        0x2c6d_7274_736c_7473 => 16 + low_bits(word.number), // pstlstrm,
        _ => (word.number % 32) as u32,
    }
}

// The level and the policy of a hint, by the number that its name makes: each p is 31, and the level a digit.
fn low_bits(number: u64) -> u32
    ensures { (result ≡ low_bits number) × (result ≤ 5) }
{
    match number {
        3141 => 0, // l1keep
        311 => 1, // l1strm
        3151 => 2, // l2keep
        312 => 3, // l2strm
        3161 => 4, // l3keep
        _ => 5, // l3strm
    }
}
