// What stands behind the base: an offset in one of three modes, or an index.
// Matched by numbers: the packed key is what the scan makes of a word, and each number has its text beside it.
ghost use Rattle.std.specs.Prelude.{◌≡◌};
ghost use Rattle.reader.specs.route.Tails.{tail_at, plus_of, minus_of, offset_at, option_at, scaled_at};

use crate::scan::Word;

// An offset that is only added, or added before or after the access to the base itself.
#[derive(Drop)]
pub enum Tail {
    AtOffset,
    Before,
    After,
    Indexed,
}

pub fn tail_at(key: u64) -> Tail
    ensures { result ≡ tail_at key }
{
    match key {
        0 => Tail::AtOffset,
        0x5d23_0000_0000_0000 => Tail::AtOffset, // #]
        0x5d2d_2300_0000_0000 => Tail::AtOffset, // #-]
        0x215d_2300_0000_0000 => Tail::Before, // #]!
        0x215d_2d23_0000_0000 => Tail::Before, // #-]!
        0x2300_0000_0000_0000 => Tail::After, // #
        0x2d23_0000_0000_0000 => Tail::After, // #-
        _ => Tail::Indexed,
    }
}

// No offset is as far from 0 as the modulus, and the cast keeps what is below it.
fn plus(number: u64) -> i64
    ensures { result ≡ plus_of number }
{
    (number % 0x20_0000) as i64
}

fn minus(number: u64) -> i64
    ensures { result ≡ minus_of number }
{
    -((number % 0x20_0000) as i64)
}

pub fn offset_at(word: Word) -> i64
    ensures { result ≡ offset_at word.key word.number }
{
    match word.key {
        0x2d23_0000_0000_0000 => minus(word.number), // #-
        0x5d2d_2300_0000_0000 => minus(word.number), // #-]
        0x215d_2d23_0000_0000 => minus(word.number), // #-]!
        _ => plus(word.number),
    }
}

// The option field. Without a name it is that of lsl.
pub fn option_at(key: u64) -> u32
    ensures { result ≡ option_at key }
{
    match key {
        0 => 0b011,
        0x6c73_6c00_0000_0000 => 0b011, // lsl
        0x5d77_7478_7500_0000 => 0b010, // uxtw]
        0x7774_7875_0000_0000 => 0b010, // uxtw
        0x5d77_7478_7300_0000 => 0b110, // sxtw]
        0x7774_7873_0000_0000 => 0b110, // sxtw
        _ => 0b111,
    }
}

// The S field: an amount follows the name, so that the bracket isn't at its end.
pub fn scaled_at(key: u64) -> u32
    ensures { result ≡ scaled_at key }
{
    match key {
        0x6c73_6c00_0000_0000 => 1, // lsl
        0x7774_7875_0000_0000 => 1, // uxtw
        0x7774_7873_0000_0000 => 1, // sxtw
        0x7874_7873_0000_0000 => 1, // sxtx
        _ => 0,
    }
}
