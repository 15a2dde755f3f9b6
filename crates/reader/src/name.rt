// The name of a line by its mnemonic and first operand: a search in the table of mnemonics, from its end.
ghost use Rattle.std.specs.Prelude.{◌≡◌, ◌%◌};
ghost use Rattle.mnemonic.specs.route.Names.{name_at};
ghost use Rattle.reader.specs.route.Names.{letter_for, aligned, is_name, name_for};

use mnemonic::{Mnemonic, Name};

// The name with the keys of the first operand and the mnemonic. A mnemonic that no name has gives one too: it is a guess.
pub fn name_for(operand: u64, name: u64) -> Name
    ensures { result ≡ name_for operand name }
{
    let letter = letter_for(operand);
    for number in (0..mnemonic::NAMES).rev() {
        if is_name(number, name, letter) {
            return mnemonic::name_at(number);
        }
    }
    mnemonic::name_at(0)
}

// The letter of an operand: w, x, b, h, s, d, q, or # for all others. Matched by numbers: the packed key is what the
// scan makes of a word, and each number has its text beside it.
pub fn letter_for(operand: u64) -> u16
    ensures { result ≡ letter_for operand }
{
    match operand {
        0x2c77_0000_0000_0000 => 0x77, // w,
        0x2c72_7a77_0000_0000 => 0x77, // wzr,
        0x2c78_0000_0000_0000 => 0x78, // x,
        0x2c72_7a78_0000_0000 => 0x78, // xzr,
        0x2c62_0000_0000_0000 => 0x62, // b,
        0x2c68_0000_0000_0000 => 0x68, // h,
        0x2c73_0000_0000_0000 => 0x73, // s,
        0x2c64_0000_0000_0000 => 0x64, // d,
        0x2c71_0000_0000_0000 => 0x71, // q,
        _ => 0x23,
    }
}

fn is_name(number: u32, name: u64, letter: u16) -> bool
    ensures { result ≡ is_name (name_at number) name letter }
{
    let m = mnemonic::mnemonic_at(number);
    (m.shape / 256 == letter) & (high(m) == name)
}

// The letters of a mnemonic in the highest bytes, as a key has them.
fn high(m: Mnemonic) -> u64
    ensures { result ≡ aligned m.letters (m.shape % 256) }
{
    m.letters << (8 * (7 - (m.shape as u64 % 256 + 7) % 8))
}
