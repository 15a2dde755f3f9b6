// What stands behind the stem of a mnemonic, by the code of its operation, with the operation's kind and the letter of its
// first operand. No branch depends on the operation: each part is a table of its own, which a match on the operation itself
// does not become.
ghost use Rattle.std.specs.Prelude.{◌≡◌};
ghost use Rattle.instruction.specs.Operations.{sized_at, pair_at};
ghost use Rattle.mnemonic.specs.route.Parts.{entry_of, sized_entry, pair_entry, behind_stem};

use crate::Mnemonic;
use crate::stems::Kind;

#[derive(Clone, Copy)]
pub struct Entry {
    pub kind: Kind,
    pub letters: u64,
    pub shape: u16,
}

impl Entry {
    // The mnemonic with a stem in front.
    pub fn behind(self, stem: u64) -> Mnemonic
        ensures { result ≡ behind_stem stem self.letters self.shape }
    {
        let count = stem / 0x100_0000_0000_0000;
        let letters = self.letters << (8 * (count % 8));
        Mnemonic {
            letters: (stem % 0x100_0000_0000_0000).wrapping_add(letters),
            shape: self.shape.wrapping_add(count as u16),
        }
    }
}

// By bit 26, size and opc.
#[tactic(auto, unfolding(instruction::specs::Operations::sized_at))]
pub fn sized_entry(code: u32) -> Entry
    ensures { result ≡ sized_entry (sized_at code) }
{
    match code {
        0b00_00 => made(Kind::Store, 0x62, 0x7701), // b
        0b00_01 => made(Kind::Load, 0x62, 0x7701), // b
        0b00_10 => made(Kind::Load, 0x6273, 0x7802), // sb
        0b00_11 => made(Kind::Load, 0x6273, 0x7702), // sb
        0b01_00 => made(Kind::Store, 0x68, 0x7701), // h
        0b01_01 => made(Kind::Load, 0x68, 0x7701), // h
        0b01_10 => made(Kind::Load, 0x6873, 0x7802), // sh
        0b01_11 => made(Kind::Load, 0x6873, 0x7702), // sh
        0b10_00 => made(Kind::Store, 0, 0x7700),
        0b10_01 => made(Kind::Load, 0, 0x7700),
        0b10_10 => made(Kind::Load, 0x7773, 0x7802), // sw
        0b11_00 => made(Kind::Store, 0, 0x7800),
        0b11_01 => made(Kind::Load, 0, 0x7800),
        0b1_00_00 => made(Kind::Store, 0, 0x6200),
        0b1_00_01 => made(Kind::Load, 0, 0x6200),
        0b1_00_10 => made(Kind::Store, 0, 0x7100),
        0b1_00_11 => made(Kind::Load, 0, 0x7100),
        0b1_01_00 => made(Kind::Store, 0, 0x6800),
        0b1_01_01 => made(Kind::Load, 0, 0x6800),
        0b1_10_00 => made(Kind::Store, 0, 0x7300),
        0b1_10_01 => made(Kind::Load, 0, 0x7300),
        0b1_11_00 => made(Kind::Store, 0, 0x6400),
        0b1_11_01 => made(Kind::Load, 0, 0x6400),
        _ => made(Kind::Hint, 0, 0x2300),
    }
}

// By bit 26, opc and L.
#[tactic(auto, unfolding(instruction::specs::Operations::pair_at))]
pub fn pair_entry(code: u32) -> Entry
    ensures { result ≡ pair_entry (pair_at code) }
{
    match code {
        0b00_0 => made(Kind::Store, 0x70, 0x7701), // p
        0b00_1 => made(Kind::Load, 0x70, 0x7701), // p
        0b01_1 => made(Kind::Load, 0x77_7370, 0x7803), // psw
        0b10_0 => made(Kind::Store, 0x70, 0x7801), // p
        0b1_00_0 => made(Kind::Store, 0x70, 0x7301), // p
        0b1_00_1 => made(Kind::Load, 0x70, 0x7301), // p
        0b1_01_0 => made(Kind::Store, 0x70, 0x6401), // p
        0b1_01_1 => made(Kind::Load, 0x70, 0x6401), // p
        0b1_10_0 => made(Kind::Store, 0x70, 0x7101), // p
        0b1_10_1 => made(Kind::Load, 0x70, 0x7101), // p
        _ => made(Kind::Load, 0x70, 0x7801), // p
    }
}

fn made(kind: Kind, letters: u64, shape: u16) -> Entry
    ensures { result ≡ entry_of kind letters shape }
{
    Entry {
        kind,
        letters,
        shape,
    }
}
