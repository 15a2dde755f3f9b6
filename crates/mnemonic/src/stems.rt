// The stems of mnemonics.
ghost use Rattle.std.specs.Prelude.{◌≡◌};
ghost use Rattle.mnemonic.specs.route.Parts.{by_kind, sized_stem, allocate_stem, pair_stem, exclusive_stem};

use crate::Stem;
use instruction::PairMode;

// What kinds of operations there are by their names.
#[derive(Clone, Copy)]
pub enum Kind {
    Store,
    Load,
    Hint,
}

// A stem's highest byte says how many letters it has.
pub fn sized_stem(stem: Stem, kind: Kind) -> u64
    ensures { result ≡ sized_stem stem kind }
{
    match stem {
        Stem::Plain => by_kind(
            kind,
            0x300_0000_0072_7473, // str
            0x300_0000_0072_646c, // ldr
            0x400_0000_6d66_7270, // prfm
        ),
        Stem::Unscale => by_kind(
            kind,
            0x400_0000_7275_7473, // stur
            0x400_0000_7275_646c, // ldur
            0x500_006d_7566_7270, // prfum
        ),
        Stem::Order => by_kind(
            kind,
            0x500_0072_756c_7473, // stlur
            0x600_7275_7061_646c, // ldapur
            0x500_006d_7566_7270, // prfum
        ),
    }
}

pub fn pair_stem(mode: PairMode, kind: Kind) -> u64
    ensures { result ≡ pair_stem mode kind }
{
    match mode {
        PairMode::NoAllocate => by_kind(
            kind,
            0x300_0000_006e_7473, // stn
            0x300_0000_006e_646c, // ldn
            0x300_0000_006e_646c, // ldn
        ),
        PairMode::Post | PairMode::Offset | PairMode::Pre => allocate_stem(kind),
    }
}

fn allocate_stem(kind: Kind) -> u64
    ensures { result ≡ allocate_stem kind }
{
    by_kind(
        kind,
        0x200_0000_0000_7473, // st
        0x200_0000_0000_646c, // ld
        0x200_0000_0000_646c, // ld
    )
}

fn by_kind(kind: Kind, store: u64, load: u64, hint: u64) -> u64
    ensures { result ≡ by_kind kind store load hint }
{
    match kind {
        Kind::Store => store,
        Kind::Load => load,
        Kind::Hint => hint,
    }
}

// By bit 23, L and bit 15.
pub fn exclusive_stem(code: u32) -> u64
    ensures { result ≡ exclusive_stem code }
{
    match code {
        0b000 => 0x400_0000_7278_7473, // stxr
        0b001 => 0x500_0072_786c_7473, // stlxr
        0b010 => 0x400_0000_7278_646c, // ldxr
        0b011 => 0x500_0072_7861_646c, // ldaxr
        0b101 => 0x400_0000_726c_7473, // stlr
        0b111 => 0x400_0000_7261_646c, // ldar
        _ => 0,
    }
}
