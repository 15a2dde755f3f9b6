// Which row of the table a word matches: by keys, where the definition goes row by row.
ghost use Rattle.std.specs.Prelude.{◌≡◌, ◌+◌, ◌*◌};
ghost use Rattle.bits.specs.Fields.{field};
ghost use Rattle.instruction.specs.Table.{row_of};

use instruction::Row;

#[tactic(auto, unfolding(instruction::specs::Table::row_of, bits::specs::Fields::part))]
pub fn row_of(word: u32) -> Row
    ensures { result ≡ row_of word }
{
    let group = word / 0x800_0000 % 8 * 2 + word / 0x200_0000 % 2;
    match group {
        0b001_0 => exclusive(word),
        0b011_0 => literal_or_ordered(word),
        0b101_0 => Row::PairRow,
        0b111_0 => with_size(word),
        _ => Row::NoRow,
    }
}

// Each of the three below is told its own group: the facts differ, so no type says them for all.
#[tactic(auto, unfolding(instruction::specs::Table::row_of, bits::specs::Fields::part))]
fn literal_or_ordered(word: u32) -> Row
    requires { field 29 27 word * 2 + field 25 25 word ≡ 0b011_0 }
    ensures { result ≡ row_of word }
{
    let literal = word / 0x100_0000 % 2;
    let form = word / 0x400_0000 % 2 * 8 + word / 0x20_0000 % 2 * 4 + word / 0x400 % 4;
    if literal == 0 {
        Row::LiteralRow
    } else if form == 0b0_000 {
        Row::OrderedRow
    } else {
        Row::NoRow
    }
}

#[tactic(auto, unfolding(instruction::specs::Table::row_of, bits::specs::Fields::part))]
fn with_size(word: u32) -> Row
    requires { field 29 27 word * 2 + field 25 25 word ≡ 0b111_0 }
    ensures { result ≡ row_of word }
{
    let unsigned = word / 0x100_0000 % 2;
    let form = word / 0x20_0000 % 2 * 4 + word / 0x400 % 4;
    match form {
        _ if unsigned == 1 => Row::UnsignedRow,
        0b000 => Row::UnscaledRow,
        0b001 => Row::PostRow,
        0b011 => Row::PreRow,
        0b110 => Row::RegisterRow,
        _ => Row::NoRow,
    }
}

#[tactic(auto, unfolding(instruction::specs::Table::row_of, bits::specs::Fields::part))]
fn exclusive(word: u32) -> Row
    requires { field 29 27 word * 2 + field 25 25 word ≡ 0b001_0 }
    ensures { result ≡ row_of word }
{
    let fixed = word / 0x400_0000 % 2 * 4 + word / 0x100_0000 % 2 * 2 + word / 0x20_0000 % 2;
    let form = word / 0x80_0000 % 2 * 4 + word / 0x40_0000 % 2 * 2 + word / 0x8000 % 2;
    match form {
        _ if fixed != 0 => Row::NoRow,
        0b000 | 0b001 => Row::StoreExclusiveRow,
        0b010 | 0b011 => Row::LoadExclusiveRow,
        0b101 | 0b111 => Row::AcquireReleaseRow,
        _ => Row::NoRow,
    }
}
