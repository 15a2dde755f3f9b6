// What an entry and its word say. The row, the operation, and answers 2 and 3 come of the entry and of bits below 22. Of bits
// 31 to 22 only these are read again: in operands a literal's imm19 (23..5), a pair's mode (24..23) and the size of an exclusive
// access (31..30), and for answer 4 bit 26, and of a pair bits 23 and 22.
ghost use Rattle.std.specs.Prelude.{◌≡◌};
ghost use Rattle.bits.specs.Choice.{pick};
ghost use Rattle.lookup.specs.Lookup.{row_in, examine_as, examine_by};

use decoder::{family, undefined, unpredictable, view};
use instruction::{Answer, Decoded, Row};

#[tactic(auto, unfolding(crate::specs::Lookup::examine_by, bits::specs::Fields::part))]
pub fn finish(entry: u32, word: u32) -> Decoded
    ensures { result ≡ examine_by entry word }
{
    let code = entry % 32;
    let op = instruction::sized_at(code);
    match row_in(entry / 32, word) {
        Row::NoRow => view::refused(Answer::NotInSet),
        Row::LiteralRow => {
            let family = family::literal(instruction::literal_at(code), word);
            view::viewed(code == 31, false, family)
        }
        Row::PairRow => {
            let family = family::pair(instruction::pair_at(code), word);
            view::viewed(code == 31, unpredictable::in_pair(word), family)
        }
        Row::OrderedRow => {
            let undefined = (code == 31) | (code == 14);
            view::viewed(undefined, false, family::ordered(op, word))
        }
        Row::UnscaledRow => view::viewed(code == 31, false, family::unscaled(op, word)),
        Row::PostRow => {
            let undefined = (code == 31) | (code == 14);
            let base = unpredictable::over_base(word / 1 % 32, word);
            view::viewed(undefined, base, family::post_index(op, word))
        }
        Row::PreRow => {
            let undefined = (code == 31) | (code == 14);
            let base = unpredictable::over_base(word / 1 % 32, word);
            view::viewed(undefined, base, family::pre_index(op, word))
        }
        Row::RegisterRow => {
            let undefined = (code == 31) | (word / 0x4000 % 2 == 0);
            view::viewed(undefined, false, family::register(op, word))
        }
        Row::UnsignedRow => view::viewed(code == 31, false, family::unsigned(op, word)),
        Row::LoadExclusiveRow | Row::AcquireReleaseRow => exclusive(code, word),
        Row::StoreExclusiveRow => store_exclusive(code, word),
    }
}

#[tactic(auto, unfolding(bits::specs::Fields::part))]
fn exclusive(code: u32, word: u32) -> Decoded
    ensures { result ≡ examine_as Row.LoadExclusiveRow code word }
{
    let op = instruction::exclusive_at(code % 4 * 2 + word / 0x8000 % 2);
    view::viewed(
        undefined::in_exclusive(word),
        false,
        family::exclusive(op, word),
    )
}

#[tactic(auto, unfolding(bits::specs::Fields::part))]
fn store_exclusive(code: u32, word: u32) -> Decoded
    ensures { result ≡ examine_as Row.StoreExclusiveRow code word }
{
    let op = instruction::store_exclusive_at(code % 4 * 2 + word / 0x8000 % 2);
    let undefined = undefined::in_store_exclusive(word);
    let unpredictable = unpredictable::in_store_exclusive(word);
    view::viewed(undefined, unpredictable, family::store_exclusive(op, word))
}

// The row that the family code of an entry and the bits below 22 give. The code stays a number: entries are, by `entries` and
// `family_code`.
#[tactic(auto, unfolding(crate::specs::Lookup::row_in, bits::specs::Fields::part))]
fn row_in(families: u32, word: u32) -> Row
    ensures { result ≡ row_in families word }
{
    match families {
        1 => Row::LiteralRow,
        2 => Row::PairRow,
        3 => ordered_row(word),
        4 => sized_row(word),
        5 => Row::UnsignedRow,
        6 => row_where(word / 0x20_0000 % 2 == 0, Row::LoadExclusiveRow),
        7 => row_where(word / 0x20_0000 % 2 == 0, Row::StoreExclusiveRow),
        8 => row_where(
            (word / 0x20_0000 % 2 == 0) & (word / 0x8000 % 2 == 1),
            Row::AcquireReleaseRow,
        ),
        _ => Row::NoRow,
    }
}

#[tactic(auto, unfolding(crate::specs::Lookup::row_in, bits::specs::Fields::part))]
fn ordered_row(word: u32) -> Row
    ensures { result ≡ row_in 3 word }
{
    let form = word / 0x20_0000 % 2 * 4 + word / 0x400 % 4;
    row_where(form == 0b000, Row::OrderedRow)
}

#[tactic(auto, unfolding(crate::specs::Lookup::row_in, bits::specs::Fields::part))]
fn sized_row(word: u32) -> Row
    ensures { result ≡ row_in 4 word }
{
    let form = word / 0x20_0000 % 2 * 4 + word / 0x400 % 4;
    match form {
        0b000 => Row::UnscaledRow,
        0b001 => Row::PostRow,
        0b011 => Row::PreRow,
        0b110 => Row::RegisterRow,
        _ => Row::NoRow,
    }
}

fn row_where(kept: bool, row: Row) -> Row
    ensures { result ≡ pick kept row Row.NoRow }
{
    if kept { row } else { Row::NoRow }
}
