// What a word says, by the one row that it matches.
ghost use Rattle.std.specs.Prelude.{◌≡◌};
ghost use Rattle.bits.specs.Choice.{pick};
ghost use Rattle.decoder.specs.Decoding.{decode_of, class_of, empty};

use crate::{family, row, undefined, unpredictable};
use instruction::{Answer, Decoded, Family, Instruction, Row};

// The answer of classifying a word, with the instruction of decoding it.
#[tactic(auto, using(crate::proofs::Arms::class_by, crate::proofs::Arms::instruction_by), unfolding(bits::specs::Fields::part))]
pub fn examine(word: u32) -> Decoded
    ensures { (result.answer ≡ class_of word) × (result.instruction ≡ (decode_of word).instruction) }
{
    match row::row_of(word) {
        Row::NoRow => refused(Answer::NotInSet),
        Row::LiteralRow => {
            let family = family::literal(family::literal_op_in(word), word);
            viewed(undefined::in_literal(word), false, family)
        }
        Row::PairRow => {
            let family = family::pair(family::pair_op_in(word), word);
            let undefined = undefined::in_pair(word);
            viewed(undefined, unpredictable::in_pair(word), family)
        }
        Row::OrderedRow => {
            let family = family::ordered(family::sized_op_in(word), word);
            viewed(undefined::without_prefetch(word), false, family)
        }
        Row::UnscaledRow => {
            let family = family::unscaled(family::sized_op_in(word), word);
            viewed(undefined::in_size(word), false, family)
        }
        Row::PostRow => {
            let family = family::post_index(family::sized_op_in(word), word);
            let base = unpredictable::over_base(word / 1 % 32, word);
            viewed(undefined::without_prefetch(word), base, family)
        }
        Row::PreRow => {
            let family = family::pre_index(family::sized_op_in(word), word);
            let base = unpredictable::over_base(word / 1 % 32, word);
            viewed(undefined::without_prefetch(word), base, family)
        }
        Row::RegisterRow => {
            let family = family::register(family::sized_op_in(word), word);
            viewed(undefined::in_register(word), false, family)
        }
        Row::UnsignedRow => {
            let family = family::unsigned(family::sized_op_in(word), word);
            viewed(undefined::in_size(word), false, family)
        }
        Row::LoadExclusiveRow | Row::AcquireReleaseRow => {
            let family = family::exclusive(family::exclusive_op_in(word), word);
            viewed(undefined::in_exclusive(word), false, family)
        }
        Row::StoreExclusiveRow => {
            let family = family::store_exclusive(family::store_exclusive_op_in(word), word);
            let undefined = undefined::in_store_exclusive(word);
            viewed(undefined, unpredictable::in_store_exclusive(word), family)
        }
    }
}

// A word of the set that is undefined or unpredictable or of this family.
pub fn viewed(undefined: bool, unpredictable: bool, family: Family) -> Decoded
    ensures { (result.answer ≡ pick undefined Answer.Undefined (pick unpredictable Answer.Unpredictable Answer.Done)) × (result.instruction ≡ pick undefined empty (record { family = family })) }
{
    if undefined {
        return refused(Answer::Undefined);
    }
    let answer = if unpredictable {
        Answer::Unpredictable
    } else {
        Answer::Done
    };
    Decoded {
        answer,
        instruction: Instruction { family },
    }
}

// A word without an instruction.
pub fn refused(answer: Answer) -> Decoded
    ensures { (result.answer ≡ answer) × (result.instruction ≡ empty) }
{
    Decoded {
        answer,
        instruction: Instruction {
            family: Family::Empty,
        },
    }
}
