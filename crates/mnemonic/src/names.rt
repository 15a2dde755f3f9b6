// The names by number: 32 of the ninth family by the code of the operation and the size, 32 for each stem by the code of the
// operation, and 16 for each kind of pair. The rarer ones come first, since a search goes from the end.
ghost use Rattle.std.specs.Prelude.{◌≡◌};
ghost use Rattle.mnemonic.specs.route.Names.{stem_at, name_at};

use crate::Stem;
use instruction::{AccessSize, ExclusiveOp, PairOp, SizedOp, StoreExclusiveOp};

#[derive(Drop)]
pub enum Name {
    Sized(Stem, SizedOp),
    NoAllocatePair(PairOp),
    AllocatePair(PairOp),
    Exclusive(ExclusiveOp, AccessSize),
    StoreExclusive(StoreExclusiveOp, AccessSize),
}

// How many numbers there are (`name_count`).
pub const NAMES: u32 = 160;

#[tactic(auto, using(std::proofs::lemmas::Bool::Decides::nat_tests), unfolding(crate::specs::route::Names::name_at))]
pub fn name_at(number: u32) -> Name
    ensures { result ≡ name_at number }
{
    match number {
        0..=7 => Name::StoreExclusive(
            instruction::store_exclusive_at(number / 4),
            instruction::size_at(number % 4),
        ),
        8..=31 => Name::Exclusive(
            instruction::exclusive_at(number / 4),
            instruction::size_at(number % 4),
        ),
        32..=127 => Name::Sized(stem_at(number / 32), instruction::sized_at(number % 32)),
        128..=143 => Name::NoAllocatePair(instruction::pair_at(number % 16)),
        _ => Name::AllocatePair(instruction::pair_at(number % 16)),
    }
}

// An ordered prefetch, which there is not, would have the name of an unscaled one. The ordered names come first, so that
// a search from the end finds the other.
#[tactic(auto, unfolding(crate::specs::route::Names::stem_at))]
pub fn stem_at(number: u32) -> Stem
    ensures { result ≡ stem_at number }
{
    match number {
        1 => Stem::Order,
        2 => Stem::Unscale,
        _ => Stem::Plain,
    }
}
