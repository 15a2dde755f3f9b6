// The second decoder: bits 31 to 22 of a word are looked up in a table, and the bits below decide among the families that
// the entry names. The table is lent, so that many words take it once.
#![tactic(auto)]

mod constant;
mod finish;

ghost use Rattle.std.specs.Prelude.{◌≡◌, IfErr};
ghost use Rattle.decoder.specs.Decoding.{decode_of, as_decoded};
ghost use Rattle.lookup.specs.Lookup.{examine_in, decode_in};

pub use constant::table;
use instruction::{Answer, Decoded, Instruction};

// What the entry of a word in a lent table gives, with answer 4.
#[tactic(auto, unfolding(crate::specs::Lookup::examine_in, bits::specs::Fields::part))]
pub fn examine_in(lent: &[u16; 1024], word: u32) -> Decoded
    ensures { result ≡ examine_in lent.now word }
{
    let entry = lent[(word / 0x40_0000 % 1024) as usize];
    finish::finish(u32::from(entry), word)
}

// What the entry of a word in a lent table gives: an instruction, or answer 2 or 3.
pub fn decode_in(lent: &[u16; 1024], word: u32) -> Result<Instruction, Answer>
    ensures exact { as_decoded result ≡ decode_in lent.now word }
    ensures refusal { IfErr result (λ answer. ¬ (answer ≡ Answer.Done)) }
{
    let examined = examine_in(lent, word);
    decoder::found(decoder::decoded(examined))
}

// The same as decoding without a table.
#[tactic(auto, using(crate::proofs::Same::decode_same))]
pub fn decode_by_table(word: u32) -> Result<Instruction, Answer>
    ensures exact { as_decoded result ≡ decode_of word }
    ensures refusal { IfErr result (λ answer. ¬ (answer ≡ Answer.Done)) }
{
    decode_in(&table(), word)
}
