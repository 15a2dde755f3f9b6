// An instruction as plain numbers, which cross to any language and need no second decoding, and back.
#![tactic(auto)]

mod named;
mod numbers;
mod record;

ghost use Rattle.std.specs.Prelude.{◌≡◌, IfErr};
ghost use Rattle.encoder.specs.Encoding.{as_encoded};
ghost use Rattle.plain.specs.Coding.{as_decoded_plain, decode_plain, EncodedFrom};

use instruction::Answer;
pub use numbers::plain_of;
pub use record::Plain;

// The numbers of a word's instruction, or answer 2 or 3.
pub fn decode(word: u32) -> Result<Plain, Answer>
    ensures exact { as_decoded_plain result ≡ decode_plain word }
    ensures refusal { IfErr result (λ answer. ¬ (answer ≡ Answer.Done)) }
{
    let instruction = decoder::decode(word)?;
    Ok(plain_of(instruction))
}

// The one word whose instruction has these numbers, or answer 11. The numbers are read as if they were those of an
// instruction, and compared with that instruction's numbers.
pub fn encode(plain: Plain) -> Result<u32, Answer>
    ensures exact { EncodedFrom plain (as_encoded result) }
    ensures refusal { IfErr result (λ answer. ¬ (answer ≡ Answer.Done)) }
{
    let instruction = named::instruction_of(plain);
    if plain_of(instruction) == plain {
        encoder::encode(instruction)
    } else {
        Err(Answer::NoSuchInstruction)
    }
}
