// A word to its instruction. Every word has an answer, and nobody has to check first.
#![tactic(auto)]

pub mod family;
mod row;
pub mod undefined;
pub mod unpredictable;
pub mod view;

ghost use Rattle.std.specs.Prelude.{◌≡◌, Ok, Err, IfErr};
ghost use Rattle.instruction.specs.Table.{allocated};
ghost use Rattle.decoder.specs.Decoding.{decode_of, decoded_from, as_decoded, class_of};

use instruction::{Answer, Decoded, Instruction};
pub use view::examine;

// The instruction of a word, or answer 2 or 3.
pub fn decode(word: u32) -> Result<Instruction, Answer>
    ensures exact { as_decoded result ≡ decode_of word }
    ensures refusal { IfErr result (λ answer. ¬ (answer ≡ Answer.Done)) }
{
    let examined = examine(word);
    found(decoded(examined))
}

// The instruction that decoding gave, or the answer of a word that has none.
pub fn found(decoded: Decoded) -> Result<Instruction, Answer>
    ensures done { decoded.answer ≡ Answer.Done → result ≡ Ok decoded.instruction }
    ensures refused { ¬ (decoded.answer ≡ Answer.Done) → result ≡ Err decoded.answer }
    ensures refusal { IfErr result (λ answer. ¬ (answer ≡ Answer.Done)) }
{
    match decoded.answer {
        Answer::Done => Ok(decoded.instruction),
        answer => Err(answer),
    }
}

// What decoding says of a word that was examined: it gives no answer 4.
pub fn decoded(examined: Decoded) -> Decoded
    ensures { result ≡ decoded_from examined }
{
    let answer = match examined.answer {
        Answer::Unpredictable => Answer::Done,
        answer => answer,
    };
    Decoded {
        answer,
        instruction: examined.instruction,
    }
}

// Answers 2, 3 and 4, which depend on the word alone, or done: what a listing shows of a word.
pub fn classify(word: u32) -> Answer
    ensures { result ≡ class_of word }
{
    examine(word).answer
}

// Whether a word is of the set and not undefined.
#[tactic(auto, using(crate::proofs::Arms::allocated_when, crate::proofs::Arms::allocated_else))]
pub fn is_allocated(word: u32) -> bool
    ensures { result ≡ allocated word }
{
    matches!(classify(word), Answer::Done | Answer::Unpredictable)
}
