// An instruction to its word. The round trips are proved in proofs/.
#![tactic(auto)]

mod offset;
mod word;

ghost use Rattle.std.specs.Prelude.{◌≡◌, IfErr};
ghost use Rattle.encoder.specs.Encoding.{encode_of, as_encoded};

use instruction::{Answer, Instruction};

// The one word that decodes to an instruction, or answer 11. An undefined combination of fields has no instruction.
pub fn encode(instruction: Instruction) -> Result<u32, Answer>
    ensures exact { as_encoded result ≡ encode_of instruction }
    ensures refusal { IfErr result (λ answer. ¬ (answer ≡ Answer.Done)) }
{
    match word::word_of(instruction.family) {
        Some(word) if decoder::is_allocated(word) => Ok(word),
        _ => Err(Answer::NoSuchInstruction),
    }
}
