// The line of text of a word, in pieces.
#![tactic(auto)]

mod form;
mod hint;
mod index;
mod line;
mod number;
mod piece;
mod register;

ghost use Rattle.std.specs.Prelude.{◌≡◌};
ghost use Rattle.decoder.specs.Decoding.{class_of, decode_of};
ghost use Rattle.text.specs.Texts.{text_of};
ghost use Rattle.text.specs.route.Lines.{Made};

use instruction::Answer;
pub use piece::{Piece, Pieces};

// The most bytes that the text of an allocated word has (`text_most`).
pub const TEXT_MAX: usize = 35;

// The answer of a word, and its text. A word that has none has six empty pieces. This is no Result: a word of answer 4 has a text.
#[derive(Drop)]
pub struct Spelling {
    pub answer: Answer,
    pub pieces: Pieces,
}

pub fn spell(word: u32) -> Spelling
    ensures { (result.answer ≡ class_of word) × Made (text_of (decode_of word).instruction) result.pieces }
{
    let examined = decoder::examine(word);
    let answer = examined.answer;
    let instruction = examined.instruction;
    let family = instruction.family;
    Spelling {
        answer,
        pieces: line::pieces_of(family),
    }
}
