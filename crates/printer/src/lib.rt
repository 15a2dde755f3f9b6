// The line of text of a word, put into a line at a position or written to a buffer.
#![tactic(auto)]

mod store;

ghost use Rattle.std.specs.Prelude.{◌≡◌, IfErr};
ghost use Rattle.decoder.specs.Decoding.{class_of, decode_of};
ghost use Rattle.ascii.specs.route.Puts.{Puts};
ghost use Rattle.text.specs.Texts.{text_of};
ghost use Rattle.text.specs.route.Lines.{whole};
ghost use Rattle.printer.specs.Writing.{outcome, copied, write_of};
ghost use Rattle.printer.specs.route.Printing.{textless};

use instruction::Answer;
use text::Pieces;

// What putting a text returns: the answer of its word, and the position behind the text. Both count, whatever the answer.
#[derive(Drop)]
pub struct Shown {
    pub answer: Answer,
    pub end: usize,
}

// Puts the text of a word into a line at a position, as far as there is room. A word that has none puts nothing.
pub fn put(line: &mut [u8], at: usize, word: u32) -> Shown
    ensures { (result.answer ≡ class_of word) × Puts line.old at (text_of (decode_of word).instruction) line.new result.end }
{
    let spelled = text::spell(word);
    let answer = spelled.answer;
    if has_no_text(answer) {
        return Shown { answer, end: at };
    }
    Shown {
        answer,
        end: store::put_pieces(line, at, spelled.pieces),
    }
}

// Of the answers of words.
fn has_no_text(answer: Answer) -> bool
    ensures { result ≡ textless answer }
{
    matches!(answer, Answer::NotInSet | Answer::Undefined)
}

// Puts the text of a word at the start of a buffer, and returns its length. A word that has none, and a buffer that is
// too short, are refused, and the buffer is unchanged.
pub fn write(word: u32, buffer: &mut [u8]) -> Result<usize, Answer>
    ensures exact { outcome result buffer.new ≡ write_of word buffer.old }
    ensures refusal { IfErr result (λ answer. ¬ (answer ≡ Answer.Done)) }
{
    let spelling = text::spell(word);
    let answer = spelling.answer;
    if has_no_text(answer) {
        return Err(answer);
    }
    write_pieces(spelling.pieces, buffer)
}

fn write_pieces(pieces: Pieces, buffer: &mut [u8]) -> Result<usize, Answer>
    ensures exact { outcome result buffer.new ≡ copied (whole pieces) buffer.old }
    ensures refusal { IfErr result (λ answer. ¬ (answer ≡ Answer.Done)) }
{
    if buffer.len() < store::total(pieces) {
        return Err(Answer::NoRoom);
    }
    Ok(store::put_pieces(buffer, 0, pieces))
}
