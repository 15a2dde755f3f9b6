// A line of text to its word. The text is scanned into keys and numbers; they say which instruction alone can
// have this line; the text is taken exactly if it is that instruction's line, as printer::write gives it.
#![tactic(auto)]

mod build;
mod first;
mod name;
mod scan;
mod tail;

ghost use Rattle.std.specs.Prelude.{◌≡◌, true, ◌↔◌};
ghost use Rattle.instruction.specs.Table.{allocated};
ghost use Rattle.text.specs.Texts.{word_text};
ghost use Rattle.reader.specs.Reading.{told, ReadOf};

use instruction::Answer;
use text::TEXT_MAX;

// Room for any text, with eight bytes behind it, so that printer::write stores eight at a time. Nothing is allocated.
const BUFFER: usize = TEXT_MAX + 8;

// The allocated word whose line a text is, or answer 9. A text that is longer than any line is not looked at.
pub fn read(text: &[u8]) -> Result<u32, Answer>
    ensures { ReadOf text.now (told result) }
{
    if text.len() > TEXT_MAX {
        return Err(Answer::NoSuchText);
    }
    match encoder::encode(build::build(scan::scan_text(text))) {
        Ok(word) if is_line(word, text) => Ok(word),
        _ => Err(Answer::NoSuchText),
    }
}

// Whether a text is the line of an allocated word, which has room in the buffer.
fn is_line(word: u32, text: &[u8]) -> bool
    requires { allocated word ≡ true }
    ensures { (result ≡ true) ↔ (word_text word ≡ text.now) }
{
    let mut buffer = [0u8; BUFFER];
    let length = printer::write(word, &mut buffer).unwrap_or(0);
    let line = &buffer[..length];
    line == text
}
