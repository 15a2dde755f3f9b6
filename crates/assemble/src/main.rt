// Reads lines of text from standard input and writes the word and the answer of each on standard output, in
// constant memory. The reading is done by the crate reader; here bytes are only moved.
#![tactic(auto)]

ghost use Rattle.std.specs.Prelude.{◌≡◌, ◌≤◌, ◌+◌, ◌*◌, length};
ghost use Rattle.assemble.specs.Lines.{newlines};

use console::Failed;
use text::TEXT_MAX;

// One byte more than the longest text has.
const LINE: usize = TEXT_MAX + 1;

// The start of the present line. Of a longer one only so many bytes are kept, and they are answered as the whole line
// is, with 9: no text has as many bytes.
#[derive(Drop)]
struct Line {
    bytes: [u8; LINE],
    count: usize,
    ghost in_range: { count ≤ 36 },
}

impl Line {
    fn new() -> Line {
        Line {
            bytes: [0; LINE],
            count: 0,
        }
    }

    fn text(&self) -> &[u8] {
        &self.bytes[..self.count]
    }

    fn push(&mut self, byte: u8) {
        if self.count < LINE {
            self.bytes[self.count] = byte;
            self.count += 1;
        }
    }
}

fn main(rt: HostRuntime) {
    // What failed has been said.
    let _ = assemble(&rt);
}

// Answers the lines of the input to its end. It stops after a read or a write that failed: a line that such an input breaks
// off in is not answered.
fn assemble(rt: &(impl std::io::Input + Print + Eprint)) -> Result<(), Failed> {
    let mut line = Line::new();
    let mut block = io::buffer();
    let mut output = io::large_buffer();
    // A proved loop has to end, and nothing says that the input does: no run comes to so many reads.
    for _ in 0..u64::MAX {
        let Some(n) = console::read(rt, &mut block)? else {
            break;
        };
        let end = answer_lines(&block[..n], &mut line, &mut output);
        console::write(rt, &output, end)?;
    }
    // The last line may lack its newline.
    if line.count == 0 {
        return Ok(());
    }
    let end = put_answer(&mut output, 0, line.text());
    console::write(rt, &output, end)
}

// An answer has 11 bytes, and each line that ends here gets one: none is lost.
fn answer_lines(bytes: &[u8], line: &mut Line, output: &mut [u8]) -> usize
    requires { length bytes.now * 11 ≤ length output.old }
    ensures { result ≡ newlines bytes.now * 11 }
{
    let mut end = 0;
    for byte in bytes {
        if *byte == b'\n' {
            end = put_answer(output, end, line.text());
            line.count = 0;
        } else {
            line.push(*byte);
        }
    }
    end
}

// Eight digits, a tab, a digit and a newline.
fn put_answer(output: &mut [u8], at: usize, text: &[u8]) -> usize
    requires { at + 11 ≤ length output.old }
    ensures { result ≡ at + 11 }
{
    let (word, number) = match reader::read(text) {
        Ok(word) => (word, 0),
        Err(answer) => (0, instruction::answer_number(answer)),
    };
    let mut digits = [0u8; 16];
    let n = io::hex(u64::from(word), 8, &mut digits);
    let tab = ascii::put_text(output, at, &digits[..n]);
    ascii::put_bytes(output, tab, [b'\t', (48 + number) as u8, b'\n'])
}
