// The loop over the cases of a program's input.
ghost use Rattle.std.specs.Prelude.{length};
ghost use Rattle.fields.specs.Answered.{Answered};

use console::Failed;

// The longest text that a buffer of 4,096 bytes has room for in a remark: up to 26 bytes stand before it, and one behind.
const SHORT: usize = 4069;

// What ends a program at a case.
#[derive(Clone, Copy, PartialEq, Eq)]
pub enum Halt {
    // The input ends within the case.
    CutShort,
    // The program has less room than the case asks for.
    TooLarge,
    // A read or a write failed, which was said.
    Failed,
}

impl From<Failed> for Halt {
    fn from(_failed: Failed) -> Halt {
        Halt::Failed
    }
}

// Answers the cases of the input by their number, from 0, and their head, which fills the buffer. A case that is cut short or
// too large is remarked on, and is the last.
pub fn for_each_case<F: FnMut(u64, &[u8]) -> Result<(), Halt>>(
    rt: &(impl Input + Print + Eprint),
    head: &mut [u8],
    mut answer: F,
)
    requires { F.IsAlwaysCallable answer }
    ensures { (last : F) × Answered (length head.old) (λ f n x r g. F.step f n x r g) answer last }
{
    // A proved loop has to end, and nothing says that the input does: no run comes to so many cases.
    for number in 0..u64::MAX {
        let n = console::fill(rt, head);
        if n == 0 {
            return;
        }
        if n < head.len() {
            say(rt, number, Halt::CutShort);
            return;
        }
        if let Err(halt) = answer(number, head) {
            say(rt, number, halt);
            return;
        }
    }
}

// A remark that can't be written is said by the console.
fn say(rt: &(impl Print + Eprint), number: u64, halt: Halt) {
    let _ = match halt {
        Halt::CutShort => remark(rt, number, b"cut short"),
        Halt::TooLarge => remark(rt, number, b"too large"),
        Halt::Failed => Ok(()),
    };
}

// A line that says something of a case, put together in a small buffer of its own; with a long text, written in parts.
pub fn remark(rt: &(impl Print + Eprint), number: u64, what: &[u8]) -> Result<(), Failed> {
    let mut line = io::buffer();
    let tab = ascii::put_text(&mut line, 0, b"case\t");
    let name = ascii::put_decimal(&mut line, tab, number);
    let behind = ascii::put_byte(&mut line, name, b'\t');
    if what.len() > SHORT {
        console::write(rt, &line, behind)?;
        console::write(rt, what, what.len())?;
        return console::write(rt, b"\n", 1);
    }
    let said = ascii::put_text(&mut line, behind, what);
    let end = ascii::put_byte(&mut line, said, b'\n');
    console::write(rt, &line, end)
}

#[cfg(test)]
mod tests {
    use super::remark;
    use console::Failed;
    use std::cell::Cell;
    use std::fmt::Display;
    use std::io::{Error, ErrorKind, Result};

    // An output that takes one text, in any number of parts, and fails at the first byte that differs from it.
    #[derive(Drop)]
    struct Expected<'a> {
        text: &'a [u8],
        taken: Cell<usize>,
    }

    impl Print for &Expected<'_> {
        fn print<D: Display + Drop>(&self, value: D) -> Result<()> {
            Err(Error::from(ErrorKind::Other))
        }

        fn println<D: Display + Drop>(&self, value: D) -> Result<()> {
            Err(Error::from(ErrorKind::Other))
        }

        fn write_all(&self, bytes: &[u8]) -> Result<()> {
            let from = self.taken.get();
            let to = from.saturating_add(bytes.len());
            if self.text.get(from..to) != Some(bytes) {
                return Err(Error::from(ErrorKind::Other));
            }
            self.taken.set(to);
            Ok(())
        }
    }

    impl Eprint for &Expected<'_> {
        fn eprint<D: Display + Drop>(&self, value: D) -> Result<()> {
            Ok(())
        }

        fn eprintln<D: Display + Drop>(&self, value: D) -> Result<()> {
            Ok(())
        }
    }

    // Whether a line about a case with so many letters is written as it must be.
    fn is_remarked(number: u64, letters: usize) -> bool {
        let what = [b'x'; 65536];
        let mut text = [b'x'; 65536];
        let tab = ascii::put_text(&mut text, 0, b"case\t");
        let name = ascii::put_decimal(&mut text, tab, number);
        let behind = ascii::put_byte(&mut text, name, b'\t');
        let end = ascii::put_byte(&mut text, behind.saturating_add(letters), b'\n');
        let expected = Expected {
            text: &text,
            taken: Cell::new(0),
        };
        let said = remark(&&expected, number, what.get(..letters).unwrap_or_default());
        said == Ok(()) && expected.taken.get() == end
    }

    // No remark is cut: not the longest that is put together, behind any number, nor longer ones.
    #[test]
    fn a_long_remark_is_whole(rt: HostRuntime) {
        for letters in [0, 9, 4069, 4070, 4088, 4089, 5000, 65509] {
            assert!(rt; is_remarked(7, letters));
            assert!(rt; is_remarked(u64::MAX, letters));
        }
    }

    // Whether a remark about case 7 fails, and so many bytes of a text were taken for it.
    fn is_stopped(text: &[u8], what: &[u8], at: usize) -> bool {
        let expected = Expected {
            text,
            taken: Cell::new(0),
        };
        remark(&&expected, 7, what) == Err(Failed) && expected.taken.get() == at
    }

    // Where a part can't be written nothing behind it is, even what could be.
    #[test]
    fn a_failed_part_is_the_last(rt: HostRuntime) {
        let what = io::large_buffer();
        let mut text = io::large_buffer();
        let _ = ascii::put_text(&mut text, 0, b"case\t7\t");
        assert!(rt; is_stopped(b"case\t7\t", b"short", 0));
        assert!(rt; is_stopped(&what, &what, 0));
        assert!(rt; is_stopped(b"case\t7\t\n", &what, 7));
        assert!(rt; is_stopped(&text, what.get(..65529).unwrap_or_default(), 65536));
    }
}
