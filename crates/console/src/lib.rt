// Standard input and output of the programs. A read or a write that fails is said on standard error, with the system's
// reason, and is never taken for an end.
#![tactic(auto)]

ghost use Rattle.std.specs.Prelude.{◌<◌, length};
ghost use Rattle.std.specs.Result.{IsErr};
ghost use Rattle.io.specs.Counts.{IsPrefixLen};
ghost use Rattle.console.specs.Came.{Came};
ghost use Rattle.console.specs.Handled.{Handled};

use std::io::{Error, Input, Read};

// A read or a write that failed. Its reason has been said: who learns of it has only to stop.
#[derive(Clone, Copy, PartialEq, Eq)]
pub struct Failed;

// One read, of whatever has come: so many bytes at the start of the buffer, or none where the input has ended.
pub fn read(rt: &(impl Input + Eprint), buf: &mut [u8]) -> Result<Option<usize>, Failed>
    ensures { Came result buf.new }
{
    let mut reader = rt.reader();
    match reader.read(buf) {
        Ok(0) => Ok(None),
        Ok(n) => Ok(Some(n)),
        Err(reason) => {
            say(rt, "read", reason);
            Err(Failed)
        }
    }
}

// Reads until a buffer is full, the input ends or a read fails, and says how many bytes came.
pub fn fill(rt: &(impl Input + Eprint), buf: &mut [u8]) -> usize
    ensures { IsPrefixLen result buf.new }
{
    let mut done = 0;
    while done < buf.len() {
        match read(rt, &mut buf[done..]) {
            Ok(Some(n)) => done += n,
            Ok(None) | Err(Failed) => break,
        }
    }
    done
}

// Hands the input on in blocks: each fills the buffer but for the last, which may be shorter, and none is empty. It goes on to
// the end of the input, or until a block is refused.
pub fn for_each_block<E, F: FnMut(&[u8]) -> Result<(), E>>(
    rt: &(impl Input + Eprint),
    buf: &mut [u8],
    mut handle: F,
) -> Result<(), E>
    requires { F.IsAlwaysCallable handle }
    ensures { (last : F) × Handled (length buf.old) (λ f x r g. F.step f x r g) handle result last }
{
    // A proved loop has to end, and nothing says that the input does: no run comes to so many blocks.
    for _ in 0..u64::MAX {
        let n = fill(rt, buf);
        if n == 0 {
            break;
        }
        handle(&buf[..n])?;
        if n < buf.len() {
            break;
        }
    }
    Ok(())
}

// Writes the start of an output. It fails too, with no word, where the output ends before that.
pub fn write(rt: &(impl Print + Eprint), output: &[u8], end: usize) -> Result<(), Failed>
    ensures { length output.now < end → IsErr result }
{
    if end > output.len() {
        return Err(Failed);
    }
    match rt.write_all(&output[..end]) {
        Ok(()) => Ok(()),
        Err(reason) => {
            say(rt, "write", reason);
            Err(Failed)
        }
    }
}

// A failure, as what failed and the system's reason. Where that can't be written either, there is no one to say it to.
fn say<R: Eprint>(rt: &R, what: &str, reason: Error) {
    let _ = eprintln!(rt; "{what}: {reason}");
}

#[cfg(test)]
mod tests {
    use super::{Failed, fill, read, write};
    use std::alloc::Allocator;
    use std::cell::Cell;
    use std::fmt::Display;
    use std::io::{BufRead, Error, ErrorKind, Lines, Read, Result};

    // Three bytes and two come, and no more; an output that takes nothing. It counts what is said of that.
    #[derive(Drop)]
    struct Broken {
        reads: Cell<u32>,
        said: Cell<u32>,
    }

    #[derive(Drop)]
    struct Source<'a> {
        of: &'a Broken,
    }

    impl Read for Source<'_> {
        fn read(&mut self, buf: &mut [u8]) -> Result<usize> {
            let turn = self.of.reads.get();
            self.of.reads.set(turn.wrapping_add(1));
            if turn == 0 && buf.len() >= 3 {
                return Ok(3);
            }
            if turn == 1 && buf.len() >= 2 {
                return Ok(2);
            }
            Err(Error::from(ErrorKind::Other))
        }
    }

    impl BufRead for Source<'_> {
        fn fill_buf(&mut self) -> Result<&[u8]> {
            Ok(&[])
        }

        fn consume(&mut self, amount: usize) {}
    }

    impl<'a> std::io::Input for &'a Broken {
        type Reader = Source<'a>;

        fn read_line<A: Allocator + Clone>(&self, buf: &mut String<A>) -> Result<usize> {
            Err(Error::from(ErrorKind::Other))
        }

        fn lines<A: Allocator>(&self, alloc: A) -> Lines<Source<'a>, A> {
            self.reader().lines(alloc)
        }

        fn reader(&self) -> Source<'a> {
            Source { of: *self }
        }
    }

    impl Print for &Broken {
        fn print<D: Display + Drop>(&self, value: D) -> Result<()> {
            Err(Error::from(ErrorKind::Other))
        }

        fn println<D: Display + Drop>(&self, value: D) -> Result<()> {
            Err(Error::from(ErrorKind::Other))
        }

        fn write_all(&self, bytes: &[u8]) -> Result<()> {
            Err(Error::from(ErrorKind::Other))
        }
    }

    impl Eprint for &Broken {
        fn eprint<D: Display + Drop>(&self, value: D) -> Result<()> {
            Ok(())
        }

        fn eprintln<D: Display + Drop>(&self, value: D) -> Result<()> {
            self.said.set(self.said.get().wrapping_add(1));
            Ok(())
        }
    }

    fn made() -> Broken {
        Broken {
            reads: Cell::new(0),
            said: Cell::new(0),
        }
    }

    // What came before a read that fails is kept, and the failure is said once; the next read fails too, and is no end.
    #[test]
    fn a_failed_read_is_said(rt: HostRuntime) {
        let broken = made();
        let mut buf = [0u8; 8];
        let came = fill(&&broken, &mut buf);
        assert_eq!(rt; came, 5);
        assert_eq!(rt; broken.said.get(), 1);
        assert!(rt; read(&&broken, &mut buf) == Err(Failed));
        assert_eq!(rt; broken.said.get(), 2);
    }

    #[test]
    fn a_failed_write_is_said(rt: HostRuntime) {
        let broken = made();
        let text = [0u8; 4];
        assert!(rt; write(&&broken, &text, 4) == Err(Failed));
        assert_eq!(rt; broken.said.get(), 1);
        assert!(rt; write(&&broken, &text, 5) == Err(Failed));
        assert_eq!(rt; broken.said.get(), 1);
    }
}
