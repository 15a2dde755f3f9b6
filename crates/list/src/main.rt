// Lists the words of standard input on standard output, in constant memory: a line for each word, as soon as its four
// bytes have come. The listing is made by the crate stream; here bytes are only moved.
#![tactic(auto)]

ghost use Rattle.std.specs.Prelude.{◌≡◌, false, ◌++◌, suc, ◌≤◌, ◌+◌, ◌*◌, length, take, OnOk, IsOk, IfOk};
ghost use Rattle.listing.specs.Listing.{listing_of, line_most};
ghost use Rattle.stream.specs.Streams.{over_in, refuses, whole_of};

use console::Failed;
use instruction::Answer;
use listing::LINE_MAX;
use stream::Lister;

// The most bytes of a read: 4,096 words.
const PART: usize = 16384;

// Room for the longest line of each word of a part, and for a `short` line.
const ROOM: usize = 4096 * LINE_MAX + 10;

fn main(rt: HostRuntime) {
    // What failed has been said.
    let _ = list(&rt);
}

// Lists the input to its end. It stops after a read or a write that failed: such an input has no `short` line.
fn list(rt: &(impl std::io::Input + Print + Eprint)) -> Result<(), Failed> {
    let mut lister = Lister::new();
    let mut part = [0u8; PART];
    let mut output = [0u8; ROOM];
    // A proved loop has to end, and nothing says that the input does: no run comes to so many reads.
    for _ in 0..u64::MAX {
        let Some(n) = console::read(rt, &mut part)? else {
            break;
        };
        let end = push_part(&mut lister, &part[..n], &mut output);
        console::write(rt, &output, end)?;
    }
    let end = close(&mut lister, &mut output);
    console::write(rt, &output, end)
}

// The lines of a part fit an output with room for the longest line of each of its words and for a `short` line: they are never
// refused, and are what the output begins with. No line is lost.
fn push_part(lister: &mut Lister, part: &[u8], output: &mut [u8]) -> usize
    requires ready { refuses lister.old ≡ false }
    requires few { length part.now ≤ 16384 }
    requires room { 4096 * suc line_most + 10 ≤ length output.old }
    ensures ready { refuses lister.new ≡ false }
    ensures lines { take result output.new ≡ listing_of (whole_of (over_in lister.old ++ part.now)) }
{
    lister.push(part, output).unwrap()
}

// So is the `short` line.
fn close(lister: &mut Lister, output: &mut [u8]) -> usize
    requires ready { refuses lister.old ≡ false }
    requires room { 10 ≤ length output.old }
    ensures { take result output.new ≡ listing_of (over_in lister.old) }
{
    lister.close(output).unwrap()
}
