// The listing of a run of bytes: a line for each word, and one for bytes that are left over.
#![tactic(auto)]

mod line;

ghost use Rattle.std.specs.Prelude.{◌≡◌, leb, length, IsOkUnless};
ghost use Rattle.ascii.specs.route.Puts.{Puts};
ghost use Rattle.listing.specs.Listing.{listing_of, outcome, list_of};

use instruction::Answer;
pub use line::{line_length, put_line};
use text::TEXT_MAX;

// The most bytes of a word's line with its newline (`line_most`): its text, and twelve others.
pub const LINE_MAX: usize = TEXT_MAX + 12;

// The bytes of a `short` line with its newline.
const SHORT_MAX: usize = 10;

// Puts the listing of the bytes at the start of an output, and returns its length. An output that is too short is
// refused, and is unchanged.
pub fn list(bytes: &[u8], output: &mut [u8]) -> Result<usize, Answer>
    ensures value { outcome result output.new ≡ list_of bytes.now output.old }
    ensures refused { IsOkUnless result Answer.NoRoom }
{
    if !fits(bytes, output.len()) {
        return Err(Answer::NoRoom);
    }
    Ok(put_listing(output, bytes))
}

fn put_listing(output: &mut [u8], bytes: &[u8]) -> usize
    ensures { Puts output.old 0 (listing_of bytes.now) output.new result }
{
    let (words, rest) = bytes.as_chunks::<4>();
    let mut next = 0;
    for word in words {
        next = line::put_line(output, next, u32::from_le_bytes(*word));
    }
    line::put_short(output, next, rest.len())
}

// An output with room for the longest line of each word, and for the line of bytes left over, is large enough
// without a look at them.
fn fits(bytes: &[u8], room: usize) -> bool
    ensures { result ≡ leb (length (listing_of bytes.now)) room }
{
    if room >= SHORT_MAX && bytes.len() / 4 <= (room - SHORT_MAX) / LINE_MAX {
        return true;
    }
    measured(bytes, room)
}

fn measured(bytes: &[u8], room: usize) -> bool
    ensures { result ≡ leb (length (listing_of bytes.now)) room }
{
    let (words, rest) = bytes.as_chunks::<4>();
    let mut left = room;
    for word in words {
        let n = line::line_length(u32::from_le_bytes(*word));
        if left < n {
            return false;
        }
        left -= n;
    }
    line::short_length(rest.len()) <= left
}
