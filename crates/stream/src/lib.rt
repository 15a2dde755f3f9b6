// A listing of an image that comes in fragments. A lister holds the bytes behind the last whole word, and each call
// hands out the lines of the words that are whole. A refused call changes nothing, and may be repeated.
#![tactic(auto)]

ghost use Rattle.std.specs.Prelude.{◌≡◌, ◌≢◌, ◌≤◌, [], ◌++◌, length, IfErr, IsOkUnless};
ghost use Rattle.listing.specs.Listing.{outcome as listed, list_of};
ghost use Rattle.stream.specs.Streams.{holding, refuses, outcome, push, close, call_of};

use instruction::Answer;
use listing::LINE_MAX;

// The bytes over, how many of them count, and whether the lister is closed, which any number but 0 says. No bits of it
// are without a meaning, so that a host can keep it among its own.
#[repr(C)]
#[derive(Clone, Copy)]
pub struct Lister {
    pub first: u8,
    pub second: u8,
    pub third: u8,
    pub count: u8,
    pub closed: u8,
}

impl Lister {
    pub fn new() -> Lister
        ensures { result ≡ holding [] }
    {
        Lister::holding(&[])
    }

    // A lister that holds these bytes.
    fn holding(bytes: &[u8]) -> Lister
        requires { length bytes.now ≤ 3 }
        ensures { result ≡ holding bytes.now }
    {
        Lister {
            first: bits::byte_at(bytes, 0),
            second: bits::byte_at(bytes, 1),
            third: bits::byte_at(bytes, 2),
            count: bytes.len() as u8,
            closed: 0,
        }
    }

    // Takes a fragment, and puts the lines of all words that are whole with it at the start of an output. The length of
    // the lines is returned.
    pub fn push(&mut self, fragment: &[u8], output: &mut [u8]) -> Result<usize, Answer>
        ensures value { outcome self.new result output.new ≡ call_of self.old (push fragment.now output.old) }
        ensures refused { IfErr result (λ answer. answer ≢ Answer.Done) }
    {
        if self.refuses() {
            return Err(Answer::Closed);
        }
        let count = usize::from(self.count);
        let used = fragment.len().min(4 - count);
        let mut word = [self.first, self.second, self.third, 0];
        word[count..count + used].copy_from_slice(&fragment[..used]);
        if count + used < 4 {
            *self = Lister::holding(&word[..count + used]);
            return Ok(0);
        }
        let behind = &fragment[used..];
        let whole = behind.len() - behind.len() % 4;
        let length = list_behind(word, &behind[..whole], output)?;
        *self = Lister::holding(&behind[whole..]);
        Ok(length)
    }

    // Puts the `short` line of the bytes over, if there are any, and returns its length.
    pub fn close(&mut self, output: &mut [u8]) -> Result<usize, Answer>
        ensures value { outcome self.new result output.new ≡ call_of self.old (close output.old) }
        ensures refused { IfErr result (λ answer. answer ≢ Answer.Done) }
    {
        if self.refuses() {
            return Err(Answer::Closed);
        }
        let held = [self.first, self.second, self.third];
        let length = listing::list(&held[..usize::from(self.count)], output)?;
        self.closed = 1;
        Ok(length)
    }

    fn refuses(&self) -> bool
        ensures { result ≡ refuses self.now }
    {
        self.closed != 0 || self.count > 3
    }
}

// The listing of a word and of bytes behind it. The word's line goes by a place of its own, of fixed size since nothing is
// allocated: the output changes only when all lines are known to fit.
fn list_behind(word: [u8; 4], bytes: &[u8], output: &mut [u8]) -> Result<usize, Answer>
    ensures value { listed result output.new ≡ list_of (word ++ bytes.now) output.old }
    ensures refused { IsOkUnless result Answer.NoRoom }
{
    let mut line = [0u8; LINE_MAX];
    let start = listing::put_line(&mut line, 0, u32::from_le_bytes(word));
    if output.len() < start {
        return Err(Answer::NoRoom);
    }
    let length = listing::list(bytes, &mut output[start..])?;
    output[..start].copy_from_slice(&line[..start]);
    Ok(start + length)
}
