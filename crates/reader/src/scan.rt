// A text, cut at its spaces into words. Of each word the scan keeps the last eight bytes that are no digits, packed
// into the highest bytes of a key with the first of them lowest, and the number that its digits make. Nothing is
// refused here: what a text lost on the way is found by writing the line of what was read.
ghost use Rattle.std.specs.Prelude.{◌≡◌};
ghost use mathlib.Core.List.{foldl};
ghost use Rattle.reader.specs.route.Scanned.{scan_of};
ghost use Rattle.reader.specs.route.Scan.{keyed, digited, plain_of, step_of, scan_start};

// The key of a word, and its number.
#[derive(Clone, Copy)]
pub struct Word {
    pub key: u64,
    pub number: u64,
}

// Word 0 is the mnemonic, 1 the first operand, 2 the second register or a literal's offset, 4 the base, 5 the
// offset or the index, 6 how the index is extended, 7 by how much it is shifted.
#[derive(Clone, Copy)]
pub struct Scan {
    pub words: [Word; 8],
    pub at: usize,
}

impl Scan {
    fn put_byte(&mut self, byte: u8)
        ensures { scan_of self.new ≡ keyed (scan_of self.old) byte }
    {
        let at = self.at % 8;
        let rest = self.words[at].key / 256 % 0x100_0000_0000_0000;
        self.words[at].key = rest + u64::from(byte) * 0x100_0000_0000_0000;
    }

    fn put_digit(&mut self, digit: u8)
        ensures { scan_of self.new ≡ digited (scan_of self.old) digit }
    {
        let at = self.at % 8;
        let rest = self.words[at].number % 1000000000000000000;
        self.words[at].number = rest * 10 + u64::from(digit);
    }

    #[tactic(auto, using(std::proofs::lemmas::Bool::Decides::nat_tests), unfolding(crate::specs::route::Scan::plain_of))]
    fn put_plain(&mut self, byte: u8)
        ensures { scan_of self.new ≡ plain_of (scan_of self.old) byte }
    {
        match byte {
            b'0'..=b'9' => self.put_digit(byte % 16),
            _ => self.put_byte(byte),
        }
    }

    fn step(&mut self, byte: u8)
        ensures { scan_of self.new ≡ step_of (scan_of self.old) byte }
    {
        match byte {
            b' ' => self.at = self.at % 8 + 1,
            b'[' => {
                self.at = 4;
                self.put_byte(byte);
            }
            b'p' | b'z' => {
                self.put_digit(31);
                self.put_byte(byte);
            }
            _ => self.put_plain(byte),
        }
    }
}

pub fn scan_text(text: &[u8]) -> Scan
    ensures { scan_of result ≡ foldl step_of scan_start text.now }
{
    let mut scan = Scan {
        words: [Word { key: 0, number: 0 }; 8],
        at: 0,
    };
    for byte in text {
        scan.step(*byte);
    }
    scan
}
