// Short texts, each in one number, so that each is put into a line by one store, however long it is.
ghost use Rattle.std.specs.Prelude.{◌^◌, ◌<◌, ◌≤◌};

// Up to eight bytes, the first lowest, with zeros above them.
#[derive(Clone, Copy)]
pub struct Piece {
    pub bytes: u64,
    pub length: usize,
    pub ghost short: { length ≤ 8 },
    pub ghost low: { bytes < 256 ^ length },
}

// A line of text in six pieces, of which some may be empty.
#[derive(Clone, Copy)]
pub struct Pieces {
    pub name: Piece,
    pub first: Piece,
    pub second: Piece,
    pub third: Piece,
    pub fourth: Piece,
    pub last: Piece,
}

// What a line begins with: a mnemonic, and the first piece of its first operand.
#[derive(Clone, Copy)]
pub struct Front {
    pub name: Piece,
    pub first: Piece,
}

impl Piece {
    ghost use Rattle.std.specs.Prelude.{[], ◌∷◌, ◌+◌};
    ghost use Rattle.ascii.specs.Ascii.{dec};
    ghost use Rattle.text.specs.route.Pieces.{Leads};

    // With a byte before it.
    pub(crate) fn led(self, byte: u8) -> Piece
        requires { self.length ≤ 7 }
        ensures { Leads (byte ∷ []) self result }
    {
        Piece {
            bytes: u64::from(byte) + self.bytes * 256,
            length: self.length + 1,
        }
    }

    // With a number of one digit or two before it.
    pub(crate) fn numbered(self, n: u32) -> Piece
        requires { (n < 100) × (self.length ≤ 6) }
        ensures { Leads (dec n) self result × (result.length ≤ self.length + 2) }
    {
        let ones = self.led((48 + n % 10) as u8);
        if n < 10 {
            return ones;
        }
        ones.led((48 + n / 10) as u8)
    }
}
