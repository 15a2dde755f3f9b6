// Registers and operands before a piece of text.
ghost use Rattle.std.specs.Prelude.{◌≡◌, ◌++◌, ◌+◌, ◌<◌, ◌≤◌};
ghost use Rattle.ascii.specs.Ascii.{asc};
ghost use Rattle.text.specs.Texts.{is_zero, register_text, base_text};
ghost use Rattle.text.specs.route.Pieces.{Leads, Shows};

use crate::piece::Piece;

// The letter is w or x, or that of a vector.
pub fn register(letter: u8, n: u32, rest: Piece) -> Piece
    requires { (n < 32) × (rest.length ≤ 5) }
    ensures { Leads (register_text letter n) rest result × (result.length ≤ rest.length + 3) }
{
    if is_zero(letter, n) {
        return rest.led(b'r').led(b'z').led(letter);
    }
    rest.numbered(n).led(letter)
}

// Register 31 is the zero register with a w or an x, and a register like any other with a vector's letter.
fn is_zero(letter: u8, n: u32) -> bool
    ensures { result ≡ is_zero letter n }
{
    (letter > b'v') & (n == 31)
}

// A base. Register 31 is the stack pointer.
pub fn base(n: u32, rest: Piece) -> Piece
    requires { (n < 32) × (rest.length ≤ 5) }
    ensures { Leads (base_text n) rest result × (result.length ≤ rest.length + 3) }
{
    if n == 31 {
        return rest.led(b'p').led(b's');
    }
    rest.numbered(n).led(b'x')
}

// A base behind its bracket.
pub fn bracketed(n: u32, rest: Piece) -> Piece
    requires { (n < 32) × (rest.length ≤ 4) }
    ensures { Leads (asc "[" ++ base_text n) rest result × (result.length ≤ rest.length + 4) }
{
    base(n, rest).led(b'[')
}

// A register as a first or second operand, and the comma behind it.
pub fn operand(letter: u8, n: u32) -> Piece
    requires { n < 32 }
    ensures { Shows (register_text letter n ++ asc ", ") result × (result.length ≤ 5) }
{
    let comma = Piece {
        bytes: 0x202c,
        length: 2,
    };
    register(letter, n, comma)
}
