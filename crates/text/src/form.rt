// The forms of a line: what stands behind its operands. Offsets are shown but for a zero that is not written back.
ghost use Rattle.std.specs.Prelude.{◌≡◌, true, [], ◌++◌, ◌+◌, ◌<◌, ◌≤◌, eqb, nat_abs};
ghost use Rattle.bits.specs.Choice.{pick};
ghost use Rattle.ascii.specs.Ascii.{asc, signed_dec};
ghost use Rattle.mnemonic.specs.route.Named.{known};
ghost use Rattle.text.specs.Texts.{base_text, offset_tail, pre_tail, post_tail};
ghost use Rattle.text.specs.route.Pieces.{text_in, Leads, Shows};
ghost use Rattle.text.specs.route.Lines.{Made, first_part, rest_part, front_in, ahead};

use crate::piece::{Front, Piece, Pieces};
use crate::{hint, number, register};
use mnemonic::Mnemonic;

pub fn front(m: Mnemonic, n: u32) -> Front
    requires { ((known m).fits ≡ true) × (n < 32) }
    ensures { ahead result ≡ front_in m n }
{
    Front {
        name: name(m),
        first: first_operand(m, n),
    }
}

// A line by its front and the further pieces. The second is the rest of the first operand, or the second one.
pub fn line_of(front: Front, second: Piece, third: Piece, fourth: Piece, last: Piece) -> Pieces
    ensures { Made (ahead front ++ text_in second ++ text_in third ++ text_in fourth ++ text_in last) result }
{
    Pieces {
        name: front.name,
        first: front.first,
        second,
        third,
        fourth,
        last,
    }
}

fn name(m: Mnemonic) -> Piece
    requires { (known m).fits ≡ true }
    ensures { Shows (known m).letters result }
{
    Piece {
        bytes: m.letters,
        length: (m.shape % 256) as usize,
    }
}

fn first_operand(m: Mnemonic, n: u32) -> Piece
    requires { n < 32 }
    ensures { Shows (asc " " ++ first_part (known m).letter n) result }
{
    let letter = (m.shape / 256) as u8;
    if letter == b'#' {
        return hint::front(n);
    }
    register::operand(letter, n).led(b' ')
}

// What a first operand has behind its first piece, before a piece.
pub fn rest_operand(m: Mnemonic, n: u32, behind: Piece) -> Piece
    requires { (n < 32) × (behind.length ≤ 2) }
    ensures { Leads (rest_part (known m).letter n) behind result × (result.length ≤ behind.length + 6) }
{
    if m.shape / 256 == 0x23 {
        return hint::rest(n, behind);
    }
    behind
}

pub fn none() -> Piece
    ensures { Shows [] result }
{
    Piece {
        bytes: 0,
        length: 0,
    }
}

// Each form has pieces of its own around the offset, and is no more than they.
pub fn plain(front: Front, second: Piece, base: u32, offset: i64) -> Pieces
    requires { (base < 32) × (nat_abs offset < 10000000) }
    ensures { Made (ahead front ++ text_in second ++ asc "[" ++ base_text base ++ offset_tail offset) result }
{
    let far = bits::magnitude(offset);
    let close = Piece {
        bytes: 0x5d, // ]
        length: 1,
    };
    line_of(
        front,
        second,
        register::bracketed(base, sign_for(far)),
        offset_for(far, offset),
        close,
    )
}

// No branch depends on whether an offset is 0.
fn sign_for(far: u64) -> Piece
    ensures { Shows (pick (eqb far 0) [] (asc ", #")) result × (result.length ≤ 3) }
{
    if far == 0 {
        return none();
    }
    Piece {
        bytes: 0x23_202c, // , #
        length: 3,
    }
}

fn offset_for(far: u64, offset: i64) -> Piece
    requires { nat_abs offset < 10000000 }
    ensures { Shows (pick (eqb far 0) [] (signed_dec offset)) result }
{
    let shown = number::signed(offset);
    if far == 0 {
        return none();
    }
    shown
}

pub fn pre(front: Front, second: Piece, base: u32, offset: i64) -> Pieces
    requires { (base < 32) × (nat_abs offset < 10000000) }
    ensures { Made (ahead front ++ text_in second ++ asc "[" ++ base_text base ++ pre_tail offset) result }
{
    let sign = Piece {
        bytes: 0x23_202c, // , #
        length: 3,
    };
    let close = Piece {
        bytes: 0x215d, // ]!
        length: 2,
    };
    line_of(
        front,
        second,
        register::bracketed(base, sign),
        number::signed(offset),
        close,
    )
}

pub fn post(front: Front, second: Piece, base: u32, offset: i64) -> Pieces
    requires { (base < 32) × (nat_abs offset < 10000000) }
    ensures { Made (ahead front ++ text_in second ++ asc "[" ++ base_text base ++ post_tail offset) result }
{
    let sign = Piece {
        bytes: 0x2320_2c5d, // ], #
        length: 4,
    };
    line_of(
        front,
        second,
        register::bracketed(base, sign),
        number::signed(offset),
        none(),
    )
}

pub fn literal(front: Front, rest: Piece, offset: i64) -> Pieces
    requires { nat_abs offset < 10000000 }
    ensures { Made (ahead front ++ text_in rest ++ asc "#" ++ signed_dec offset) result }
{
    let sign = Piece {
        bytes: 0x23, // #
        length: 1,
    };
    line_of(front, rest, sign, number::signed(offset), none())
}
