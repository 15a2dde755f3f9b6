// Offsets as pieces of text. How many digits one has is as good as random, so that no branch depends on it: all seven
// are made, and the zeros in front are dropped.
ghost use Rattle.std.specs.Prelude.{◌≡◌, ◌+◌, ◌%◌, ◌<◌, ◌≤◌, nat_abs};
ghost use Rattle.ascii.specs.Ascii.{dec, signed_dec};
ghost use Rattle.text.specs.route.Pieces.{Shows, padded, count_to, reaches_of};

use crate::piece::Piece;

pub fn signed(n: i64) -> Piece
    requires { nat_abs n < 10000000 }
    ensures { Shows (signed_dec n) result }
{
    let far = number(bits::magnitude(n));
    if n < 0 {
        return far.led(b'-');
    }
    far
}

fn number(n: u64) -> Piece
    requires { n < 10000000 }
    ensures { Shows (dec n) result × (result.length ≤ 7) }
{
    let all = seven(n);
    let length = count(n);
    Piece {
        bytes: all.bytes >> (8 * (7 - length)),
        length,
    }
}

// Seven digits, with zeros in front.
fn seven(n: u64) -> Piece
    ensures { Shows (padded 7 n) result }
{
    let none = Piece {
        bytes: 0,
        length: 0,
    };
    none.led(digit(n))
        .led(digit(n / 10))
        .led(digit(n / 100))
        .led(digit(n / 1000))
        .led(digit(n / 10000))
        .led(digit(n / 100000))
        .led(digit(n / 1000000))
}

// The last digit of a number.
fn digit(n: u64) -> u8
    ensures { result ≡ 48 + n % 10 }
{
    (48 + n % 10) as u8
}

// How many digits a number below 10 ^ 7 has.
fn count(n: u64) -> usize
    ensures { (result ≡ count_to 6 n) × (1 ≤ result) × (result ≤ 7) }
{
    1 + reaches(n, 10)
        + reaches(n, 100)
        + reaches(n, 1000)
        + reaches(n, 10000)
        + reaches(n, 100000)
        + reaches(n, 1000000)
}

fn reaches(n: u64, least: u64) -> usize
    ensures { (result ≡ reaches_of n least) × (result ≤ 1) }
{
    if n < least {
        return 0;
    }
    1
}
