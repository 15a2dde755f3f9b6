// Pieces of text, each put into a line at a position. They return the position behind the piece. What the
// line has no room for is left out. A line and a position stay two parameters: positions come from other crates and go on to
// them as numbers, and a struct of both would be made and taken apart at each call.
ghost use Rattle.std.specs.Prelude.{◌≡◌, ◌+◌, ◌%◌, [], ◌∷◌};
ghost use Rattle.bits.specs.Bytes.{bytes_of};
ghost use Rattle.ascii.specs.Ascii.{dec};
ghost use Rattle.ascii.specs.route.Puts.{Puts};

pub fn put_byte(line: &mut [u8], at: usize, byte: u8) -> usize
    ensures { Puts line.old at (byte ∷ []) line.new result }
{
    if at < line.len() {
        line[at] = byte;
        return at + 1;
    }
    at
}

// So many bytes as the compiler knows: one test and one store where there is room for all of them.
#[tactic(auto, using(crate::proofs::Pieces::copied_whole))]
pub fn put_bytes<const N: usize>(line: &mut [u8], at: usize, bytes: [u8; N]) -> usize
    ensures { Puts line.old at bytes.entry line.new result }
{
    if N <= line.len() && at <= line.len() - N {
        line[at..at + N].copy_from_slice(&bytes);
        return at + N;
    }
    put_text(line, at, &bytes)
}

// The eight bytes of a number, the lowest first.
#[tactic(auto, using(crate::proofs::Pieces::number_bytes))]
pub fn put_eight(line: &mut [u8], at: usize, number: u64) -> usize
    ensures { Puts line.old at (bytes_of 8 number) line.new result }
{
    put_bytes(line, at, number.to_le_bytes())
}

#[tactic(auto, using(crate::proofs::Pieces::copied_front, crate::proofs::Pieces::out_of_room))]
pub fn put_text(line: &mut [u8], at: usize, piece: &[u8]) -> usize
    ensures { Puts line.old at piece.now line.new result }
{
    if line.len() <= at {
        return at;
    }
    let count = std::cmp::min(piece.len(), line.len() - at);
    line[at..at + count].copy_from_slice(&piece[..count]);
    at + count
}

#[tactic(auto, using(crate::proofs::Decimals::dec_one, crate::proofs::Decimals::dec_two, crate::proofs::Decimals::dec_three, crate::proofs::Decimals::dec_four,))]
pub fn put_decimal(line: &mut [u8], at: usize, n: u64) -> usize
    ensures { Puts line.old at (dec n) line.new result }
{
    match n {
        0..=9 => put_byte(line, at, digit(n)),
        10..=99 => put_bytes(line, at, [digit(n / 10), digit(n)]),
        100..=999 => put_bytes(line, at, [digit(n / 100), digit(n / 10), digit(n)]),
        1000..=9999 => put_bytes(
            line,
            at,
            [digit(n / 1000), digit(n / 100), digit(n / 10), digit(n)],
        ),
        _ => {
            let next = put_decimal(line, at, n / 10);
            put_byte(line, next, digit(n))
        }
    }
}

// The last digit.
fn digit(n: u64) -> u8
    ensures { result ≡ 48 + n % 10 }
{
    (48 + n % 10) as u8
}
