// Six pieces put into a line. Each is stored with the zeros above it, which the next one covers. What stood behind the
// last is put back.
ghost use Rattle.std.specs.Prelude.{◌≡◌, ◌+◌, ◌≤◌, length};
ghost use Rattle.std.proofs.lemmas.List.Edits.{sets};
ghost use Rattle.bits.specs.Bytes.{bytes_of};
ghost use Rattle.ascii.specs.route.Puts.{Puts};
ghost use Rattle.text.specs.route.Pieces.{text_in};
ghost use Rattle.text.specs.route.Lines.{whole};
ghost use Rattle.printer.specs.route.Printing.{Spills, total_of};

use text::{Piece, Pieces};

pub fn put_pieces(line: &mut [u8], at: usize, p: Pieces) -> usize
    ensures { Puts line.old at (whole p) line.new result }
{
    let room = total(p) + 8;
    if line.len() >= room {
        if at <= line.len() - room {
            return put_in_room(line, at, p);
        }
    }
    put_in_part(line, at, p)
}

// The bytes of a line.
pub fn total(p: Pieces) -> usize
    ensures { (result ≡ total_of p) × (result ≤ 48) }
{
    p.name.length
        + p.first.length
        + p.second.length
        + p.third.length
        + p.fourth.length
        + p.last.length
}

// With room for eight bytes more.
fn put_in_room(line: &mut [u8], at: usize, p: Pieces) -> usize
    requires { at + total_of p + 8 ≤ length line.old }
    ensures { Puts line.old at (whole p) line.new result }
{
    let end = at + total(p);
    let behind = bits::eight_at(line, end);
    spill_pieces(line, at, p);
    put_number(line, end, behind);
    end
}

// One by one: a loop would need the pieces in an array, and those who make them know them by name.
fn spill_pieces(line: &mut [u8], at: usize, p: Pieces) -> usize
    requires { at + total_of p + 8 ≤ length line.old }
    ensures { Spills line.old at (whole p) line.new result }
{
    let first = spill(line, at, p.name);
    let second = spill(line, first, p.first);
    let third = spill(line, second, p.second);
    let fourth = spill(line, third, p.third);
    let last = spill(line, fourth, p.fourth);
    spill(line, last, p.last)
}

// A piece with the zeros above it.
fn spill(line: &mut [u8], at: usize, piece: Piece) -> usize
    requires { at + 8 ≤ length line.old }
    ensures { Spills line.old at (text_in piece) line.new result × (result ≡ at + piece.length) }
{
    put_number(line, at, piece.bytes);
    at + piece.length
}

// The eight bytes of a number, the lowest first.
#[tactic(auto, using(ascii::proofs::Pieces::number_put))]
fn put_number(line: &mut [u8], at: usize, number: u64)
    requires { at + 8 ≤ length line.old }
    ensures { line.new ≡ sets line.old at (bytes_of 8 number) }
{
    line[at..at + 8].copy_from_slice(&number.to_le_bytes());
}

// Where a line has less room.
fn put_in_part(line: &mut [u8], at: usize, p: Pieces) -> usize
    ensures { Puts line.old at (whole p) line.new result }
{
    let first = put_piece(line, at, p.name);
    let second = put_piece(line, first, p.first);
    let third = put_piece(line, second, p.second);
    let fourth = put_piece(line, third, p.third);
    let last = put_piece(line, fourth, p.fourth);
    put_piece(line, last, p.last)
}

fn put_piece(line: &mut [u8], at: usize, piece: Piece) -> usize
    ensures { Puts line.old at (text_in piece) line.new result }
{
    let bytes = piece.bytes.to_le_bytes();
    ascii::put_text(line, at, &bytes[..piece.length])
}
