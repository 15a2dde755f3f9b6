// The hint of a prefetch in two pieces: a name has up to twelve bytes with its space and comma.
ghost use Rattle.std.specs.Prelude.{◌≡◌, ◌++◌, ◌+◌, ◌^◌, ◌<◌, ◌≤◌};
ghost use Rattle.ascii.specs.Ascii.{asc};
ghost use Rattle.text.specs.Hints.{unnamed};
ghost use Rattle.text.specs.route.Pieces.{Leads, Shows};
ghost use Rattle.text.specs.route.Hints.{kind_bytes, policy_bytes};
ghost use Rattle.text.specs.route.Lines.{hint_front, hint_rest};

use crate::piece::Piece;

// Behind its space, the kind and the level; or all of a hint without a name.
pub fn front(n: u32) -> Piece
    requires { n < 32 }
    ensures { Shows (asc " " ++ hint_front n) result }
{
    if is_unnamed(n) {
        let comma = Piece {
            bytes: 0x202c,
            length: 2,
        };
        return comma.numbered(n).led(b'#').led(b' ');
    }
    // A space, three letters of the kind, and l1, to whose digit the level is added.
    Piece {
        bytes: 0x316c_0000_0020 + kind(n / 8) * 256 + u64::from(n / 2 % 4) * 0x100_0000_0000,
        length: 6,
    }
}

// Whether to keep it, and the comma, before a piece.
pub fn rest(n: u32, behind: Piece) -> Piece
    requires { (n < 32) × (behind.length ≤ 2) }
    ensures { Leads (hint_rest n) behind result × (result.length ≤ behind.length + 6) }
{
    if is_unnamed(n) {
        return behind;
    }
    Piece {
        bytes: policy(n % 2) + behind.bytes * 0x1_0000_0000_0000,
        length: behind.length + 6,
    }
}

fn is_unnamed(n: u32) -> bool
    ensures { result ≡ unnamed n }
{
    (n / 8 % 4 == 3) | (n / 2 % 4 == 3)
}

// The kind and the policy come as the numbers that the fields of a hint are.
fn kind(kind: u32) -> u64
    ensures { (result ≡ kind_bytes kind) × (result < 2 ^ 24) }
{
    match kind {
        0 => 0x64_6c70, // pld
        1 => 0x69_6c70, // pli
        _ => 0x74_7370, // pst
    }
}

fn policy(bit: u32) -> u64
    ensures { (result ≡ policy_bytes bit) × (result < 2 ^ 48) }
{
    if bit == 0 {
        return 0x202c_7065_656b; // keep
    }
    0x202c_6d72_7473 // strm
}
