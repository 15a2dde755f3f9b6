// The form of a line with an index.
ghost use Rattle.std.specs.Prelude.{◌≡◌, ◌++◌, ◌+◌, ◌%◌, ◌^◌, ◌<◌};
ghost use Rattle.ascii.specs.Ascii.{asc};
ghost use Rattle.text.specs.Texts.{register_text, base_text, extend_text};
ghost use Rattle.text.specs.route.Pieces.{text_in, Shows};
ghost use Rattle.text.specs.route.Lines.{Made, ahead, extend_part, amount_part};

use crate::piece::{Front, Piece, Pieces};
use crate::{form, register};
use instruction::IndexOperands;

// With what stands before the base, its bracket too.
pub fn indexed(front: Front, second: Piece, o: IndexOperands, size: u32) -> Pieces
    requires { (o.base < 32) × (o.index < 32) × (size < 5) }
    ensures { Made (ahead front ++ text_in second ++ base_text o.base ++ (asc ", " ++ register_text (119 + o.option % 2) o.index ++ extend_text o.option o.scaled size ++ asc "]")) result }
{
    let option = o.option;
    let index = register::register((119 + option % 2) as u8, o.index, form::none());
    let base = register::base(o.base, index.led(b' ').led(b','));
    form::line_of(
        front,
        second,
        base,
        extend(option, o.scaled),
        amount(o.scaled, size),
    )
}

// How the index is extended. The shift of one that is not is left out with its amount.
fn extend(option: u32, scaled: u32) -> Piece
    ensures { Shows (extend_part option scaled) result }
{
    match option {
        0b011 => shift(scaled),
        0b010 => six(0x7774_7875_202c), // , uxtw
        0b110 => six(0x7774_7873_202c), // , sxtw
        _ => six(0x7874_7873_202c), // , sxtx
    }
}

fn six(bytes: u64) -> Piece
    requires { bytes < 256 ^ 6 }
    ensures { (result.bytes ≡ bytes) × (result.length ≡ 6) }
{
    Piece { bytes, length: 6 }
}

fn shift(scaled: u32) -> Piece
    ensures { Shows (extend_part 0b011 scaled) result }
{
    if scaled == 1 {
        return Piece {
            bytes: 0x6c_736c_202c, // , lsl
            length: 5,
        };
    }
    form::none()
}

// The amount of a shift, and the bracket.
fn amount(scaled: u32, size: u32) -> Piece
    requires { size < 5 }
    ensures { Shows (amount_part scaled size) result }
{
    if scaled == 1 {
        return Piece {
            bytes: 0x5d30_2320 + u64::from(size) * 0x1_0000, // #0]
            length: 4,
        };
    }
    Piece {
        bytes: 0x5d, // ]
        length: 1,
    }
}
