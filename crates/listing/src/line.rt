// One line of a listing, put into an output at a position.
ghost use Rattle.std.specs.Prelude.{◌≡◌, length, ◌<◌, ◌%◌, ◌^◌};
ghost use Rattle.bits.specs.Bytes.{bytes_of};
ghost use Rattle.decoder.specs.Decoding.{class_of};
ghost use Rattle.ascii.specs.route.Puts.{Puts};
ghost use Rattle.listing.specs.Listing.{hex_digit, hex4, hex8, content_text, line_text, short_text};

use crate::{LINE_MAX, SHORT_MAX};
use instruction::Answer;
use printer::Shown;

pub fn put_line(output: &mut [u8], at: usize, word: u32) -> usize
    ensures { Puts output.old at (line_text word) output.new result }
{
    let tab = put_hex(output, at, word);
    let text = ascii::put_byte(output, tab, b'\t');
    let shown = put_content(output, text, word);
    let number = instruction::answer_number(shown.answer);
    ascii::put_bytes(output, shown.end, [b'\t', (48 + number) as u8, b'\n'])
}

// Eight digits.
fn put_hex(output: &mut [u8], at: usize, word: u32) -> usize
    ensures { Puts output.old at (hex8 word) output.new result }
{
    let high = four_digits(word / 65536);
    let low = four_digits(word % 65536);
    ascii::put_eight(output, at, high + low * 0x1_0000_0000)
}

// Four digits as a number, the first lowest.
fn four_digits(n: u32) -> u64
    ensures { (bytes_of 4 result ≡ hex4 n) × (result < 2 ^ 32) }
{
    u64::from(u32::from_le_bytes([digit(n / 4096), digit(n / 256), digit(n / 16), digit(n)]))
}

// The last digit of a number.
fn digit(n: u32) -> u8
    ensures { result ≡ hex_digit (n % 16) }
{
    b"0123456789abcdef"[(n % 16) as usize]
}

// The text of a word, or a dash for words of answers 2 and 3, which have none.
fn put_content(output: &mut [u8], at: usize, word: u32) -> Shown
    ensures { (result.answer ≡ class_of word) × Puts output.old at (content_text word) output.new result.end }
{
    let shown = printer::put(output, at, word);
    let answer = shown.answer;
    let end = shown.end;
    match answer {
        Answer::NotInSet | Answer::Undefined => Shown {
            answer,
            end: ascii::put_byte(output, end, b'-'),
        },
        _ => Shown { answer, end },
    }
}

// The `short` line of bytes that are left over, none for no bytes.
pub fn put_short(output: &mut [u8], at: usize, count: usize) -> usize
    ensures { Puts output.old at (short_text (count % 16)) output.new result }
{
    let n = count % 16;
    if n == 0 {
        return at;
    }
    let dash = ascii::put_text(output, at, b"short");
    let digit = ascii::put_bytes(output, dash, [b'\t', b'-', b'\t']);
    ascii::put_bytes(output, digit, [(48 + n) as u8, b'\n'])
}

// By a line of fixed size, since nothing is allocated.
pub fn line_length(word: u32) -> usize
    ensures { result ≡ length (line_text word) }
{
    let mut line = [0u8; LINE_MAX];
    put_line(&mut line, 0, word)
}

pub fn short_length(count: usize) -> usize
    ensures { result ≡ length (short_text (count % 16)) }
{
    if count % 16 == 0 { 0 } else { SHORT_MAX }
}
