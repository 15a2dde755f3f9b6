// The line at the start of what is left of a text. A byte past the end is 0, and no digit and no newline.
ghost use Rattle.std.specs.Prelude.{◌≡◌, ◌+◌, ◌*◌, ◌<◌, ltb, MatchOption, unwrap_or};
ghost use Rattle.bits.specs.Choice.{pick};
ghost use Rattle.plan.specs.Refusals.{verdict_in};
ghost use Rattle.image.specs.Lines.{digit_of, byte_in};
ghost use Rattle.image.specs.route.Rest.{begins, behind, Sums};
ghost use Rattle.image.specs.Records.{sum_in, bad_count, bad_type, upper_after, places_in};
ghost use Rattle.image.specs.Import.{any_beyond, faults_in};

use crate::place::Span;
use instruction::Answer;

fn digit(c: u8) -> Option<u8>
    ensures { MatchOption result (digit_of c ≡ 16) (λ d. (d ≡ digit_of c) × (d < 16)) }
{
    if is_digit(c) {
        Some(c % 16 + c / 64 * 9)
    } else {
        None
    }
}

// By arms, which become one test of a bit, that a processor can guess, as the value above is without a branch. With
// `is_ascii_hexdigit` an import takes half as long again, and with `matches!` or `to_digit` twice as long.
#[tactic(auto, unfolding(crate::specs::Lines::digit_of))]
fn is_digit(c: u8) -> bool
    ensures { result ≡ ltb (digit_of c) 16 }
{
    match c {
        48 => true,
        49 => true,
        50 => true,
        51 => true,
        52 => true,
        53 => true,
        54 => true,
        55 => true,
        56 => true,
        57 => true,
        65 => true,
        66 => true,
        67 => true,
        68 => true,
        69 => true,
        70 => true,
        97 => true,
        98 => true,
        99 => true,
        100 => true,
        101 => true,
        102 => true,
        _ => false,
    }
}

// A byte of the line.
pub fn byte_in(rest: &[u8], i: usize) -> u8
    requires { i < 65536 }
    ensures { result ≡ byte_in rest.now i }
{
    let high = digit(bits::byte_at(rest, 2 * i + 1)).unwrap_or(0);
    let low = digit(bits::byte_at(rest, 2 * i + 2)).unwrap_or(0);
    high * 16 + low
}

// Two bytes of the line as one number, the first highest.
pub fn pair_in(rest: &[u8], i: usize) -> u16
    requires { i < 65535 }
    ensures { result ≡ byte_in rest.now i * 256 + byte_in rest.now (i + 1) }
{
    u16::from(byte_in(rest, i)) * 256 + u16::from(byte_in(rest, i + 1))
}

// The bytes of a line added up modulo 256, n of them, or none where one of their digits is none.
fn sum_of(rest: &[u8], n: usize) -> Option<u8>
    requires { n < 65536 }
    ensures { Sums rest.now n (unwrap_or result 256) }
{
    let mut sum: u64 = 0;
    for i in 0..n {
        let high = digit(bits::byte_at(rest, 2 * i + 1))?;
        let low = digit(bits::byte_at(rest, 2 * i + 2))?;
        sum += u64::from(high * 16 + low);
    }
    Some((sum % 256) as u8)
}

// Shape and sum at once, since each takes all digits: the sum, or none where it isn't a line.
fn sum(rest: &[u8]) -> Option<u8>
    ensures { unwrap_or result 256 ≡ pick (begins rest.now) (sum_in rest.now) 256 }
{
    if bits::byte_at(rest, 0) != b':' {
        return None;
    }
    let count = usize::from(byte_in(rest, 0));
    if bits::byte_at(rest, 2 * count + 11) != b'\n' {
        return None;
    }
    sum_of(rest, 5 + count)
}

#[tactic(auto, unfolding(crate::specs::Records::bad_count))]
fn is_bad_count(rest: &[u8]) -> bool
    ensures { result ≡ bad_count rest.now }
{
    match byte_in(rest, 3) {
        4 => byte_in(rest, 0) != 2,
        1 => byte_in(rest, 0) != 0,
        _ => false,
    }
}

#[tactic(auto, unfolding(crate::specs::Records::bad_type))]
fn is_bad_type(kind: u8) -> bool
    ensures { result ≡ bad_type kind }
{
    !matches!(kind, 0 | 1 | 4)
}

// What is behind the line.
pub fn behind(rest: &[u8]) -> &[u8]
    ensures { result.now ≡ behind rest.now }
{
    let length = 2 * usize::from(byte_in(rest, 0)) + 12;
    if rest.len() < length {
        return &[];
    }
    &rest[length..]
}

// The upper half of the addresses behind the line.
#[tactic(auto, unfolding(crate::specs::Records::upper_after))]
pub fn upper_after(rest: &[u8], upper: u16) -> u16
    ensures { result ≡ upper_after upper rest.now }
{
    if byte_in(rest, 3) == 4 && byte_in(rest, 0) == 2 {
        pair_in(rest, 4)
    } else {
        upper
    }
}

// The address of the line's first data byte.
pub fn first_in(rest: &[u8], upper: u16) -> u32
    ensures { result ≡ upper * 65536 + (byte_in rest.now 1 * 256 + byte_in rest.now 2) }
{
    u32::from(upper) * 65536 + u32::from(pair_in(rest, 1))
}

#[tactic(auto, unfolding(crate::specs::Records::places_in))]
fn leaves(rest: &[u8], upper: u16, span: Span) -> bool
    ensures { result ≡ any_beyond span.origin span.len (places_in upper rest.now) }
{
    byte_in(rest, 3) == 0 && span.is_left_by(first_in(rest, upper), byte_in(rest, 0))
}

// The first fault of the line.
#[tactic(auto, using(crate::proofs::Tests::sum_none), unfolding(crate::specs::Import::faults_in))]
pub fn fault(rest: &[u8], ended: bool, upper: u16, span: Span) -> Result<(), Answer>
    ensures { result ≡ verdict_in (faults_in span.origin span.len (begins rest.now) ended upper rest.now) }
{
    if ended {
        return Err(Answer::Malformed);
    }
    let Some(sum) = sum(rest) else {
        return Err(Answer::Malformed);
    };
    if is_bad_count(rest) {
        return Err(Answer::Malformed);
    }
    if sum != 0 {
        return Err(Answer::BadChecksum);
    }
    if is_bad_type(byte_in(rest, 3)) {
        return Err(Answer::BadRecordType);
    }
    if leaves(rest, upper, span) {
        return Err(Answer::OutOfWindow);
    }
    Ok(())
}
