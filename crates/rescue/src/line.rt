// What becomes of a line.
ghost use Rattle.std.specs.Prelude.{◌≡◌, true, [], ◌∷◌, ◌++◌, ◌↔◌, ◌+◌, ◌≤◌, ◌<◌, length, drop, MatchOption, IfSome};
ghost use Rattle.listing.specs.Listing.{hex8, line_text};
ghost use Rattle.rescue.specs.Rescue.{Digits, FateOf};
ghost use Rattle.rescue.specs.route.Search.{until, digit_of};
ghost use Rattle.rescue.specs.route.Steps.{WordFirst, OtherFirst, LineAt, Stands};

use crate::Fate;
use listing::LINE_MAX;

// Room for the line of any word, with eight bytes behind it, so that its text is stored eight at a time. Nothing is allocated.
const BUFFER: usize = LINE_MAX + 8;

// Where a line ends, before its newline, and what becomes of it: each line has both.
#[derive(Drop)]
pub struct Line {
    pub end: usize,
    pub fate: Fate,
}

// Where a byte first stands from an index on, or the length.
fn find(bytes: &[u8], from: usize, byte: u8) -> usize
    requires { from ≤ length bytes.now }
    ensures { (result ≡ from + until byte (drop from bytes.now)) × (result ≤ length bytes.now) }
{
    for i in from..bytes.len() {
        if bytes[i] == byte {
            return i;
        }
    }
    bytes.len()
}

// The number of a digit in lower case.
#[tactic(auto, using(std::proofs::lemmas::Bool::Decides::nat_tests), unfolding(crate::specs::route::Search::digit_of))]
fn digit(byte: u8) -> Option<u32>
    ensures { MatchOption result (digit_of byte ≡ 16) (λ d. (d ≡ digit_of byte) × (d < 16)) }
{
    match byte {
        b'0'..=b'9' => Some(u32::from(byte - b'0')),
        b'a'..=b'f' => Some(u32::from(byte - b'a') + 10),
        _ => None,
    }
}

// The word of a field of eight digits.
fn digits(field: &[u8]) -> Option<u32>
    ensures { MatchOption result (¬ Digits field.now) (λ word. hex8 word ≡ field.now) }
{
    if field.len() != 8 {
        return None;
    }
    let mut word = 0;
    for byte in field {
        let number = digit(*byte)?;
        word = word * 16 + number;
    }
    Some(word)
}

// Whether a line, with a newline, is the line of a word.
fn is_line(line: &[u8], word: u32) -> bool
    ensures { (result ≡ true) ↔ (line.now ++ (10 ∷ []) ≡ line_text word) }
{
    let mut buffer = [0u8; BUFFER];
    let end = listing::put_line(&mut buffer, 0, word);
    let body = end - 1;
    &buffer[..body] == line
}

// The line at an index. Where a word's line stands there, with its newline, nothing is searched for.
pub fn line_at(input: &[u8], at: usize) -> Line
    requires { at ≤ length input.now }
    ensures { LineAt input.now at result.end result.fate }
{
    if input.len() - at >= 8
        && let Some(word) = digits(&input[at..at + 8])
        && let Some(long) = standing(input, at, word)
    {
        return Line {
            end: at + (long - 1),
            fate: Fate::Kept(word),
        };
    }
    let end = find(input, at, b'\n');
    Line {
        end,
        fate: fate(&input[at..end]),
    }
}

// How many bytes the line of a word has, with its newline, where it stands at an index.
fn standing(input: &[u8], at: usize, word: u32) -> Option<usize>
    requires { at ≤ length input.now }
    ensures { IfSome result (λ long. (0 < long) × Stands input.now at word long) }
{
    let mut buffer = [0u8; BUFFER];
    let long = listing::put_line(&mut buffer, 0, word);
    if input[at..].starts_with(&buffer[..long]) {
        Some(long)
    } else {
        None
    }
}

fn fate(line: &[u8]) -> Fate
    ensures { FateOf line.now result }
{
    let first = find(line, 0, b'\t');
    match digits(&line[..first]) {
        Some(word) => keep(line, word),
        None => restore(line, first),
    }
}

// A line whose first field is the digits of a word.
fn keep(line: &[u8], word: u32) -> Fate
    requires { WordFirst line.now word }
    ensures { FateOf line.now result }
{
    if is_line(line, word) {
        Fate::Kept(word)
    } else {
        Fate::Dropped
    }
}

// A line whose first field is other than eight digits, and ends at an index.
fn restore(line: &[u8], first: usize) -> Fate
    requires { OtherFirst line.now first }
    ensures { FateOf line.now result }
{
    if first == line.len() {
        return Fate::Dropped;
    }
    let start = first + 1;
    let second = find(line, start, b'\t');
    if second == line.len() {
        return Fate::Dropped;
    }
    if find(line, second + 1, b'\t') < line.len() {
        return Fate::Dropped;
    }
    match reader::read(&line[start..second]) {
        Ok(word) => Fate::Restored(word),
        Err(_) => Fate::Dropped,
    }
}
