// What every function of the project can answer. 01 speaks of answers by number: specs/Answers.antt
// gives the number of each.
ghost use Rattle.std.specs.Prelude.{◌≡◌, ◌<◌};
ghost use Rattle.instruction.specs.Answers.{answer_number};

use crate::family::Instruction;

#[derive(Clone, Copy, PartialEq, Eq)]
pub enum Answer {
    Done,
    BadWindow,
    NotInSet,
    Undefined,
    Unpredictable,
    TaintedAddress,
    Misaligned,
    OutOfWindow,
    ReadOnly,
    NoSuchText,
    NoRoom,
    NoSuchInstruction,
    NotAllowed,
    Malformed,
    BadChecksum,
    BadRecordType,
    Closed,
    BadTrace,
    AfterEnd,
}

// 01's number of an answer.
pub fn answer_number(answer: Answer) -> u32
    ensures { (result ≡ answer_number answer) × (result < 32) }
{
    match answer {
        Answer::Done => 0,
        Answer::BadWindow => 1,
        Answer::NotInSet => 2,
        Answer::Undefined => 3,
        Answer::Unpredictable => 4,
        Answer::TaintedAddress => 5,
        Answer::Misaligned => 6,
        Answer::OutOfWindow => 7,
        Answer::ReadOnly => 8,
        Answer::NoSuchText => 9,
        Answer::NoRoom => 10,
        Answer::NoSuchInstruction => 11,
        Answer::NotAllowed => 12,
        Answer::Malformed => 13,
        Answer::BadChecksum => 14,
        Answer::BadRecordType => 15,
        Answer::Closed => 16,
        Answer::BadTrace => 17,
        Answer::AfterEnd => 18,
    }
}

// An answer crosses to other languages as its number.
impl From<Answer> for u64 {
    ghost from_gives = { λ answer number. number ≡ answer_number answer };

    fn from(answer: Answer) -> u64 {
        u64::from(answer_number(answer))
    }
}

// What decoding a word gives. The instruction is the empty one where the word is refused.
#[derive(Drop)]
pub struct Decoded {
    pub answer: Answer,
    pub instruction: Instruction,
}
