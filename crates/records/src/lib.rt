// Instructions as plain numbers for a host in another language: a word's answer, its numbers, and the word of numbers. An
// answer crosses as its number.
#![tactic(auto)]

ghost use Rattle.std.specs.Prelude.{◌≡◌};
ghost use Rattle.plain.specs.Coding.{decode_plain};
ghost use Rattle.records.specs.Replies.{class_number, touches_number, decode_numbered, EncodedAs};
ghost use Rattle.records.specs.Space.{load_or_store, sets_block};

use plain::Plain;

// The numbers are zeros where the answer is not 0.
#[repr(C)]
#[derive(Drop)]
pub struct PlainReply {
    pub plain: Plain,
    pub answer: u64,
}

// The word is 0 where the answer is not.
#[repr(C)]
#[derive(Drop)]
pub struct EncodedReply {
    pub answer: u64,
    pub word: u64,
}

// Answers 2, 3 and 4, which depend on the word alone, or 0.
pub fn milestarling_classify(word: u32) -> u64
    ensures { result ≡ class_number word }
{
    decoder::classify(word).into()
}

// Whether a word touches memory, of the set or not: 1, or 0. One that doesn't is no load or store, and never needs a step.
#[tactic(auto, unfolding(crate::specs::Space::touches_memory))]
pub fn milestarling_touches_memory(word: u32) -> u64
    ensures { result ≡ touches_number word }
{
    u64::from(is_load_or_store(word) | sets_block(word))
}

#[tactic(auto, using(crate::proofs::Spaces::load_or_store_lem))]
fn is_load_or_store(word: u32) -> bool
    ensures { result ≡ load_or_store word }
{
    (word / 0x800_0000 % 2 == 1) & (word / 0x200_0000 % 2 == 0)
}

// The data cache operations that set a block of memory or its tags.
#[tactic(auto, unfolding(crate::specs::Space::sets_block, bits::specs::Fields::part))]
fn sets_block(word: u32) -> bool
    ensures { result ≡ sets_block word }
{
    let op2 = word / 0x20 % 8;
    (word / 0x100 % 0x100_0000 == 0xd5_0b74) & matches!(op2, 1 | 3 | 4)
}

// The numbers of a word's instruction.
pub fn milestarling_decode(word: u32) -> PlainReply
    ensures { result ≡ decode_numbered (decode_plain word) }
{
    match plain::decode(word) {
        Ok(plain) => PlainReply { plain, answer: 0 },
        Err(answer) => PlainReply {
            plain: Plain::default(),
            answer: answer.into(),
        },
    }
}

// The word whose instruction has these numbers.
pub fn milestarling_encode(numbers: Plain) -> EncodedReply
    ensures { EncodedAs numbers result }
{
    match plain::encode(numbers) {
        Ok(word) => EncodedReply {
            answer: 0,
            word: word.into(),
        },
        Err(answer) => EncodedReply {
            answer: answer.into(),
            word: 0,
        },
    }
}
