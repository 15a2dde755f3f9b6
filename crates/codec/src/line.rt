// The answer to a case, as a line: what decoding gives, and what encoding that gives.
use crate::case::{Case, WORD};
use crate::record;
use arrayvec::ArrayString;
use console::Failed;
use instruction::{Answer, Family, Instruction};
use std::fmt::{self, Write};

// More room than any line needs.
type Line = ArrayString<256>;

pub fn write_answer(rt: &(impl Print + Eprint), case: Case) -> Result<(), Failed> {
    let mut line = Line::new();
    let _ = put_answer(&mut line, case);
    let text = line.as_str().as_bytes();
    console::write(rt, text, text.len())
}

fn put_answer(line: &mut Line, case: Case) -> fmt::Result {
    if case.what == WORD {
        put_decoded(line, record::low_half(case.operation))
    } else {
        put_encoded(line, record::instruction_of(case))
    }
}

fn put_decoded(line: &mut Line, word: u32) -> fmt::Result {
    let class = u64::from(decoder::classify(word));
    let (decode, instruction) = match decoder::decode(word) {
        Ok(instruction) => (Answer::Done, instruction),
        Err(answer) => (
            answer,
            Instruction {
                family: Family::Empty,
            },
        ),
    };
    let decode = u64::from(decode);
    write!(line, "word {word:08x} class {class} decode {decode} ")?;
    put_encoded(line, instruction)
}

fn put_encoded(line: &mut Line, instruction: Instruction) -> fmt::Result {
    let (encode, word) = match encoder::encode(instruction) {
        Ok(word) => (Answer::Done, word),
        Err(answer) => (answer, 0),
    };
    let encode = u64::from(encode);
    put_record(line, record::case_of(instruction))?;
    writeln!(line, " encode {encode} {word:08x}")
}

fn put_record(line: &mut Line, case: Case) -> fmt::Result {
    let Case {
        what,
        operation,
        target,
        base,
        second,
        mode,
        scaled,
        offset,
    } = case;
    write!(
        line,
        "record {what} {operation} {target} {base} {second} {mode} {scaled} {offset}"
    )
}
