// A checking program: decodes words and encodes records from standard input, and writes what came of each
// as a line of text. The input and the expected lines come from other tools, by tools/codec_vectors.py.
#![tactic(auto)]

mod case;
mod line;
mod record;

use case::Case;
use console::Failed;

fn main(rt: HostRuntime) {
    let mut block = io::large_buffer();
    // What failed has been said, and there is nothing more to do.
    let _ = console::for_each_block(&rt, &mut block, |cases| answer_cases(&rt, cases));
}

// A block holds a whole number of cases, so that none lies in two. What is left of the last block after its last whole case
// is no case.
fn answer_cases(rt: &(impl Print + Eprint), block: &[u8]) -> Result<(), Failed> {
    for bytes in block.chunks_exact(case::BYTES) {
        line::write_answer(rt, Case::from_bytes(bytes))?;
    }
    Ok(())
}
