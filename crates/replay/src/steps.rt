// A run by single steps: each word through the step of a lent record, up to the first that is refused, with a trace and
// statuses of what the steps said.
use host::RunReply;
use lending::Lent;
use machine::State;
use session::StepReply;

// It takes what the library's run takes, and is handed on in its place.
pub fn run(
    words: &[u32],
    start: State,
    vectors: &mut [[u64; 2]; 32],
    vector_taint: &mut [[u64; 2]; 32],
    origin: u64,
    readonly: u64,
    memory: &mut [u8],
    taint: &mut [u8],
    trace: &mut [u64],
    statuses: &mut [u8],
) -> RunReply {
    let mut lent = unstepped(start);
    for (i, word) in words.iter().enumerate() {
        lent = lending::step(
            *word,
            lent.state,
            vectors,
            vector_taint,
            origin,
            readonly,
            memory,
            taint,
        );
        if lent.reply.answer != 0 {
            return reply_of(i, lent);
        }
        note(trace, statuses, i, lent.reply);
    }
    reply_of(words.len(), lent)
}

// What a step said, where there is room for it.
fn note(trace: &mut [u64], statuses: &mut [u8], i: usize, reply: StepReply) {
    if i < trace.len() / 2 {
        trace[2 * i] = reply.code;
        trace[2 * i + 1] = reply.address;
    }
    if let Some(status) = statuses.get_mut(i) {
        *status = (reply.status % 256) as u8;
    }
}

// What a run without a word says.
fn unstepped(state: State) -> Lent {
    Lent {
        state,
        reply: StepReply {
            answer: 0,
            code: 0,
            address: 0,
            status: 0,
        },
    }
}

fn reply_of(steps: usize, lent: Lent) -> RunReply {
    RunReply {
        session: lent.state,
        steps: steps as u64,
        answer: lent.reply.answer,
        code: lent.reply.code,
        address: lent.reply.address,
    }
}
