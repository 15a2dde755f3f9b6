// A case of the input: a run as a host has kept it, and questions about it. Behind the head are the taints of the registers and
// of the vector registers at the start, the words, the trace, the statuses, and memory's taint; then the questions. A run is
// read into buffers of a fixed size, which its sizes are tested against.
use crate::Lines;
use crate::head::Head;
use crate::question::Run;
use fields::Halt;

pub fn answer(
    rt: &(impl Input + Print + Eprint),
    number: u64,
    head: &[u8],
    lines: &mut Lines,
) -> Result<(), Halt> {
    let head = Head::read(head);
    let mut start = [0u8; 768];
    let mut words = [0u8; 4096];
    let mut trace = [0u8; 16384];
    let mut statuses = [0u8; 1024];
    let mut taint = [0u8; 1024];
    if head.words > 1024 || head.trace > 2048 {
        return Err(Halt::TooLarge);
    }
    let statuses = statuses.get_mut(..head.statuses).ok_or(Halt::TooLarge)?;
    let taint = taint.get_mut(..head.taint).ok_or(Halt::TooLarge)?;
    fields::fill(rt, &mut start)?;
    fields::fill(rt, &mut words[..4 * head.words])?;
    fields::fill(rt, &mut trace[..8 * head.trace])?;
    fields::fill(rt, statuses)?;
    fields::fill(rt, taint)?;
    let words: [u32; 1024] = fields::words(&words);
    let trace: [u64; 2048] = fields::numbers(&trace);
    let run = Run {
        words: &words[..head.words],
        trace: &trace[..head.trace],
        statuses,
        steps: head.steps,
        register_taint: fields::numbers(&start),
        vector_taint: fields::vectors(&start[256..]),
        taint,
        origin: head.origin,
        readonly: head.readonly,
        length: head.length,
    };
    lines.put_name(number);
    lines.put_byte(b'\n');
    lines.write(rt)?;
    for _ in 0..head.questions {
        run.answer_next(rt, lines)?;
    }
    Ok(())
}
