// A case of the input, little-endian: ten numbers, the 32 registers and a number of taints for each, the 32 vector registers of
// two numbers each and as many for their taints, the words, memory, and its taint bytes. It is read into buffers of a fixed
// size, which its sizes are tested against, and done twice from its start.
ghost use Rattle.std.specs.Prelude.{◌≤◌};

use crate::{Lines, steps};
use fields::Halt;
use host::RunReply;
use machine::{Monitor, State};

// How much of each buffer a case has.
#[derive(Clone, Copy)]
struct Sizes {
    words: usize,
    memory: usize,
    taint: usize,
    trace: usize,
    statuses: usize,
    ghost words_fit: { words ≤ 512 },
    ghost memory_fits: { memory ≤ 4096 },
    ghost taint_fits: { taint ≤ 4096 },
    ghost trace_fits: { trace ≤ 1024 },
    ghost statuses_fit: { statuses ≤ 512 },
}

#[derive(Clone, Copy)]
struct Case {
    sizes: Sizes,
    words: [u32; 512],
    state: State,
    vectors: [[u64; 2]; 32],
    vector_taint: [[u64; 2]; 32],
    origin: u64,
    readonly: u64,
    memory: [u8; 4096],
    taint: [u8; 4096],
}

pub fn replay(
    rt: &(impl Input + Print + Eprint),
    number: u64,
    head: &[u8],
    lines: &mut Lines,
    again: &mut Lines,
) -> Result<(), Halt> {
    let case = Case::read(rt, head)?;
    case.put_done(number, lines, host::milestarling_run);
    lines.write(rt)?;
    if case.is_stepped() {
        case.put_done(number, again, steps::run);
        if !lines.is_same(again) {
            fields::remark(rt, number, b"by steps")?;
            again.write(rt)?;
        }
    }
    Ok(())
}

impl Sizes {
    fn read(numbers: [u64; 5]) -> Result<Sizes, Halt> {
        let [words, memory, taint, trace, statuses] = numbers;
        if words > 512 || memory > 4096 || taint > 4096 || trace > 1024 || statuses > 512 {
            return Err(Halt::TooLarge);
        }
        Ok(Sizes {
            words: words as usize,
            memory: memory as usize,
            taint: taint as usize,
            trace: trace as usize,
            statuses: statuses as usize,
        })
    }
}

impl Case {
    fn read(rt: &(impl Input + Eprint), head: &[u8]) -> Result<Case, Halt> {
        let [
            words,
            memory,
            taint,
            trace,
            statuses,
            origin,
            readonly,
            pc,
            address,
            size,
        ]: [u64; 10] = fields::numbers(head);
        let sizes = Sizes::read([words, memory, taint, trace, statuses])?;
        let mut start = [0u8; 1536];
        let mut words = [0u8; 2048];
        let mut memory = [0u8; 4096];
        let mut taint = [0u8; 4096];
        fields::fill(rt, &mut start)?;
        fields::fill(rt, &mut words[..4 * sizes.words])?;
        fields::fill(rt, &mut memory[..sizes.memory])?;
        fields::fill(rt, &mut taint[..sizes.taint])?;
        Ok(Case {
            sizes,
            words: fields::words(&words),
            state: State {
                registers: fields::registers(&start),
                pc,
                monitor: Monitor { address, size },
            },
            vectors: fields::vectors(&start[512..]),
            vector_taint: fields::vector_taint(&start[512..]),
            origin,
            readonly,
            memory,
            taint,
        })
    }

    // A run that lacks room for what it notes isn't begun, for which there is no step; nor is there one without a word. Whatever
    // else a run is refused for before its first step, that step is.
    fn is_stepped(&self) -> bool {
        let words = self.sizes.words;
        words != 0 && words <= self.sizes.trace / 2 && words <= self.sizes.statuses
    }

    // The lines of the case, done by the library's run or by another that takes what it takes.
    fn put_done<F>(mut self, number: u64, lines: &mut Lines, run: F)
    where
        F: FnOnce(
            &[u32],
            State,
            &mut [[u64; 2]; 32],
            &mut [[u64; 2]; 32],
            u64,
            u64,
            &mut [u8],
            &mut [u8],
            &mut [u64],
            &mut [u8],
        ) -> RunReply,
        requires { F.IsAlwaysCallable run }
    {
        let sizes = self.sizes;
        let mut trace = [u64::MAX; 1024];
        let mut statuses = [u8::MAX; 512];
        let memory = &mut self.memory[..sizes.memory];
        let taint = &mut self.taint[..sizes.taint];
        let trace = &mut trace[..sizes.trace];
        let statuses = &mut statuses[..sizes.statuses];
        let ran = run(
            &self.words[..sizes.words],
            self.state,
            &mut self.vectors,
            &mut self.vector_taint,
            self.origin,
            self.readonly,
            memory,
            taint,
            trace,
            statuses,
        );
        put_ran(lines, number, ran);
        lines.put_registers(&ran.session.registers);
        lines.put_vectors(&self.vectors, &self.vector_taint);
        lines.put_bytes(b"memory", memory);
        lines.put_bytes(b"taint", taint);
        lines.put_numbers(b"trace", trace);
        lines.put_monitor(ran.session.monitor);
        lines.put_bytes(b"statuses", statuses);
    }
}

fn put_ran(lines: &mut Lines, number: u64, ran: RunReply) {
    lines.put_name(number);
    let said = [ran.steps, ran.answer, ran.code, ran.address, ran.session.pc];
    lines.put_numbers(b"", &said);
}
