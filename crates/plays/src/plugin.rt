// What each plugin has for itself, kept from one of its turns to the next.
use host::RunReply;
use machine::{Monitor, State};
use plan::Ranges;
use registers::Registers;
use vectors::Halves;

// The bytes of an entry. The input has only the registers that aren't 0: an entry is five numbers, which are the register, from
// 32 on a vector register, its value, the low half first, and its taints.
pub const ENTRY: usize = 40;

#[derive(Clone, Copy)]
pub struct Plugin {
    pub state: State,
    pub vectors: [[u64; 2]; 32],
    pub vector_taint: [[u64; 2]; 32],
}

impl Plugin {
    pub fn read(pc: u64, monitor: Monitor, entries: &[u8]) -> Plugin {
        let mut registers = Registers {
            value: [0; 32],
            taint: [0; 32],
        };
        let mut vectors = [[0; 2]; 32];
        let mut vector_taint = [[0; 2]; 32];
        for entry in entries.chunks_exact(ENTRY) {
            let [number, low, high, low_taint, high_taint]: [u64; 5] = fields::numbers(entry);
            let n = (number % 64) as u32;
            if low != 0 || low_taint != 0 {
                let next = registers.set(n, low, low_taint);
                registers = next;
            }
            if number / 32 == 1 {
                let taints = Halves {
                    low: low_taint,
                    high: high_taint,
                };
                vectors::put(&mut vectors, n - 32, Halves { low, high });
                vectors::put(&mut vector_taint, n - 32, taints);
            }
        }
        Plugin {
            state: State {
                registers,
                pc,
                monitor,
            },
            vectors,
            vector_taint,
        }
    }
    // A turn, and what it says.
    pub fn take(
        &mut self,
        words: &[u32],
        origin: u64,
        ranges: Ranges,
        memory: &mut [u8],
        taint: &mut [u8],
        trace: &mut [u64],
        statuses: &mut [u8],
    ) -> RunReply {
        let ran = turns::milestarling_turn(
            words,
            self.state,
            &mut self.vectors,
            &mut self.vector_taint,
            origin,
            ranges,
            memory,
            taint,
            trace,
            statuses,
        );
        self.state = ran.session;
        ran
    }
}
