// The head of a case: nine numbers of 64 bits each, little-endian.

#[derive(Clone, Copy)]
pub struct Head {
    // The sizes of what the run left: words, numbers of the trace, statuses, and bytes of memory's taint.
    pub words: usize,
    pub trace: usize,
    pub statuses: usize,
    pub taint: usize,
    // How many are asked about it.
    pub questions: u64,
    pub steps: u64,
    // The window.
    pub origin: u64,
    pub readonly: u64,
    pub length: u64,
}

impl Head {
    pub fn read(bytes: &[u8]) -> Head {
        let [
            words,
            trace,
            statuses,
            taint,
            questions,
            steps,
            origin,
            readonly,
            length,
        ]: [u64; 9] = fields::numbers(bytes);
        Head {
            words: words as usize,
            trace: trace as usize,
            statuses: statuses as usize,
            taint: taint as usize,
            questions,
            steps,
            origin,
            readonly,
            length,
        }
    }
}
