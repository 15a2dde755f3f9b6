// What is lent of a run, which each question is answered from.

// Its words, the numbers of its trace, two for each step, its statuses, the address of memory's first byte, and the taints that it
// started with.
#[derive(Clone, Copy)]
pub struct History<'a> {
    pub words: &'a [u32],
    pub trace: &'a [u64],
    pub statuses: &'a [u8],
    pub origin: u64,
    pub register_taint: &'a [u64; 32],
    pub vector_taint: &'a [[u64; 2]; 32],
    pub taint: &'a [u8],
}
