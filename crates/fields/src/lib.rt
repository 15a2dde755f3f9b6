// Cases of the programs that call the library: the loop over them, numbers of their input, and lines of their output, fields
// parted by tabs.
#![tactic(auto)]

mod cases;
mod input;
mod line;

pub use cases::{Halt, for_each_case, remark};
pub use input::{fill, numbers, registers, vector_taint, vectors, words};
pub use line::Lines;
