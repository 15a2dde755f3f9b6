// Fields of instruction words, signed numbers and their extension, and numbers of bytes. The definitions are in specs/, their
// laws in proofs/.
#![tactic(auto)]

mod extend;
mod join;
mod number;

pub use extend::extended;
pub use join::{byte_at, eight_at, four_at, wide};
pub use number::{magnitude, twos_complement};
