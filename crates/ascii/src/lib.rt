// Bytes of text, put into a line at a position.
#![tactic(auto)]

mod piece;

pub use piece::{put_byte, put_bytes, put_decimal, put_eight, put_text};
