// What a step reads beside memory, as it is lent, so that reading a register copies nothing.
ghost use Rattle.std.specs.Prelude.{◌≡◌, length};
ghost use Rattle.machine.specs.route.Writing.{Full};

use crate::monitor::Monitor;
use plan::{Reach, Window};

// The registers and the vector registers, each with their taints: thirty-two of each, which nothing says of an array behind a
// reference.
#[derive(Clone, Copy)]
pub struct Files<'a> {
    pub value: &'a [u64; 32],
    pub tainted: &'a [u64; 32],
    pub vectors: &'a [[u64; 2]; 32],
    pub vector_taint: &'a [[u64; 2]; 32],
    ghost full: { Full value.now tainted.now vectors.now vector_taint.now },
}

// A plugin as a step begins, and what it may reach.
#[derive(Clone, Copy)]
pub struct Start<'a> {
    pub pc: u64,
    pub monitor: Monitor,
    pub window: Window,
    pub reach: Reach,
    pub files: Files<'a>,
}

// Memory and its taints, for a load. A store takes the two apart: a struct of two `&mut` has to promise at every call that it holds
// the same two afterwards.
#[derive(Clone, Copy)]
pub struct Bytes<'a> {
    pub memory: &'a [u8],
    pub taint: &'a [u8],
    ghost alike: { length taint.now ≡ length memory.now },
}
