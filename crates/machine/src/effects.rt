// What an access leaves: the bytes and taints of memory at once, and what it sets in the register file as a small
// struct, for the second half of a step. The tests are passed by now.
ghost use Rattle.std.specs.Prelude.{◌≡◌, ◌+◌, ◌*◌, ◌/◌, ◌^◌, ◌<◌, ◌≤◌, ◌++◌, map, length, slice_index};
ghost use Rattle.std.proofs.lemmas.List.Edits.{sets};
ghost use Rattle.bits.specs.Bytes.{bytes_of, joined, span_of};
ghost use Rattle.bits.specs.Extension.{extended_of};
ghost use Rattle.memory.specs.Taints.{normal};
ghost use Rattle.memory.specs.Sources.{loaded_taint};
ghost use Rattle.vectors.specs.File.{wide, number_of, halves_at};
ghost use Rattle.access.specs.route.Bounds.{Bounded};
ghost use Rattle.plan.specs.Admission.{total_of};
ghost use Rattle.machine.specs.Monitor.{made_of};
ghost use Rattle.machine.specs.Rule.{stored_taints};
ghost use Rattle.machine.specs.Machine.{stored_bytes, code_of};
ghost use Rattle.machine.specs.route.Writing.{based_of, loads_of, halves_in, fill_of, fills_of};

use crate::files::{Bytes, Files};
use crate::monitor;
use crate::monitor::Monitor;
use access::Transfer;
use vectors::{Halves, VectorWrite, VectorWrites};

// What a step sets in the register file, in this order: the base or the status that is written, which is then untainted, and
// the two registers that are loaded; then the monitor. A number above 31 sets no register.
#[derive(Drop)]
pub struct Writes {
    pub base: u32,
    pub next: u64,
    pub first: u32,
    pub value: u64,
    pub taint: u64,
    pub second: u32,
    pub value2: u64,
    pub taint2: u64,
    pub monitor: Monitor,
}

// What every access sets: the base or the status, and the monitor.
#[derive(Clone, Copy)]
pub struct Back {
    pub base: u32,
    pub next: u64,
    pub monitor: Monitor,
}

pub fn code(t: Transfer) -> u64
    ensures { result ≡ code_of t }
{
    let moved = t.bytes as u64 + t.more as u64;
    if t.store {
        return moved + 64;
    }
    moved
}

// The base alone, or the status: setting it again changes nothing.
pub fn written_back(back: Back) -> Writes
    ensures { result ≡ based_of back.base back.next back.monitor }
{
    Writes {
        base: back.base,
        next: back.next,
        first: back.base,
        value: back.next,
        taint: 0,
        second: back.base,
        value2: back.next,
        taint2: 0,
        monitor: back.monitor,
    }
}

// What a load at an index sets.
pub fn loads(t: Transfer, back: Back, at: usize, bytes: &Bytes) -> Writes
    requires { (t.bytes ≤ t.extent) × (t.more ≤ t.extent) × (t.extent ≤ 8) × (at + total_of t ≤ length bytes.now.memory.now) }
    ensures { result ≡ loads_of t back.base back.next back.monitor at bytes.now.memory.now bytes.now.taint.now }
{
    let first = loaded_one(t.bytes, t.extent, at, bytes);
    let second = loaded_one(t.more, t.extent, at + t.bytes as usize, bytes);
    Writes {
        base: back.base,
        next: back.next,
        first: t.target,
        value: first.value,
        taint: first.taint,
        second: t.second,
        value2: second.value,
        taint2: second.taint,
        monitor: back.monitor,
    }
}

// A loaded number, extended, and the taints of its bytes.
#[derive(Drop)]
struct Loaded {
    value: u64,
    taint: u64,
}

// A load of n bytes. A single access has no second register, and no bytes for it.
fn loaded_one(n: u32, extent: u32, at: usize, bytes: &Bytes) -> Loaded
    requires { (n ≤ extent) × (extent ≤ 8) × (at + n ≤ length bytes.now.memory.now) }
    ensures { result ≡ record { value = extended_of n extent (joined (span_of bytes.now.memory.now at n)); taint = loaded_taint at n extent bytes.now.taint.now } }
{
    if n == 0 {
        return Loaded { value: 0, taint: 0 };
    }
    let number = memory::load(&bytes.memory[at..], n as usize);
    let taints = memory::load_taints(&bytes.taint[at..], n as usize);
    Loaded {
        value: bits::extended(number, n, extent),
        taint: extended_taints(taints, n, extent),
    }
}

// Sign copies take the taint of the top byte: with 255 in place of 1, taints are extended as a number is.
fn extended_taints(taints: u64, n: u32, extent: u32) -> u64
    requires { (n ≤ extent) × (extent ≤ 8) × (taints * 255 < 256 ^ n) }
    ensures { result ≡ extended_of n extent (taints * 255) / 255 }
{
    if taints == 0 {
        return 0;
    }
    bits::extended(taints * 255, n, extent) / 255
}

// What a load of vector registers at an index sets of them.
pub fn fills(t: Transfer, at: usize, bytes: &Bytes) -> VectorWrites
    requires { (t.bytes ≤ 16) × (t.more ≤ 16) × (32 ≤ t.target) × (32 ≤ t.second) × (at + total_of t ≤ length bytes.now.memory.now) }
    ensures { result ≡ fills_of t at bytes.now.memory.now bytes.now.taint.now }
{
    let behind = at + t.bytes as usize;
    VectorWrites {
        first: fill(t.target - 32, t.bytes, at, bytes),
        second: fill(t.second - 32, t.more, behind, bytes),
    }
}

// What n bytes at an index fill of a vector register.
fn fill(number: u32, n: u32, at: usize, bytes: &Bytes) -> VectorWrite
    requires { (n ≤ 16) × (at + n ≤ length bytes.now.memory.now) }
    ensures { result ≡ fill_of number n at bytes.now.memory.now bytes.now.taint.now }
{
    VectorWrite {
        number,
        value: load_halves(n, at, bytes.memory),
        taint: load_taints(n, at, bytes.taint),
    }
}

// The two halves of n bytes; what they don't fill is 0.
fn load_halves(n: u32, at: usize, memory: &[u8]) -> Halves
    requires { (n ≤ 16) × (at + n ≤ length memory.now) }
    ensures { result ≡ halves_in memory.now at n }
{
    let low = memory::load(&memory[at..], n as usize);
    if n <= 8 {
        return Halves { low, high: 0 };
    }
    let mid = at + 8;
    Halves {
        low,
        high: memory::load(&memory[mid..], (n - 8) as usize),
    }
}

// Of the taints of n bytes, each as 0 or 1.
fn load_taints(n: u32, at: usize, taint: &[u8]) -> Halves
    requires { (n ≤ 16) × (at + n ≤ length taint.now) }
    ensures { result ≡ halves_in (map normal taint.now) at n }
{
    vectors::normal(load_halves(n, at, taint))
}

// Memory and taints after a store at an index, with its status.
pub fn stored(
    t: Transfer,
    status: u8,
    at: usize,
    files: &Files,
    memory: &mut [u8],
    taint: &mut [u8],
)
    requires { Bounded t × (at + total_of t ≤ length memory.old) × (length taint.old ≡ length memory.old) }
    ensures { (memory.new ≡ stored_bytes (made_of t status) at (files.now.value.now ++ map wide files.now.vectors.now) memory.old) × (taint.new ≡ stored_taints (made_of t status) at (files.now.tainted.now ++ map wide files.now.vector_taint.now) taint.old) }
{
    if monitor::fails(t, status) {
        return;
    }
    let behind = at + t.bytes as usize;
    if vectors::is_vector(t.target) {
        stored_vector(t.target - 32, t.bytes, at, files, memory, taint);
        stored_vector(t.second - 32, t.more, behind, files, memory, taint);
        return;
    }
    stored_one(t.target, t.bytes, at, files, memory, taint);
    stored_one(t.second, t.more, behind, files, memory, taint);
}

// Memory and taints after a store of n bytes of one slot.
fn stored_one(slot: u32, n: u32, at: usize, files: &Files, memory: &mut [u8], taint: &mut [u8])
    requires { (at + n ≤ length memory.old) × (length taint.old ≡ length memory.old) }
    ensures { (memory.new ≡ sets memory.old at (bytes_of n (slice_index files.now.value.now slot))) × (taint.new ≡ sets taint.old at (map normal (bytes_of n (slice_index files.now.tainted.now slot)))) }
{
    if n == 0 {
        return;
    }
    let value = files.value;
    let tainted = files.tainted;
    let number = registers::value_in(value, slot);
    let taints = registers::value_in(tainted, slot);
    memory::store(&mut memory[at..], n as usize, number);
    memory::store_taints(&mut taint[at..], n as usize, taints);
}

// Memory and taints after a store of n bytes of a vector register.
fn stored_vector(i: u32, n: u32, at: usize, files: &Files, memory: &mut [u8], taint: &mut [u8])
    requires { (at + n ≤ length memory.old) × (length taint.old ≡ length memory.old) }
    ensures { (memory.new ≡ sets memory.old at (bytes_of n (number_of (halves_at files.now.vectors.now i)))) × (taint.new ≡ sets taint.old at (map normal (bytes_of n (number_of (halves_at files.now.vector_taint.now i))))) }
{
    let number = vectors::halves_in(files.vectors, i);
    let taints = vectors::halves_in(files.vector_taint, i);
    store_halves(n, at, number, memory);
    store_halves(n, at, vectors::normal(taints), taint);
}

// Memory, or its taints, after a store of n bytes of two halves, the low one first.
fn store_halves(n: u32, at: usize, number: Halves, memory: &mut [u8])
    requires { at + n ≤ length memory.old }
    ensures { memory.new ≡ sets memory.old at (bytes_of n (number_of number)) }
{
    if n <= 8 {
        store_at(at, n, number.low, memory);
        return;
    }
    store_at(at, 8, number.low, memory);
    store_at(at + 8, n - 8, number.high, memory);
}

fn store_at(at: usize, n: u32, number: u64, memory: &mut [u8])
    requires { at + n ≤ length memory.old }
    ensures { memory.new ≡ sets memory.old at (bytes_of n number) }
{
    memory::store(&mut memory[at..], n as usize, number);
}
