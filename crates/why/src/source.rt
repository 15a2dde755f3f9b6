// Where a step takes a byte's taint from: by the word's access, its status and the index of its first byte in memory.
ghost use Rattle.std.specs.Prelude.{◌≡◌, ◌+◌, ◌-◌, ◌*◌, ◌%◌, ◌^◌, ◌<◌, ◌≤◌, nat_lt};
ghost use Rattle.bits.specs.Choice.{pick};
ghost use Rattle.access.specs.Accesses.{word_access};
ghost use Rattle.machine.specs.Origins.{among};
ghost use Rattle.why.specs.route.Came.{across, loaded_from, written_came, part_came, cell_came, part_in, cell_in, total_in, came_of, came_at, last_of, InRange};
ghost use Rattle.why.specs.route.Lent.{steps_in};

use crate::history::History;
use access::{Access, Transfer};

// A byte of a register, 16 times its slot plus the byte, or the index of a byte in memory. Vector registers have the slots from
// 32 on.
#[derive(Clone, Copy)]
pub enum Spot {
    Part(u64),
    Cell(u64),
}

impl Spot {
    // The byte that a step copied to this one, by its number: a load copies from memory, and a store from a register.
    pub fn across(self, number: u64) -> Spot
        ensures { result ≡ across self number }
    {
        match self {
            Spot::Part(n) => Spot::Cell(number),
            Spot::Cell(i) => Spot::Part(number),
        }
    }
}

// Where a step takes a byte's taint from: it keeps its own, has none, or has that of the byte copied.
#[derive(Clone, Copy)]
pub enum Came {
    Kept,
    Cleared,
    Copied(u64),
}

// What last set a byte: nothing, a step that cleared it, or the step that copied a byte to it.
#[derive(Drop)]
pub enum LastSet {
    Never,
    Clearing,
    Copying(u64, usize),
}

// What last set a byte before a step.
#[tactic(auto, unfolding(crate::specs::route::Came::last_of))]
pub fn last_set(history: &History, step: usize, spot: Spot) -> LastSet
    requires { InRange (steps_in history.now) step }
    ensures { result ≡ last_of (steps_in history.now) step spot }
{
    for at in (0..step).rev() {
        match came_at(history, at, spot) {
            Came::Kept => {}
            Came::Cleared => return LastSet::Clearing,
            Came::Copied(from) => return LastSet::Copying(from, at),
        }
    }
    LastSet::Never
}

// Where a step takes a byte's taint from.
fn came_at(history: &History, step: usize, spot: Spot) -> Came
    requires { InRange (steps_in history.now) (step + 1) }
    ensures { result ≡ came_at (steps_in history.now) step spot }
{
    came_of(
        access_at(history.words[step]),
        history.statuses[step],
        history.trace[step * 2 + 1].saturating_sub(history.origin),
        spot,
    )
}

#[tactic(auto, unfolding(crate::specs::route::Came::came_of))]
fn came_of(x: Access, status: u8, at: u64, spot: Spot) -> Came
    requires { at + total_in x < 2 ^ 64 }
    ensures { result ≡ came_of x status at spot }
{
    match spot {
        Spot::Part(n) => part_in(x, at, n),
        Spot::Cell(i) => cell_in(x, status, at, i),
    }
}

fn part_in(x: Access, at: u64, part: u64) -> Came
    requires { at + total_in x < 2 ^ 64 }
    ensures { result ≡ part_in x at part }
{
    match x {
        Access::Nothing => any_part(part),
        Access::Moves(t, a) => part_came(t, a.written, at, part),
    }
}

fn any_part(part: u64) -> Came
    ensures { result ≡ pick (nat_lt 1023 part) Came.Cleared Came.Kept }
{
    if 1023 < part {
        Came::Cleared
    } else {
        Came::Kept
    }
}

fn part_came(t: Transfer, written: u32, at: u64, part: u64) -> Came
    requires { at + (t.bytes + t.more) < 2 ^ 64 }
    ensures { result ≡ part_came t written at part }
{
    if 1023 < part {
        return Came::Cleared;
    }
    let slot = part / 16;
    if t.store {
        return written_came(slot, written);
    }
    if slot == u64::from(t.second) {
        return loaded_from(at + u64::from(t.bytes), t.more, t.extent, part % 16);
    }
    if slot == u64::from(t.target) {
        return loaded_from(at, t.bytes, t.extent, part % 16);
    }
    written_came(slot, written)
}

fn written_came(slot: u64, written: u32) -> Came
    ensures { result ≡ written_came slot written }
{
    if slot == u64::from(written) {
        Came::Cleared
    } else {
        Came::Kept
    }
}

fn loaded_from(at: u64, n: u32, extent: u32, k: u64) -> Came
    requires { at + n < 2 ^ 64 }
    ensures { result ≡ loaded_from at n extent k }
{
    if k < u64::from(n) {
        return Came::Copied(at + k);
    }
    if u64::from(extent) <= k || n == 0 {
        return Came::Cleared;
    }
    Came::Copied(at + (u64::from(n) - 1))
}

fn cell_in(x: Access, status: u8, at: u64, i: u64) -> Came
    requires { at + total_in x < 2 ^ 64 }
    ensures { result ≡ cell_in x status at i }
{
    match x {
        Access::Nothing => Came::Kept,
        Access::Moves(t, a) => cell_came(t, status, at, i),
    }
}

fn cell_came(t: Transfer, status: u8, at: u64, i: u64) -> Came
    requires { at + (t.bytes + t.more) < 2 ^ 64 }
    ensures { result ≡ cell_came t status at i }
{
    if !t.store {
        return Came::Kept;
    }
    if machine::fails(t, status) {
        return Came::Kept;
    }
    let behind = at + u64::from(t.bytes);
    if within(i, behind, u64::from(t.more)) {
        return Came::Copied(part(t.second, i.saturating_sub(behind)));
    }
    if within(i, at, u64::from(t.bytes)) {
        return Came::Copied(part(t.target, i.saturating_sub(at)));
    }
    Came::Kept
}

fn within(i: u64, at: u64, n: u64) -> bool
    requires { at + n < 2 ^ 64 }
    ensures { result ≡ among i at n }
{
    at <= i && i < at + n
}

fn part(slot: u32, k: u64) -> u64
    ensures { result ≡ 16 * slot + k % 16 }
{
    16 * u64::from(slot) + k % 16
}

fn access_at(word: u32) -> Access
    ensures { result ≡ word_access word }
{
    access::access_of(decoder::examine(word).instruction)
}
