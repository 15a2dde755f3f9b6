// The way back from a byte to the start, a link for each copy.
ghost use Rattle.std.specs.Prelude.{◌≡◌, ◌/◌, nat_lt};
ghost use Rattle.bits.specs.Choice.{pick};
ghost use Rattle.machine.specs.Origins.{taint_of};
ghost use Rattle.why.specs.Trail.{place_numbers, trail_of};
ghost use Rattle.why.specs.route.Came.{spot_place, Asks};
ghost use Rattle.why.specs.route.Lent.{past_in, steps_in};
ghost use Rattle.why.specs.route.Reached.{put_one, written_of};

use crate::history::History;
use crate::marks::{cell_start, register_start};
use crate::source::{LastSet, Spot, last_set};

// How many links say why a byte is tainted just before a step, and the links that there is room for; 0 where it is not.
pub fn follow(history: &History, step: usize, spot: Spot, links: &mut [u64]) -> usize
    requires { Asks (steps_in history.now) step 0 }
    ensures { record { links = links.new; count = result } ≡ written_of history.now.origin 0 (trail_of (past_in history.now) step (spot_place spot)) links.old }
{
    let mut before = step;
    let mut byte = spot;
    let mut depth = 0;
    loop {
        match last_set(history, before, byte) {
            LastSet::Never => {
                put(links, depth, numbers(history.origin, byte, 0));
                return if started_tainted(history, byte) {
                    depth + 1
                } else {
                    0
                };
            }
            LastSet::Clearing => return 0,
            LastSet::Copying(from, at) => {
                put(links, depth, numbers(history.origin, byte, at as u64 + 1));
                byte = byte.across(from);
                before = at;
                depth += 1;
            }
        }
    }
}

fn started_tainted(history: &History, spot: Spot) -> bool
    ensures { result ≡ taint_of (past_in history.now).start (spot_place spot) }
{
    match spot {
        Spot::Part(n) => register_start(history.register_taint, history.vector_taint, n),
        Spot::Cell(i) => cell_start(history.taint, i),
    }
}

// A link's three numbers: the kind of the byte, its number, and the step.
fn numbers(origin: u64, spot: Spot, step: u64) -> [u64; 3]
    ensures { result ≡ place_numbers origin (spot_place spot) step }
{
    match spot {
        Spot::Part(n) => [part_kind(n), 16 * (n / 16 % 32) + n % 16, step],
        Spot::Cell(i) => [1, origin.wrapping_add(i), step],
    }
}

fn part_kind(part: u64) -> u64
    ensures { result ≡ pick (nat_lt (part / 16) 32) 0 2 }
{
    if part / 16 < 32 { 0 } else { 2 }
}

// One link behind depth others; what has no room is dropped.
#[tactic(auto, unfolding(crate::specs::route::Reached::put_one))]
fn put(links: &mut [u64], depth: usize, numbers: [u64; 3])
    ensures { links.new ≡ put_one depth numbers links.old }
{
    if depth < links.len() / 3 {
        let at = depth * 3;
        links[at] = numbers[0];
        links[at + 1] = numbers[1];
        links[at + 2] = numbers[2];
    }
}
