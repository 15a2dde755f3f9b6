// What a monitor watches, and the bytes that another's step stored.
ghost use Rattle.std.specs.Prelude.{◌≡◌};
ghost use Rattle.session.specs.Watch.{meet, stores_watched};

use machine::Monitor;

// Whether a step that showed this code, address and status stored a byte that the monitor watches.
#[tactic(auto, unfolding(crate::specs::Watch::stores_watched))]
pub fn stores_watched(monitor: Monitor, code: u64, address: u64, status: u64) -> bool
    ensures { result ≡ stores_watched monitor code address status }
{
    // By its code a store has so many bytes; a load, a prefetch and a refusal have none.
    let stored = code.saturating_sub(64);
    status == 0 && meets(monitor.address, monitor.size, address, stored)
}

// Whether n bytes from a on and k bytes from b on have one in common.
#[tactic(auto, unfolding(crate::specs::Watch::meet))]
fn meets(a: u64, n: u64, b: u64, k: u64) -> bool
    ensures { result ≡ meet a n b k }
{
    if a < b {
        b - a < n && 0 < k
    } else {
        0 < n && a - b < k
    }
}
