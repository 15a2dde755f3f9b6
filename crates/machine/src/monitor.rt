// The monitor of exclusive accesses, once an access has passed its tests.
ghost use Rattle.std.specs.Prelude.{◌≡◌};
ghost use Rattle.machine.specs.Monitor.{store_exclusive, matches, status_of, monitor_after, written_back, fails};

use access::Transfer;

// Where the last load-exclusive was, and how many bytes it had. It is open where the size is 0.
#[repr(C)]
#[derive(Clone, Copy)]
pub struct Monitor {
    pub address: u64,
    pub size: u64,
}

impl Monitor {
    pub const OPEN: Monitor = Monitor {
        address: 0,
        size: 0,
    };

    #[tactic(auto, unfolding(crate::specs::Monitor::matches))]
    fn matches(self, address: u64, size: u32) -> bool
        ensures { result ≡ matches self address size }
    {
        self.address == address && self.size == size as u64
    }
}

fn is_store_exclusive(t: Transfer) -> bool
    ensures { result ≡ store_exclusive t }
{
    t.exclusive && t.store
}

// What a store-exclusive writes to its status register; 0 for every other access.
#[tactic(auto, unfolding(crate::specs::Monitor::status_of))]
pub fn status(t: Transfer, address: u64, monitor: Monitor) -> u8
    ensures { result ≡ status_of t address monitor }
{
    if is_store_exclusive(t) && !monitor.matches(address, t.bytes) {
        1
    } else {
        0
    }
}

// The monitor after an access: a load-exclusive arms it, and a store-exclusive opens it.
#[tactic(auto, unfolding(crate::specs::Monitor::monitor_after))]
pub fn after(t: Transfer, address: u64, monitor: Monitor) -> Monitor
    ensures { result ≡ monitor_after t address monitor }
{
    match (t.exclusive, t.store) {
        (true, true) => Monitor::OPEN,
        (true, false) => Monitor {
            address,
            size: t.bytes as u64,
        },
        (false, _) => monitor,
    }
}

#[tactic(auto, unfolding(crate::specs::Monitor::written_back))]
pub fn written_back(t: Transfer, status: u8, sum: u64) -> u64
    ensures { result ≡ written_back t status sum }
{
    if t.exclusive { status as u64 } else { sum }
}

// Whether a store with this status stores nothing.
#[tactic(auto, unfolding(crate::specs::Monitor::fails))]
pub fn fails(t: Transfer, status: u8) -> bool
    ensures { result ≡ fails t status }
{
    is_store_exclusive(t) && status == 1
}
