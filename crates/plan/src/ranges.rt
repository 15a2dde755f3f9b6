// The ranges of two plugins in one window, and what an access may reach.
ghost use Rattle.std.specs.Prelude.{◌≡◌, ◌≤◌};
ghost use Rattle.plan.specs.Refusals.{verdict_in};
ghost use Rattle.plan.specs.Ranges.{share, overlap, bad_ranges, beyond, common, strays, limits};
ghost use Rattle.plan.specs.route.Reaches.{reach_of};

use crate::admission;
use crate::window::Window;
use instruction::Answer;

// So many bytes from an address on. A range may be empty.
#[repr(C)]
#[derive(Clone, Copy)]
pub struct Range {
    pub address: u64,
    pub length: u64,
}

// What both plugins read and neither stores to, what one has for its own, and what the other has.
#[repr(C)]
#[derive(Clone, Copy)]
pub struct Ranges {
    pub shared: Range,
    pub own: Range,
    pub other: Range,
}

// What an access may reach: all of the window, of which stores leave the read-only beginning; or what ranges allow. This
// is no Option, since the definition of an admission matches on it.
#[derive(Clone, Copy)]
pub enum Reach {
    Alone,
    Ranged(Ranges),
}

// Answer 1, of ranges in a window with len bytes of memory.
#[tactic(auto, unfolding(crate::specs::Ranges::bad_ranges))]
pub fn are_bad(r: Ranges, origin: u64, len: u64) -> bool
    ensures { result ≡ bad_ranges r origin len }
{
    let window = Range {
        address: origin,
        length: len,
    };
    r.overlap() || r.shared.exceeds(window) || r.own.exceeds(window) || r.other.exceeds(window)
}

impl Ranges {
    #[tactic(auto, unfolding(crate::specs::Ranges::overlap))]
    fn overlap(self) -> bool
        ensures { result ≡ overlap self }
    {
        self.shared.shares(self.own)
            || self.shared.shares(self.other)
            || self.own.shares(self.other)
    }

    // Answers 8 and 12 of an access to the bytes of a range.
    fn admit(self, store: bool, touched: Range) -> Result<(), Answer>
        ensures { result ≡ verdict_in (limits self store touched.length touched.address) }
    {
        if self.is_common(store, touched) {
            return Err(Answer::ReadOnly);
        }
        if self.is_astray(store, touched) {
            return Err(Answer::NotAllowed);
        }
        Ok(())
    }

    // A store that touches the shared range.
    #[tactic(auto, unfolding(crate::specs::Ranges::common))]
    fn is_common(self, store: bool, touched: Range) -> bool
        ensures { result ≡ common store touched.length touched.address self.shared }
    {
        store && touched.shares(self.shared)
    }

    // An access that lies neither in the plugin's own range nor, being a load, in the shared one.
    #[tactic(auto, unfolding(crate::specs::Ranges::strays))]
    fn is_astray(self, store: bool, touched: Range) -> bool
        ensures { result ≡ strays store touched.length touched.address self }
    {
        touched.exceeds(self.own) && (store || touched.exceeds(self.shared))
    }
}

impl Range {
    // Whether two ranges have a byte in common.
    #[tactic(auto, unfolding(crate::specs::Ranges::share))]
    fn shares(self, other: Range) -> bool
        ensures { result ≡ share self other }
    {
        if self.address < other.address {
            other.length != 0 && other.address - self.address < self.length
        } else {
            self.length != 0 && self.address - other.address < other.length
        }
    }

    // Whether a range doesn't lie wholly in another.
    fn exceeds(self, other: Range) -> bool
        ensures { result ≡ beyond self.length self.address other }
    {
        admission::is_outside(self.length, self.address, other.address, other.length)
    }
}

// Answers 8 and 12 of an access to the bytes of a range, by what it may reach.
pub fn reached(store: bool, touched: Range, window: Window, reach: Reach) -> Result<(), Answer>
    ensures { result ≡ verdict_in (reach_of window reach store touched.length touched.address) }
{
    match reach {
        Reach::Alone => admission::guard(store, touched.address, window),
        Reach::Ranged(ranges) => ranges.admit(store, touched),
    }
}
