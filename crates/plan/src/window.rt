// The window: memory as a step sees it.
ghost use Rattle.std.specs.Prelude.{◌≡◌, ◌+◌, ◌^◌, nat_lt};
ghost use Rattle.plan.specs.Window.{bad_window};

// Memory is lent; its first byte has address origin, and its first readonly bytes are not stored to.
#[repr(C)]
#[derive(Clone, Copy)]
pub struct Window {
    pub origin: u64,
    pub readonly: u64,
}

// Answer 1, of a window with len bytes of memory and as many taint bytes as said, and a program counter.
#[tactic(auto, unfolding(crate::specs::Window::bad_window))]
pub fn is_bad(window: Window, len: u64, taints: u64, pc: u64) -> bool
    ensures { result ≡ bad_window window len taints pc }
{
    runs_over(window.origin, len) || len < window.readonly || taints != len || pc % 4 != 0
}

// Whether memory would end above the address space. It may end with it.
fn runs_over(origin: u64, len: u64) -> bool
    ensures { result ≡ nat_lt (2 ^ 64) (origin + len) }
{
    len != 0 && u64::MAX - (len - 1) < origin
}
