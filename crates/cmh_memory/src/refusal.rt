//! That a growth was refused.

ghost use Rattle.std.specs.Prelude.{◌≡◌, ◌+◌, ◌^◌, ◌≤◌, IfOk, OnErr};

use std::alloc::AllocError;

/// The allocator has refused a growth. It comes from a growth, or from a fault that came from one. As `Refusal {}` a
/// crate could make it up, and `tests/form` sees that none does.
pub type Refusal = AllocError;

/// What a growth has made, unless it was refused.
pub type Allocated<T> = Result<T, Refusal>;

/// Why a call has no answer: for lack of memory, or for another reason.
pub trait Fault {
    /// It is for lack of memory.
    ghost is_refusal: { Self → Type 0 };
}

/// Both lengths together. No memory has more bytes than a length can count, so more are refused.
pub fn joined_len(first: usize, second: usize) -> Allocated<usize>
    ensures sum { IfOk result (λ len. len ≡ first + second) }
    ensures refused { OnErr result (2 ^ 64 ≤ first + second) }
{
    first.checked_add(second).ok_or(AllocError)
}

/// The refusal of which a fault speaks.
pub fn refusal_of<F: Fault + Drop>(_fault: F) -> Refusal
    requires { F.is_refusal _fault }
{
    AllocError
}
