//! Room that is asked for at once.
//!
//! It is bounded by what it is for, so that no refusal comes of a number that is too large. What is only prepared may be
//! of any number, since its refusal is no fault.

ghost use Rattle.std.specs.Prelude.{◌≡◌, ℕ, ◌+◌, ◌<◌, ◌≤◌, [], length, replicate, IfOk, OnErr, OnOk, string_bytes, vec_len, vec_capacity};
ghost use Rattle.std.specs.List.{AllClonesOf};
ghost use Rattle.std.specs.VecDeque.{deque_len, deque_capacity};

use crate::Allocated;
use std::alloc::Global;
use std::collections::VecDeque;

/// So many values may stand beside the data, at the ends of a list.
pub const ENDS: usize = 2;

/// Data that values are made of, or stand beside.
pub trait Need: Copy {
    /// How many values are needed for it, at most.
    ghost needed: { Self → ℕ };
}

impl<'a, T> Need for &'a [T] {
    ghost needed = { λ list. length list.now };
}

/// An empty vector with room for so many values.
pub fn room<T, D: Need>(alloc: Global, count: usize, _data: D) -> Allocated<Vec<T>>
    requires { count ≤ D.needed _data + ENDS }
    ensures items { IfOk result (λ v. v.items ≡ []) }
    ensures len { IfOk result (λ v. vec_len v ≡ 0) }
    ensures capacity { IfOk result (λ v. count ≤ vec_capacity v) }
    ensures exact { IfOk result (λ v. vec_capacity v ≡ count) }
{
    Vec::with_capacity(alloc, count)
}

/// A vector of so many copies of a value.
pub fn copies<T: Clone, D: Need>(
    alloc: Global,
    value: T,
    count: usize,
    _data: D,
) -> Allocated<Vec<T>>
    requires { count ≤ D.needed _data + ENDS }
    ensures items { IfOk result (λ v. AllClonesOf T.is_clone value v.items) }
    ensures len { IfOk result (λ v. vec_len v ≡ count) }
    ensures items_if_clones_equal { IfOk result (λ v.
        ((y : T) → T.is_clone value y → y ≡ value) → v.items ≡ replicate count value) }
{
    vec![in alloc; value; count]
}

/// Makes room for so many bytes more, if there is memory for them. Else the text grows as it gets them.
pub fn prepare_text(text: &mut String, count: usize)
    ensures { string_bytes text.new ≡ string_bytes text.old }
{
    let _refused = text.reserve(count).is_err();
}

/// Makes room for so many values more, if there is memory for them. Else the queue grows as it gets them.
pub fn prepare_queue<T>(queue: &mut VecDeque<T>, count: usize)
    ensures { queue.new.items ≡ queue.old.items }
{
    let _refused = queue.reserve(count).is_err();
}

/// Makes room for one value more.
pub fn make_place<T>(queue: &mut VecDeque<T>) -> Allocated<()>
    ensures items { queue.new.items ≡ queue.old.items }
    ensures room { OnOk result (deque_len queue.new < deque_capacity queue.new) }
    ensures full { OnErr result (deque_capacity queue.old ≤ deque_len queue.old) }
{
    queue.reserve(1)
}
