ghost use Rattle.std.specs.Prelude.{◌≡◌, ◌+◌, ◌≤◌, ◌++◌, length, IfOk};
ghost use Rattle.std.specs.VecDeque.{deque_capacity, deque_len};

use std::alloc::{AllocError, Global};
use std::collections::VecDeque;

/// The items of a queue again, as a list.
pub fn copied<T: Copy>(alloc: Global, items: &VecDeque<T>) -> Result<Vec<T>, AllocError>
    ensures { IfOk result (λ copy. copy.items ≡ items.now.items) }
{
    if items.is_empty() {
        return Ok(Vec::new(alloc));
    }
    let (first, second) = items.as_slices();
    let mut copy = Vec::with_capacity(alloc, items.len())?;
    copy.extend_from_slice(first)?;
    copy.extend_from_slice(second)?;
    Ok(copy)
}

/// Items that stand after those of a queue, which has room for them.
pub fn append<T: Copy>(queue: &mut VecDeque<T>, items: &[T])
    requires { deque_len queue.old + length items.now ≤ deque_capacity queue.old }
    ensures items { queue.new.items ≡ queue.old.items ++ items.now }
    ensures len { deque_len queue.new ≡ deque_len queue.old + length items.now }
    ensures capacity { deque_capacity queue.new ≡ deque_capacity queue.old }
{
    for item in items {
        queue.push_back_reserved(*item);
    }
}
