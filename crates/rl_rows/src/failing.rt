//! An allocator whose allocations fail on request, for tests of failed allocations. It counts all allocations, and the blocks in
//! use. Its counts are tested, and nothing is proved about them. It is proved that each block is valid, and returns to the inner
//! allocator as it was.

use std::alloc::{AllocError, Allocator};
use std::cell::Cell;

/// The numbers of the first and last allocation to fail, the number of requested allocations, and the number of blocks in use.
#[derive(Drop)]
struct Plan {
    first: Cell<u64>,
    last: Cell<u64>,
    asked: Cell<u64>,
    held: Cell<u64>,
}

/// Counts an allocation, and its block if it succeeds. Returns `true` if the allocation must fail.
fn is_due(plan: &Plan) -> bool {
    let asked = plan.asked.get().saturating_add(1);
    plan.asked.set(asked);
    let due = plan.first.get() <= asked && asked <= plan.last.get();
    if !due {
        plan.held.set(plan.held.get().saturating_add(1));
    }
    due
}

/// Counts the return of a block.
fn comes_back(plan: &Plan) {
    plan.held.set(plan.held.get().wrapping_sub(1));
}

/// An allocator that passes each allocation to another allocator, or fails on request. A reference to it is also an allocator, and
/// is `Copy`.
#[derive(Drop)]
pub struct Failing<B: Allocator> {
    inner: B,
    plan: Plan,
}

impl<B: Allocator> Failing<B> {
    /// Creates an allocator that never fails.
    pub fn new(inner: B) -> Failing<B> {
        let plan = Plan {
            first: Cell::new(1),
            last: Cell::new(0),
            asked: Cell::new(0),
            held: Cell::new(0),
        };
        Failing { inner, plan }
    }

    /// Restarts the count of allocations at 1. The allocations with the numbers from `first` to `last` fail.
    pub fn fail_from_to(&self, first: u64, last: u64) {
        self.plan.first.set(first);
        self.plan.last.set(last);
        self.plan.asked.set(0);
    }

    /// Ends the failures, and returns the number of allocations that were requested.
    pub fn stop_failing(&self) -> u64 {
        let asked = self.plan.asked.get();
        self.fail_from_to(1, 0);
        asked
    }

    /// Returns the number of blocks in use.
    pub fn blocks_in_use(&self) -> u64 {
        self.plan.held.get()
    }
}

unsafe impl<B: Allocator> Allocator for Failing<B> {
    ghost dealloc_token = { λ heap ty ptr. B.dealloc_token heap.inner ty ptr };

    fn allocate(&self, size: usize, align: usize) -> Result<*mut u8, AllocError> {
        if is_due(&self.plan) {
            return Err(AllocError);
        }
        self.inner.allocate(size, align)
    }

    unsafe fn deallocate(&self, ptr: *mut u8, size: usize, align: usize) {
        comes_back(&self.plan);
        self.inner.deallocate(ptr, size, align);
    }
}
