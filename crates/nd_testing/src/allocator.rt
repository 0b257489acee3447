//! An allocator that refuses one request for memory.
use std::alloc::{AllocError, Allocator};
use std::sync::atomic::{AtomicU64, Ordering};

/// Passes on each request for memory except one, which it refuses.
///
/// A test passes it to the code under test as `&heap`, and prepares its values. Then it calls
/// `refuse(n)`, makes the call under test, and asks `relent(n)` whether the call met the refused
/// request. If it did, the call must return out of memory and leave its values unchanged. If it did
/// not, no call with a greater `n` meets it either. `live()` is the number of blocks that were
/// allocated and not freed, so it is 0 after a test. No contract states what the allocator counts.
pub struct Refusing<B: Allocator> {
    inner: B,
    counts: Counts,
}

// How many requests are still passed on, and how many blocks are not freed.
#[derive(Drop)]
struct Counts {
    calls: AtomicU64,
    live: AtomicU64,
}

impl<B: Allocator> Refusing<B> {
    /// Returns an allocator that refuses nothing yet.
    pub fn new(inner: B) -> Refusing<B> {
        Refusing {
            inner,
            counts: Counts {
                calls: AtomicU64::new(u64::MAX),
                live: AtomicU64::new(0),
            },
        }
    }

    /// Refuses from now on the request with number `n`, counted from 0, and no other.
    pub fn refuse(&self, n: u64) {
        self.counts.calls.store(n, Ordering::SeqCst);
    }

    /// Refuses nothing from now on, and returns whether a request was refused since `refuse(n)`.
    pub fn relent(&self, n: u64) -> bool {
        let left = self.counts.calls.swap(u64::MAX, Ordering::SeqCst);
        left > n
    }

    /// Returns how many blocks were allocated and not freed.
    pub fn live(&self) -> u64 {
        self.counts.live.load(Ordering::SeqCst)
    }
}

impl<B: Allocator> Drop for Refusing<B> {
    fn drop(self) {
        let Self {
            inner: _,
            counts: _,
        } = self;
    }
}

// Counts a request. The request that finds the count 0 is refused; each other request adds a block.
fn tick(counts: &Counts) -> bool {
    if counts.calls.fetch_sub(1, Ordering::SeqCst) == 0 {
        return true;
    }
    counts.live.fetch_add(1, Ordering::SeqCst);
    false
}

// Counts a block that is freed, which is never refused.
fn tock(counts: &Counts) -> bool {
    counts.live.fetch_sub(1, Ordering::SeqCst) == 0
}

unsafe impl<B: Allocator> Allocator for Refusing<B> {
    ghost dealloc_token = { λ heap ty ptr. B.dealloc_token heap.inner ty ptr };

    fn allocate(&self, size: usize, align: usize) -> Result<*mut u8, AllocError> {
        if tick(&self.counts) {
            return Err(AllocError);
        }
        self.inner.allocate(size, align)
    }

    unsafe fn deallocate(&self, ptr: *mut u8, size: usize, align: usize) {
        tock(&self.counts);
        self.inner.deallocate(ptr, size, align);
    }
}
