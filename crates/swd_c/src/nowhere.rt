//! An allocator for values that never allocate.
ghost use base.Fml.{ftrue};

use std::alloc::{AllocError, Allocator};

/// An allocator that always fails, so that a value with it needs no heap.
#[derive(Clone, Copy)]
pub struct Nowhere;

unsafe impl Allocator for Nowhere {
    ghost dealloc_token = { λ _ _ _. ftrue };

    fn allocate(&self, _size: usize, _align: usize) -> Result<*mut u8, AllocError> {
        Err(AllocError)
    }

    unsafe fn deallocate(&self, _ptr: *mut u8, _size: usize, _align: usize) {}
}
