//! Values on the heap.
ghost use Rattle.std.specs.Prelude.{◌≡◌, IfOk};

use std::alloc::{AllocError, Global};
use std::marker::Model;
use std::ops::Deref;

/// A value on the heap, so that what holds it stays small: requests and replies travel by the
/// hundred thousand, and most hold no list. A contract sees the value alone.
#[derive(Debug, Drop)]
pub struct Boxed<T> {
    inner: Box<T>,
}

impl<T> Model for Boxed<T> {
    ghost Value = { T };

    ghost view = { λ boxed. boxed.inner.value };
}

impl<T> Boxed<T> {
    /// Puts the value on the heap. If memory runs out, the value is dropped.
    pub fn new(alloc: Global, value: T) -> Result<Boxed<T>, AllocError>
    where
        T: Drop,
        ensures { IfOk result (λ boxed. boxed ≡ value) }
    {
        let inner = Box::new(alloc, value)?;
        Ok(Boxed { inner })
    }
}

impl<T> Deref for Boxed<T> {
    type Target = T;

    ghost deref_gives = { λ boxed value. value ≡ boxed };

    fn deref(&self) -> &T {
        &*self.inner
    }
}
