//! Values and lists with several owners, so that they are made once and not copied.
ghost use Rattle.std.specs.Prelude.{◌≡◌, IfOk};

use std::alloc::{AllocError, Global};
use std::marker::Model;
use std::rc::{Rc, RcSlice};

/// A value that its owners share. Contracts see the value.
#[derive(Drop)]
pub struct Shared<T> {
    value: Rc<T>,
}

impl<T> Model for Shared<T> {
    ghost Value = { T };

    ghost view = { λ s. s.value.value };
}

impl<T: Drop> Shared<T> {
    /// Shares a value, which is moved and not copied.
    pub fn new(alloc: Global, value: T) -> Result<Self, AllocError>
        ensures { IfOk result (λ shared. shared ≡ value) }
    {
        Ok(Shared {
            value: Rc::new(alloc, value)?,
        })
    }

    /// Returns the same value for another owner. Does not allocate; an `Err` says that it has too
    /// many owners to count.
    pub fn share(&self) -> Result<Self, AllocError>
        ensures { IfOk result (λ shared. shared ≡ self.now) }
    {
        Ok(Shared {
            value: self.value.clone()?,
        })
    }

    /// Borrows the value.
    pub fn get(&self) -> &T
        ensures { result.now ≡ self.now }
    {
        self.value.as_ref()
    }
}

/// A list that its owners share. Contracts see the list.
#[derive(Drop)]
pub struct SharedList<T> {
    items: RcSlice<T>,
}

impl<T> Model for SharedList<T> {
    ghost use Rattle.std.specs.Prelude.{List};
    ghost use Rattle.std.specs.Rc.{rc_slice_items};

    ghost Value = { List T };

    ghost view = { λ s. rc_slice_items s.items };
}

impl<T: Drop> SharedList<T> {
    /// Shares the items of a `Vec`, which are moved and not copied.
    pub fn new(items: Vec<T>) -> Result<Self, AllocError>
        ensures { IfOk result (λ shared. shared ≡ items.items) }
    {
        Ok(SharedList {
            items: RcSlice::from_vec(items)?,
        })
    }

    /// Returns the same list for another owner. Does not allocate; an `Err` says that it has too
    /// many owners to count.
    pub fn share(&self) -> Result<Self, AllocError>
        ensures { IfOk result (λ shared. shared ≡ self.now) }
    {
        Ok(SharedList {
            items: self.items.clone()?,
        })
    }

    /// Borrows the items.
    pub fn as_slice(&self) -> &[T]
        ensures { result.now ≡ self.now }
    {
        self.items.as_slice()
    }
}
