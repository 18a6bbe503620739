//! Rounded polygons in memory that several pads share.

ghost use Rattle.std.specs.Prelude.{◌≡◌, IfOk};

use crate::rounded::Rounded;
use std::alloc::{AllocError, Global};
use std::marker::Model;
use std::rc::Rc;

/// A rounded polygon in memory that several pads share. Contracts see the rounded polygon.
#[derive(Debug, Drop)]
pub struct SharedRounded {
    shape: Rc<Rounded>,
}

impl Model for SharedRounded {
    ghost use Rattle.pad_shapes.specs.Rounded.{GridRounded};

    ghost Value = { GridRounded };

    ghost view = { λ s. s.shape.value };
}

impl SharedRounded {
    /// Moves a shape to memory that can be shared.
    ///
    /// # Errors
    ///
    /// An `AllocError` where there is no memory for it.
    pub fn new(alloc: Global, shape: Rounded) -> Result<Self, AllocError>
        ensures { IfOk result (λ shared. shared ≡ shape) }
    {
        Ok(SharedRounded {
            shape: Rc::new(alloc, shape)?,
        })
    }

    /// The shape.
    pub fn get(&self) -> &Rounded
        ensures { result.now ≡ self.now }
    {
        &self.shape
    }

    /// The same shape once more, in the same memory.
    ///
    /// # Errors
    ///
    /// An `AllocError` where it is shared too often.
    pub fn share(&self) -> Result<Self, AllocError>
        ensures { IfOk result (λ shared. shared ≡ self.now) }
    {
        Ok(SharedRounded {
            shape: self.shape.clone()?,
        })
    }
}
