//! `Boxed`: a value in a box.
ghost use Rattle.std.specs.Prelude.{◌≡◌, IfOk};

use rio_chars::NoMemory;
use std::alloc::Global;
use std::marker::Model;

/// A value in a box, so that what carries it is small: a line of a trace is handed on several
/// times, and a packet would be copied whole each time.
#[derive(Debug, Drop)]
pub struct Boxed<T> {
    inner: Box<T>,
}

impl<T> Model for Boxed<T> {
    ghost Value = { T };

    ghost view = { λ boxed. boxed.inner.value };
}

impl<T: Drop> Boxed<T> {
    /// Puts a value in a box. `NoMemory` is the only other answer.
    pub(crate) fn new(alloc: Global, value: T) -> Result<Boxed<T>, NoMemory>
        ensures { IfOk result (λ boxed. boxed ≡ value) }
    {
        match Box::new(alloc, value) {
            Ok(inner) => Ok(Boxed { inner }),
            Err(_) => Err(NoMemory),
        }
    }

    /// The value.
    pub fn get(&self) -> &T
        ensures { result.now ≡ self.now }
    {
        self.inner.as_ref()
    }
}
