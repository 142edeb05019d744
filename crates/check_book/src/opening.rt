//! The state in which a book began. It exists only for contracts.

ghost use Rattle.std.specs.Prelude.{◌≡◌};
ghost use Rattle.std.specs.Borrow.{ftrue};

use std::marker::{Model, PhantomData};

/// A former value. Contracts read it as `at`. No code reads it, and it takes no bytes.
#[derive(Drop)]
pub struct Opening<S> {
    of: PhantomData<S>,
    pub ghost at: { S },
}

impl<S> Model for Opening<S> {
    ghost also_owns = { λ _. ftrue };
}

// It owns nothing, so any thread can have or share it.
unsafe impl<S> Send for Opening<S> {}

unsafe impl<S> Sync for Opening<S> {}

impl<S> Opening<S> {
    /// The value as it is now.
    pub(crate) fn of(value: &S) -> Opening<S>
        ensures { result.at ≡ value.now }
    {
        let _ = value;
        Opening { of: PhantomData }
    }
}
