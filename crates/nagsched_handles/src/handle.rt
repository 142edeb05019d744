//! A handle: C's reference to a value of the library.
//!
//! A handle is zeroed before its first use, and after that it is as the last call left it. A call that
//! uses the target of the handle takes it out and puts it back, which needs no memory.

ghost use Rattle.std.specs.Prelude.{◌≡◌, ◌==◌, not, is_some, Some, None};

use crate::box_parts::BoxParts;
use crate::raw::Raw;
use crate::target::HandleTarget;
use std::alloc::Global;
use std::mem::replace;

/// Leads to a setup, a pass, a book or a history. All zeros means empty. It may go to another thread.
#[repr(C)]
#[derive(Drop)]
pub struct Handle {
    raw: Raw,
    full: u64,
    ghost consistent: { is_some raw.value ≡ not (full == 0) },
}

/// The value. Each call of this function proves that the value may go to another thread.
fn assert_send<T: Send>(value: T) -> T
    ensures { result ≡ value }
{
    value
}

impl Handle {
    ghost use Rattle.nagsched_handles.specs.Handles.{box_value, contents_of};

    /// An empty handle.
    pub fn none() -> Handle
        ensures { contents_of result ≡ None }
    {
        Handle {
            raw: Raw::none(),
            full: 0,
        }
    }

    /// A handle that leads to the value in the box.
    pub fn of(value: Box<HandleTarget>) -> Handle
        ensures { contents_of result ≡ Some value.value }
    {
        assert_send(Handle {
            raw: Raw::of(BoxParts::of(value)),
            full: 1,
        })
    }

    /// Whether the handle leads to nothing.
    pub fn is_empty(&self) -> bool
        ensures { result ≡ not (is_some (contents_of self.now)) }
    {
        self.full == 0
    }

    /// The target of the handle, which is empty afterwards.
    pub fn take(&mut self, alloc: Global) -> Option<Box<HandleTarget>>
        ensures value { box_value result ≡ contents_of self.old }
        ensures empty { contents_of self.new ≡ None }
    {
        let Handle { raw, full } = replace(self, Handle::none());
        if full == 0 {
            None
        } else {
            Some(raw.into_box_parts(alloc).into_box())
        }
    }
}
