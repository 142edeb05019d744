//! The address of a value on the heap, as C keeps it.

ghost use Rattle.std.specs.Prelude.{◌≡◌, Some, None, Option};
ghost use Rattle.std.specs.Coded.{coded_option};
ghost use Rattle.nagsched_handles.specs.contracts.target.HandleTarget.{the_row as target_row};
ghost use Rattle.nagsched_handles.specs.declared.target.HandleTarget.{HandleTarget};
ghost use Rattle.nagsched_handles.specs.Ownership.{owned_at};

use crate::box_parts::BoxParts;
use crate::target::HandleTarget;
use std::alloc::Global;
use std::marker::Model;
use std::ptr::null_mut;

/// The target of a handle as C knows it: it has an address.
#[repr(C)]
pub struct Opaque {
    byte: u8,
}

/// The address of a value that the address owns, or null.
#[repr(C)]
#[derive(Drop)]
pub struct Raw {
    at: *mut Opaque,
    pub ghost value: { Option HandleTarget } by { coded_option target_row.coded },
}

impl Model for Raw {
    ghost also_owns = { λ raw. owned_at target_row raw.at raw.value };
}

unsafe impl Send for Raw {}

impl Raw {
    /// Null.
    pub(crate) fn none() -> Raw
        ensures { result.value ≡ None }
    {
        Raw { at: null_mut() }
    }

    /// The address of the value that was boxed.
    pub(crate) fn of(apart: BoxParts<HandleTarget, Global>) -> Raw
        ensures { result.value ≡ Some apart.value }
    {
        let BoxParts { at, alloc: _ } = apart;
        Raw {
            at: at as *mut Opaque,
        }
    }

    /// The parts of the box.
    pub(crate) fn into_box_parts(self, alloc: Global) -> BoxParts<HandleTarget, Global>
        requires { (x : HandleTarget) × (self.value ≡ Some x) }
        ensures { self.value ≡ Some result.value }
    {
        let Raw { at } = self;
        BoxParts {
            at: at as *mut HandleTarget,
            alloc,
        }
    }
}
