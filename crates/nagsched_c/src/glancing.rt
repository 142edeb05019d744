//! A glance at an object, without a turn.

ghost use Rattle.nagsched_c.specs.Glances.{HasGlanced};
ghost use Rattle.nagsched_handles.specs.Handles.{contents_of};

use crate::status::{OK, WRONG};
use nagsched_handles::{CStanding, Handle, HandleTarget, c_standing};
use std::alloc::Global;

/// Reads the standing of an object, by one load: it never waits for another call.
///
/// `WRONG` if the handle has no pass, if the pass waits for its turn, or if there is no object of this
/// number. Then nothing was done.
#[unsafe(no_mangle)]
pub extern "C" fn nagsched_glance(
    alloc: Global,
    pass: &mut Handle,
    object: u32,
    standing: &mut CStanding,
) -> u32
    ensures { HasGlanced object (contents_of pass.old) standing.old result
        (contents_of pass.new) standing.new }
{
    let Some(mut target) = pass.take(alloc) else {
        return WRONG;
    };
    let status = match &mut *target {
        HandleTarget::Pass(pass) => match pass.glance(object) {
            Some(known) => {
                *standing = c_standing(known);
                OK
            }
            None => WRONG,
        },
        _ => WRONG,
    };
    *pass = Handle::of(target);
    status
}
