//! Saves the state of a scheduler.

ghost use Rattle.std.specs.Prelude.{◌≡◌, ◌<◌, IfOk, Some, slice_get};
ghost use Rattle.check_objects.specs.Configuration.{NamedObject, object_count, objects_of};
ghost use Rattle.check_sched.specs.Saved.{saved_object, saved_of};

use super::Sched;
use crate::report::attempts_of;
use check_saved_state::{Saved, SavedObject};
use check_spread::milliseconds;
use std::alloc::{AllocError, Global};

impl Sched {
    /// Saves the scheduler's state: everything except its setup, object by object. The scheduler stays as it
    /// is. [`Sched::resume`] makes a scheduler from the saved state. (Our own profile; Nagios uses retention
    /// files.)
    ///
    /// An Err means out of memory.
    pub fn save(&self, alloc: Global) -> Result<Saved, AllocError>
        ensures { IfOk result (λ saved. saved ≡ saved_of self.now) }
    {
        let objects = self.saved_objects(alloc)?;
        Ok(Saved::of(self.start, self.runs, objects))
    }

    /// Saves each object, by number.
    fn saved_objects(&self, alloc: Global) -> Result<Vec<SavedObject>, AllocError>
        ensures { IfOk result (λ objects. objects.items ≡ (saved_of self.now).objects) }
    {
        let count = self.setup.len();
        let mut objects = Vec::with_capacity(alloc, count)?;
        for number in 0..count {
            objects.push(self.saved_object(alloc, number as u32)?)?;
        }
        Ok(objects)
    }

    /// Saves the object with this number.
    fn saved_object(&self, alloc: Global, number: u32) -> Result<SavedObject, AllocError>
        requires { number < object_count self.now.setup }
        ensures { IfOk result (λ made. (o : NamedObject) → slice_get (objects_of self.now.setup) number ≡ Some o
            → made ≡ saved_object self.now (number, o)) }
    {
        let name = String::from_str(alloc, self.setup.name(number))?;
        let results = self.results.copy(alloc, number)?;
        let state = self.roster.at(number);
        let object = self.setup.object(number);
        Ok(SavedObject {
            name,
            standing: self.standings[number as usize],
            results,
            next: state.next(),
            run: state.run(),
            enabled: state.is_enabled(),
            forced: state.is_forced(),
            interval: milliseconds(&self.setup, object.check_interval),
            max_attempts: attempts_of(object),
            setup_enabled: object.enabled,
        })
    }
}
