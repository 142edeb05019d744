//! The scheduling of all objects: those that wait, in two queues, and the number of services that are being
//! checked.

ghost use Rattle.std.specs.Prelude.{◌≡◌, ◌<◌, ◌≤◌, ◌&&◌, IfOk, Some, drop, length, nat_le, nat_lt, option_map, slice_get, slice_set, take};
ghost use Rattle.check_queue.specs.Order.{least};
ghost use Rattle.check_sched.specs.Candidate.{candidates_among};
ghost use Rattle.check_sched.specs.Roster.{running_among, waiting_times};
ghost use Rattle.check_sched.specs.Change.{object_after_change};
ghost use Rattle.check_sched.specs.Step.{update_at};

use crate::candidate::{Candidate, earlier};
use crate::object_state::{Change, ObjectState};
use check_objects::MAX_OBJECTS;
use check_queue::Queue;
use std::alloc::{AllocError, Global};
use std::marker::Model;

/// The scheduling of each object, and two queues of objects that wait for a check, one of hosts and one of
/// services. It also counts the services that are being checked. Only [`Roster::change`] changes an object,
/// so that its place in its queue always agrees with its state. Contracts see the number of hosts, and the
/// state of each object by number.
#[derive(Drop)]
pub(crate) struct Roster {
    waiting_hosts: Queue,
    // A call for a service reads and writes the fields from here on, which are next to each other.
    hosts: usize,
    objects: Vec<ObjectState>,
    waiting_services: Queue,
    running_services: usize,
}

impl Model for Roster {
    ghost use Rattle.check_sched.specs.Roster.{RosterState, roster_of, IsWellFormed};

    ghost Value = { RosterState };

    ghost view = { roster_of };

    ghost invariant = { IsWellFormed };
}

impl Roster {
    /// The roster of these objects. The first `hosts` objects are the hosts.
    ///
    /// An Err means out of memory. This is the only call that needs memory.
    pub(crate) fn new(
        alloc: Global,
        hosts: usize,
        objects: Vec<ObjectState>,
    ) -> Result<Roster, AllocError>
        requires bounded { length objects.items ≤ MAX_OBJECTS }
        requires hosts { hosts ≤ length objects.items }
        ensures { IfOk result (λ roster. roster ≡ record { hosts = hosts; objects = objects.items }) }
    {
        let waiting_hosts = build_queue(alloc, &objects, 0, hosts)?;
        let waiting_services = build_queue(alloc, &objects, hosts, objects.len())?;
        let running_services = running_from(&objects, hosts);
        Ok(Roster {
            hosts,
            objects,
            waiting_hosts,
            waiting_services,
            running_services,
        })
    }

    /// The state of the object with this number, if there is one.
    pub(crate) fn get(&self, number: u32) -> Option<&ObjectState>
        ensures { option_map (λ object. object.now) result ≡ slice_get self.now.objects number }
    {
        self.objects.get(number as usize)
    }

    /// The state of the object with this number.
    pub(crate) fn at(&self, number: u32) -> &ObjectState
        requires { number < length self.now.objects }
        ensures { slice_get self.now.objects number ≡ Some result.now }
    {
        &self.objects[number as usize]
    }

    /// Makes this change of the object with this number, and moves it in its queue.
    // Each caller makes a known change, so the compiler keeps only that part.
    #[inline(always)]
    pub(crate) fn change(&mut self, number: u32, change: Change)
        requires { number < length self.old.objects }
        ensures { self.new ≡ record {
          hosts = self.old.hosts;
          objects = update_at number (object_after_change change) self.old.objects;
        } }
    {
        let index = number as usize;
        let object = &mut self.objects[index];
        let was_running = object.is_running();
        object.change(change);
        let is_running = object.is_running();
        let time = object.candidate_time();
        if index < self.hosts {
            enqueue(&mut self.waiting_hosts, number, time);
        } else {
            enqueue(&mut self.waiting_services, number, time);
            self.running_services += usize::from(is_running);
            self.running_services -= usize::from(was_running);
        }
    }

    /// The number of services that are being checked.
    pub(crate) fn running_services(&self) -> usize
        ensures { result ≡ running_among (drop self.now.hosts self.now.objects) }
    {
        self.running_services
    }

    /// The object whose check comes first: the one with the least time. At equal times it is the one with the
    /// least number. None if no object waits for a check.
    #[inline(always)]
    pub(crate) fn first(&self) -> Option<Candidate>
        ensures { result ≡ least (candidates_among self.now.objects) }
    {
        earlier(self.waiting_hosts.first(), self.waiting_services.first())
    }

    /// The same among the hosts.
    pub(crate) fn first_host(&self) -> Option<Candidate>
        ensures { result ≡ least (candidates_among (take self.now.hosts self.now.objects)) }
    {
        self.waiting_hosts.first()
    }
}

/// Puts an object into its queue at the time for which it waits, or removes it if there is no time.
// In each caller the compiler knows whether there is a time.
#[inline(always)]
fn enqueue(queue: &mut Queue, number: u32, time: Option<u64>)
    requires { number < length queue.old }
    ensures { queue.new ≡ slice_set queue.old number time }
{
    match time {
        Some(time) => queue.put(number, time),
        None => {
            queue.remove(number);
        }
    }
}

/// A queue of the objects that wait, among those with the numbers from `from` on and below `to`.
fn build_queue(
    alloc: Global,
    objects: &[ObjectState],
    from: usize,
    to: usize,
) -> Result<Queue, AllocError>
    requires bounded { length objects.now ≤ MAX_OBJECTS }
    requires ascending { from ≤ to }
    requires within { to ≤ length objects.now }
    ensures { IfOk result (λ queue. queue ≡ waiting_times (λ number. nat_le from number && nat_lt number to) objects.now) }
{
    let mut queue = Queue::new(alloc, objects.len() as u32)?;
    for number in from..to {
        enqueue(&mut queue, number as u32, objects[number].candidate_time());
    }
    Ok(queue)
}

/// The number of objects with the numbers from `from` on that are being checked.
pub(crate) fn running_from(objects: &[ObjectState], from: usize) -> usize
    requires { from ≤ length objects.now }
    ensures { result ≡ running_among (drop from objects.now) }
{
    let mut running = 0;
    for number in from..objects.len() {
        running += usize::from(objects[number].is_running());
    }
    running
}
