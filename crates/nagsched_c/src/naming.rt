//! Finds objects by number and by name, in a setup, a pass or a book.

ghost use Rattle.std.specs.Prelude.{◌≡◌, ◌<◌, ◌≤◌, ◌++◌, ℕ, ⊤, length, drop, Some};
ghost use Rattle.check_objects.specs.Configuration.{host_count, object_count};
ghost use Rattle.nagsched_handles.specs.Handles.{contents_of, handle_setup, MatchSetup};
ghost use Rattle.nagsched_c.specs.Names.{HasHostOf, HasName, HasNumber, IsPut};

use crate::status::{MISSING, OK, WRONG};
use check_objects::Setup;
use nagsched_handles::Handle;
use std::alloc::Global;
use std::str::from_utf8;

/// The number of objects, 0 to 4,096, and the number of hosts among them. Hosts have the numbers from 0
/// on.
///
/// `WRONG` exactly if the handle has neither a setup, a pass nor a book. Then nothing is written.
#[unsafe(no_mangle)]
pub extern "C" fn nagsched_count(
    alloc: Global,
    named: &mut Handle,
    objects: &mut u32,
    hosts: &mut u32,
) -> u32
    ensures handle { contents_of named.new ≡ contents_of named.old }
    ensures output { MatchSetup (handle_setup (contents_of named.old))
        (λ setup. (result ≡ OK) × (objects.new ≡ object_count setup) × (hosts.new ≡ host_count setup))
        ((result ≡ WRONG) × (objects.new ≡ objects.old) × (hosts.new ≡ hosts.old)) }
{
    let Some(target) = named.take(alloc) else {
        return WRONG;
    };
    let status = match target.setup() {
        Some(setup) => count_objects(setup, objects, hosts),
        None => WRONG,
    };
    *named = Handle::of(target);
    status
}

/// Writes the number of objects of the setup, and the number of hosts among them.
fn count_objects(setup: &Setup, objects: &mut u32, hosts: &mut u32) -> u32
    ensures { (result ≡ OK) × (objects.new ≡ object_count setup.now) × (hosts.new ≡ host_count setup.now) }
{
    *objects = setup.len() as u32;
    *hosts = setup.hosts() as u32;
    OK
}

/// The number of the object with this full name.
///
/// `MISSING` exactly if there is no such object; `WRONG` exactly if the handle has neither a setup, a
/// pass nor a book. The number is written only if it was found.
#[unsafe(no_mangle)]
pub extern "C" fn nagsched_number(
    alloc: Global,
    named: &mut Handle,
    name: &[u8],
    number: &mut u32,
) -> u32
    ensures handle { contents_of named.new ≡ contents_of named.old }
    ensures output { MatchSetup (handle_setup (contents_of named.old))
        (λ setup. HasNumber setup name.now number.old result number.new)
        ((result ≡ WRONG) × (number.new ≡ number.old)) }
{
    let Some(target) = named.take(alloc) else {
        return WRONG;
    };
    let status = match target.setup() {
        Some(setup) => find_number(setup, name, number),
        None => WRONG,
    };
    *named = Handle::of(target);
    status
}

/// Writes the number of the object with this full name, if there is one.
fn find_number(setup: &Setup, name: &[u8], number: &mut u32) -> u32
    ensures { HasNumber setup.now name.now number.old result number.new }
{
    let Ok(name) = from_utf8(name) else {
        return MISSING;
    };
    match setup.number(name) {
        Some(found) => {
            *number = found;
            OK
        }
        None => MISSING,
    }
}

/// The full name of the object with this number, into the room at `name`; `bytes` is its length.
///
/// `WRONG` if the handle has neither a setup, a pass nor a book, if there is no such object, or if the
/// name is longer than the room. Then nothing is written, except in the last case its length.
#[unsafe(no_mangle)]
pub extern "C" fn nagsched_name(
    alloc: Global,
    named: &mut Handle,
    number: u32,
    name: &mut [u8],
    bytes: &mut usize,
) -> u32
    ensures handle { contents_of named.new ≡ contents_of named.old }
    ensures output { MatchSetup (handle_setup (contents_of named.old))
        (λ setup. HasName setup number name.old bytes.old result name.new bytes.new)
        ((result ≡ WRONG) × (name.new ≡ name.old) × (bytes.new ≡ bytes.old)) }
{
    let Some(target) = named.take(alloc) else {
        return WRONG;
    };
    let status = match target.setup() {
        Some(setup) => put_name(setup, number, name, bytes),
        None => WRONG,
    };
    *named = Handle::of(target);
    status
}

/// Puts the full name of the object with this number, if there is one.
fn put_name(setup: &Setup, number: u32, name: &mut [u8], bytes: &mut usize) -> u32
    ensures { HasName setup.now number name.old bytes.old result name.new bytes.new }
{
    if (number as usize) < setup.len() {
        put(setup.name(number).as_bytes(), name, bytes)
    } else {
        WRONG
    }
}

/// Writes a text at the beginning of the room, if it fits, and its length in any case.
pub(crate) fn put(text: &[u8], room: &mut [u8], bytes: &mut usize) -> u32
    ensures { IsPut text.now room.old result room.new bytes.new }
{
    *bytes = text.len();
    if text.len() <= room.len() {
        room[..text.len()].copy_from_slice(text);
        OK
    } else {
        WRONG
    }
}

/// The number of the service's host.
///
/// `MISSING` exactly if the object is a host. `WRONG` exactly if the handle has neither a setup, a pass
/// nor a book, or if there is no object of this number. The number is written only if there is one.
#[unsafe(no_mangle)]
pub extern "C" fn nagsched_host_of(
    alloc: Global,
    named: &mut Handle,
    number: u32,
    host: &mut u32,
) -> u32
    ensures handle { contents_of named.new ≡ contents_of named.old }
    ensures output { MatchSetup (handle_setup (contents_of named.old))
        (λ setup. HasHostOf setup number host.old result host.new)
        ((result ≡ WRONG) × (host.new ≡ host.old)) }
{
    let Some(target) = named.take(alloc) else {
        return WRONG;
    };
    let status = match target.setup() {
        Some(setup) => find_host(setup, number, host),
        None => WRONG,
    };
    *named = Handle::of(target);
    status
}

/// Writes the number of the service's host, if the object is a service.
fn find_host(setup: &Setup, number: u32, host: &mut u32) -> u32
    ensures { HasHostOf setup.now number host.old result host.new }
{
    if setup.len() <= number as usize {
        return WRONG;
    }
    match setup.host_of(number) {
        Some(found) => {
            *host = found;
            OK
        }
        None => MISSING,
    }
}
