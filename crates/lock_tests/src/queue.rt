//! The queue of four numbers, step by step, and a queue of many.

ghost use Rattle.std.specs.Prelude.{◌≡◌, ◌<◌, None, length, slice_set};

use check_queue::Queue;
use std::alloc::Global;
use std::process::Abort;
use std::test::Fail;

/// Compares the least time and its number with the expected ones.
fn assert_first(rt: &impl Abort, queue: &Queue, first: Option<(u64, u32)>) {
    assert_eq!(rt; queue.first(), first);
}

/// Compares the time of a number with the expected one.
fn assert_time(rt: &impl Abort, queue: &Queue, number: u32, time: Option<u64>) {
    assert!(rt; queue.time_of(number) == time, "{number}");
}

/// Removes the time of a number, and compares whether it had one.
fn remove(rt: &impl Abort, queue: &mut Queue, number: u32, was_present: bool)
    ensures { queue.new ≡ slice_set queue.old number None }
{
    assert!(rt; queue.remove(number) == was_present, "{number}");
}

#[test]
fn the_least_time_and_number_is_first(rt: HostRuntime) -> Result<(), Fail> {
    let mut queue = Queue::new(rt.alloc(), 4)?;
    queue.put(2, 50);
    queue.put(0, 50);
    queue.put(3, 10);
    queue.put(1, 70);
    assert_first(&rt, &queue, Some((10, 3)));
    queue.put(3, 60);
    assert_first(&rt, &queue, Some((50, 0)));
    remove(&rt, &mut queue, 0, true);
    remove(&rt, &mut queue, 0, false);
    assert_first(&rt, &queue, Some((50, 2)));
    assert_time(&rt, &queue, 3, Some(60));
    queue.put(1, 5);
    assert_first(&rt, &queue, Some((5, 1)));
    remove(&rt, &mut queue, 1, true);
    remove(&rt, &mut queue, 2, true);
    assert_first(&rt, &queue, Some((60, 3)));
    remove(&rt, &mut queue, 3, true);
    assert_first(&rt, &queue, None);
    Ok(())
}

/// Shows that a number has no time, and that there is none to remove.
fn assert_absent(rt: &impl Abort, queue: &mut Queue, number: u32) {
    assert_time(rt, queue, number, None);
    remove(rt, queue, number, false);
}

#[test]
fn a_number_past_the_bound_has_no_time(rt: HostRuntime) -> Result<(), Fail> {
    let mut queue = Queue::new(rt.alloc(), 4)?;
    queue.put(3, 10);
    assert_absent(&rt, &mut queue, 0);
    assert_absent(&rt, &mut queue, 4);
    assert_absent(&rt, &mut queue, u32::MAX);
    assert_first(&rt, &queue, Some((10, 3)));
    Ok(())
}

/// A queue of this many numbers. Only the last has a time.
fn has_room_for(rt: &impl Abort, alloc: Global, numbers: u32) -> Result<(), Fail>
    requires { 0 < numbers }
{
    let last = numbers - 1;
    let mut queue = Queue::new(alloc, numbers)?;
    queue.put(last, 7);
    assert_first(rt, &queue, Some((7, last)));
    remove(rt, &mut queue, last, true);
    assert_first(rt, &queue, None);
    Ok(())
}

#[test]
fn a_queue_of_a_million_numbers(rt: HostRuntime) -> Result<(), Fail> {
    has_room_for(&rt, rt.alloc(), 1_000_000)
}

/// How many numbers Nagios's own test of its event queue puts in.
const MANY: u32 = 65_101;

/// Gives each number of a queue of `MANY` a random time.
fn put_many(queue: &mut Queue)
    requires { length queue.old ≡ 65101 }
{
    let mut random = 42u64;
    for number in 0..MANY {
        random = random
            .wrapping_mul(6364136223846793005)
            .wrapping_add(1442695040888963407);
        queue.put(number, random >> 40);
    }
}

/// Removes the first number, and returns its time.
fn take_first(rt: &impl Abort, queue: &mut Queue) -> u64 {
    let Some((time, number)) = queue.first() else {
        panic!(rt; "too few")
    };
    remove(rt, queue, number, true);
    time
}

#[test]
fn many_times_never_decrease(rt: HostRuntime) -> Result<(), Fail> {
    let mut queue = Queue::new(rt.alloc(), MANY)?;
    put_many(&mut queue);
    let mut last = 0;
    for _taken in 0..MANY {
        let time = take_first(&rt, &mut queue);
        assert!(rt; last <= time);
        last = time;
    }
    assert_first(&rt, &queue, None);
    Ok(())
}
