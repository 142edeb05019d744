//! The smallest book: a call is a number, and the reply is the sum of all calls so far, modulo 2^64.

ghost use Rattle.std.specs.Prelude.{◌≡◌, ℕ, ◌+◌, ◌^◌, ◌<◌, ◌≤◌, [], ◌∷◌, ◌++◌, length, IfOk, OnErr, vec_capacity};
ghost use Rattle.std.specs.Coded.{Coded-set, coded_ℕ};
ghost use Rattle.ticket_steps.specs.Counting.{counter_step, sum_board, sum_slot, sum_within, sum_unposted, sum_posted};
ghost use Rattle.ticket_steps.specs.History.{entry, replay, IsLegal, IsLegal-prop};

use crate::books::{Entry, Kept, NoMemory};
use std::alloc::{AllocError, Global};

/// A running sum that stores its history. It is opened with the sum 0.
#[derive(Drop)]
pub struct CounterBook {
    entries: Vec<Entry<u8, u64>>,
    sum: u64,
    refused: u64,
    room: usize,
    ghost reserved: { room ≤ vec_capacity entries },
    ghost legal: { IsLegal counter_step 0 entries.items } by { IsLegal-prop counter_step (Coded-set coded_ℕ) 0 entries.items },
    ghost summed: { sum ≡ replay counter_step 0 entries.items },
}

impl CounterBook {
    ghost use Rattle.ticket_steps.specs.CounterBooks.{counter_entries, counter_refusals, counter_sum, counter_room};

    /// An empty book with room for `room` entries: their calls need no memory. If there is no memory for
    /// the room, nothing is made.
    pub fn open(alloc: Global, room: usize) -> Result<CounterBook, AllocError>
        ensures empty { IfOk result (λ book. (counter_entries book ≡ []) × (counter_refusals book ≡ 0)) }
        ensures sum { IfOk result (λ book. counter_sum book ≡ 0) }
        ensures room { IfOk result (λ book. counter_room book ≡ room) }
    {
        let entries = Vec::with_capacity(alloc, room)?;
        Ok(CounterBook {
            entries,
            sum: 0,
            refused: 0,
            room,
        })
    }

    /// The number of entries for which the book had room at first.
    pub fn room(&self) -> usize
        ensures { result ≡ counter_room self.now }
    {
        self.room
    }
}

impl Kept for CounterBook {
    ghost use Rattle.ticket_steps.specs.CounterBooks.{counter_capacity, counter_entries, counter_refusals, counter_sum, counter_room};

    type Call = u8;

    type Reply = u64;

    ghost State = { ℕ };

    ghost step = { counter_step };

    ghost board = { sum_board };

    ghost posts_at = { sum_slot };

    ghost opening = { λ _. 0 };

    ghost state = { counter_sum };

    ghost history = { counter_entries };

    ghost refusals = { counter_refusals };

    ghost legal = { λ book. book.legal };

    ghost replayed = { λ book. book.summed };

    ghost within = { sum_within };

    ghost unposted = { sum_unposted };

    ghost posted = { sum_posted };

    /// Adds the call to the sum. `NoMemory` comes only if the entries have reached the room, and fill
    /// everything that was reserved since.
    fn record(&mut self, pass: u32, call: u8) -> Result<u64, NoMemory>
        requires { counter_refusals self.old < 2 ^ 60 }
        ensures same { counter_room self.new ≡ counter_room self.old }
        ensures replied { IfOk result (λ reply.
            (counter_entries self.new ≡ counter_entries self.old ++ entry pass call reply ∷ [])
            × (counter_refusals self.new ≡ counter_refusals self.old)) }
        ensures refused { OnErr result (
            (counter_entries self.new ≡ counter_entries self.old)
            × (counter_sum self.new ≡ counter_sum self.old)
            × (counter_refusals self.new ≡ counter_refusals self.old + 1)) }
        ensures full { OnErr result (counter_room self.old ≤ length (counter_entries self.old)) }
        ensures used_up { OnErr result (counter_capacity self.old ≤ length (counter_entries self.old)) }
    {
        let reply = self.sum.wrapping_add(call as u64);
        if self.entries.push(Entry { pass, call, reply }).is_err() {
            self.refused += 1;
            return Err(NoMemory);
        }
        self.sum = reply;
        Ok(reply)
    }

    fn entries(&self) -> &[Entry<u8, u64>] {
        self.entries.as_slice()
    }

    fn refused(&self) -> u64 {
        self.refused
    }

    fn words(&self) -> u32 {
        1
    }

    /// The sum.
    fn word(&self, _place: u32) -> u64 {
        self.sum
    }

    fn posts(&self, call: u8) -> Option<u32> {
        if call == 0 { None } else { Some(0) }
    }
}
