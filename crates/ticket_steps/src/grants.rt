//! The grant words: the number served, stored in four words.
//!
//! Ticket t watches the word t mod 4, and is served when that word is t. So a leave writes one word, and
//! three of four waiting seats watch other words.

ghost use Rattle.std.specs.Prelude.{◌≡◌, ◌↔◌, ℕ, ◌+◌, ◌^◌, ◌<◌, ◌≤◌, IsTrue};
ghost use Rattle.ticket_steps.specs.Grants.{watched_word, greatest, AreGrantsOf, IsLastGrant};

use std::marker::Model;

/// The number served, as four words. It is the greatest of them, and contracts see this number.
#[derive(Drop)]
pub struct Grants {
    words: [u64; 4],
}

impl Model for Grants {
    ghost Value = { ℕ };

    ghost view = { λ grants. greatest grants.words };

    ghost invariant = { λ grants. AreGrantsOf (greatest grants.words) grants.words };
}

impl Grants {
    /// No ticket is left yet, so ticket 0 is served.
    pub fn open() -> Grants
        ensures { result ≡ 0 }
    {
        Grants { words: [0; 4] }
    }

    /// One of the four words: the last ticket served among those that watch it, or 0 if none was.
    pub fn word(&self, place: usize) -> u64
        requires { place < 4 }
        ensures { IsLastGrant self.now place result }
    {
        self.words[place]
    }

    /// Whether a ticket that isn't left yet is served.
    pub fn serves(&self, ticket: u64) -> bool
        requires { self.now ≤ ticket }
        ensures { IsTrue result ↔ (ticket ≡ self.now) }
    {
        self.words[watched_word(ticket)] == ticket
    }

    /// Leaves the ticket that is served, so that the next one is served.
    pub fn leave(&mut self, ticket: u64)
        requires served { ticket ≡ self.old }
        requires small { ticket < 2 ^ 60 }
        ensures { self.new ≡ ticket + 1 }
    {
        let next = ticket + 1;
        self.words[watched_word(next)] = next;
    }
}

/// The place of the grant word that a ticket watches.
pub fn watched_word(ticket: u64) -> usize
    ensures { result ≡ watched_word ticket }
{
    (ticket % 4) as usize
}
