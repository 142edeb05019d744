//! The book: the scheduler with the history of its calls.

ghost use Rattle.std.specs.Prelude.{◌≡◌, ◌+◌, ◌^◌, ◌<◌, ◌≤◌, [], ◌∷◌, ◌++◌, length};
ghost use Rattle.std.specs.Prelude.{IfOk, IfErr, OnOk, OnErr, vec_capacity, vec_len};
ghost use Rattle.check_objects.specs.Configuration.{IsSetup};
ghost use Rattle.check_sched.specs.Saved.{state_after_resume, saved_of};
ghost use Rattle.check_sched.specs.State.{IsState, opening};
ghost use Rattle.check_sched.specs.Step.{step};
ghost use Rattle.check_sched.proofs.BoardLaws.{step_posted, step_unposted, step_within};
ghost use Rattle.check_sched.proofs.UniquenessLaws.{IsSetup-prop, IsState-prop};
ghost use Rattle.check_book.specs.BookState.{BookState, book_at, book_opening, book_step};
ghost use Rattle.check_book.specs.Logs.{log_opening, log_state};
ghost use Rattle.check_book.specs.Board.{book_board, book_slot};
ghost use Rattle.std.proofs.Props.{props};
ghost use Rattle.ticket_steps.specs.History.{entry, replay, IsLegal, IsLegal-prop};

use crate::opening::Opening;
use check_objects::Setup;
use check_sched::{Call, LAST_MOMENT, Reply, Saved, Sched};
use std::alloc::{AllocError, Global};
use std::mem;
use ticket_steps::{Entry, Kept, NoMemory};

/// A scheduler that stores the history of its calls. Each call is stored with its reply, under the number
/// of the pass that made it. (Our own profile.)
///
/// The history is always legal: each reply is the scheduler's at its place, from the opening on. The
/// scheduler is in the state after those calls. Refused calls are entries too. If there is no memory for the
/// entry of a call, the call isn't made, but counted.
pub struct Book {
    /// In a box, so that moving a book moves a pointer.
    log: Box<Log>,
    ghost reserved: { log.value.room ≤ vec_capacity log.value.entries },
    ghost opened: { IsState log.value.opened.at } by { IsState-prop log.value.opened.at },
    ghost valid_setup: { IsSetup log.value.sched.setup } by { IsSetup-prop log.value.sched.setup },
    ghost legal: { IsLegal book_step (log_opening log.value) log.value.entries.items } by { IsLegal-prop book_step (λ a b. Prim.hlevel props)
        (log_opening log.value) log.value.entries.items },
    ghost replayed: { log_state log.value
        ≡ replay book_step (log_opening log.value) log.value.entries.items },
}

// A crate that drops a book calls this. A derived one would be proved there again, field by field.
impl Drop for Book {
    fn drop(self) {
        let Book { log: _ } = self;
    }
}

/// The contents of a book: the scheduler, and the calls that led to its state.
#[derive(Drop)]
struct Log {
    sched: Sched,
    // The entries are next to the fields that the scheduler's calls write, which are its last.
    entries: Vec<Entry<Call, Reply>>,
    refused: u64,
    room: usize,
    /// The scheduler as it was when the book was opened. It takes no bytes.
    opened: Opening<Sched>,
}

impl Log {
    /// Begins again in the scheduler's present state, with an empty list of entries and its room. Returns
    /// the entries so far.
    fn start_over(
        &mut self,
        entries: Vec<Entry<Call, Reply>>,
        room: usize,
    ) -> Vec<Entry<Call, Reply>>
        ensures given { result ≡ self.old.entries }
        ensures entries { self.new.entries ≡ entries }
        ensures refused { self.new.refused ≡ 0 }
        ensures room { self.new.room ≡ room }
        ensures sched { self.new.sched ≡ self.old.sched }
        ensures opened { self.new.opened.at ≡ self.old.sched }
    {
        let earlier = mem::replace(&mut self.entries, entries);
        self.refused = 0;
        self.room = room;
        self.opened = Opening::of(&self.sched);
        earlier
    }
}

impl Book {
    ghost use Rattle.check_book.specs.Books.{entries_of, opening_of, refused_of, room_of, sched_of, state_of};

    /// A book without entries over a new scheduler for the objects of `setup`, which starts at the moment
    /// `start`, in milliseconds. There is room for `room` entries, so their calls need no memory.
    ///
    /// An Err means out of memory, and returns the setup as it was.
    pub fn open(alloc: Global, setup: Setup, start: u64, room: usize) -> Result<Book, Setup>
        requires { start ≤ LAST_MOMENT }
        ensures empty { IfOk result (λ book. (entries_of book ≡ []) × (refused_of book ≡ 0)) }
        ensures sched { IfOk result (λ book. sched_of book ≡ opening setup start) }
        ensures room { IfOk result (λ book. room_of book ≡ room) }
        ensures opening { IfOk result (λ book. opening_of book ≡ book_opening setup start room) }
        ensures err { IfErr result (λ handed_back. handed_back ≡ setup) }
    {
        let Ok(entries) = Vec::with_capacity(alloc, room) else {
            return Err(setup);
        };
        let sched = Sched::new(alloc, setup, start)?;
        Book::with_sched(alloc, sched, entries, room)
    }

    /// A book without entries over a scheduler that resumes the saved state of another ([`Sched::resume`]),
    /// over this setup and from the moment `start` on, in milliseconds. There is room for `room` entries, so
    /// their calls need no memory. Run numbers continue from the saved ones, and a check that was running is
    /// reported under its number as before.
    ///
    /// An Err means out of memory, and returns the setup as it was.
    pub fn resume(
        alloc: Global,
        setup: Setup,
        saved: &Saved,
        start: u64,
        room: usize,
    ) -> Result<Book, Setup>
        requires { start ≤ LAST_MOMENT }
        ensures empty { IfOk result (λ book. (entries_of book ≡ []) × (refused_of book ≡ 0)) }
        ensures sched { IfOk result (λ book. sched_of book ≡ state_after_resume setup saved.now start) }
        ensures room { IfOk result (λ book. room_of book ≡ room) }
        ensures opening { IfOk result (λ book.
            opening_of book ≡ book_at (state_after_resume setup saved.now start) room) }
        ensures err { IfErr result (λ handed_back. handed_back ≡ setup) }
    {
        let Ok(entries) = Vec::with_capacity(alloc, room) else {
            return Err(setup);
        };
        let sched = Sched::resume(alloc, setup, saved, start)?;
        Book::with_sched(alloc, sched, entries, room)
    }

    /// A book over this scheduler, which opens in the scheduler's present state, with an empty list of
    /// entries and its room. An Err means out of memory, and returns the setup.
    fn with_sched(
        alloc: Global,
        sched: Sched,
        entries: Vec<Entry<Call, Reply>>,
        room: usize,
    ) -> Result<Book, Setup>
        requires state { IsState sched }
        requires none { entries.items ≡ [] }
        requires reserved { room ≤ vec_capacity entries }
        ensures empty { IfOk result (λ book. (entries_of book ≡ []) × (refused_of book ≡ 0)) }
        ensures sched { IfOk result (λ book. sched_of book ≡ sched) }
        ensures room { IfOk result (λ book. room_of book ≡ room) }
        ensures opening { IfOk result (λ book. opening_of book ≡ book_at sched room) }
        ensures err { IfErr result (λ handed_back. handed_back ≡ sched.setup) }
    {
        let opened = Opening::of(&sched);
        let log = Log {
            sched,
            entries,
            refused: 0,
            room,
            opened,
        };
        match Box::new(alloc, log) {
            Ok(log) => Ok(Book { log }),
            Err(refused) => Err(refused.value.sched.into_setup()),
        }
    }

    /// The saved state of the scheduler ([`Sched::save`]), from the book's present state. The book stays as
    /// it is. An Err means out of memory.
    pub fn save(&self, alloc: Global) -> Result<Saved, AllocError>
        ensures { IfOk result (λ saved. saved ≡ saved_of (sched_of self.now)) }
    {
        self.log.sched.save(alloc)
    }

    /// A new book, and the entries of this one. The new book opens in the present state of this one, without
    /// entries and refusals, and with room for `room` entries. It has the scheduler's knowledge: standings,
    /// next times, running checks, stored results, and the number of runs handed out. The entries are moved,
    /// not copied, so only the room needs memory. The count of refusals ends with this book, so read
    /// [`refused`](Kept::refused) first.
    ///
    /// An Err means out of memory, and returns this book as it was.
    pub fn renew(self, alloc: Global, room: usize) -> Result<(Book, Vec<Entry<Call, Reply>>), Book>
        ensures opening { IfOk result (λ made. opening_of made.0 ≡ book_at (sched_of self) room) }
        ensures state { IfOk result (λ made. state_of made.0 ≡ book_at (sched_of self) room) }
        ensures empty { IfOk result (λ made. (entries_of made.0 ≡ []) × (refused_of made.0 ≡ 0)) }
        ensures entries { IfOk result (λ made. made.1.items ≡ entries_of self) }
        ensures err { IfErr result (λ handed_back. handed_back ≡ self) }
    {
        let Ok(entries) = Vec::with_capacity(alloc, room) else {
            return Err(self);
        };
        let Book { mut log } = self;
        let earlier = (*log).start_over(entries, room);
        Ok((Book { log }, earlier))
    }

    /// Returns the setup, and ends the book.
    pub fn into_setup(self) -> Setup
        ensures { result ≡ (sched_of self).setup }
    {
        let Book { log } = self;
        Box::into_inner(log).sched.into_setup()
    }

    /// The scheduler, in the state after the calls of the entries.
    pub fn sched(&self) -> &Sched
        ensures { result.now ≡ sched_of self.now }
    {
        &self.log.sched
    }

    /// The number of entries for which there was room at first.
    pub fn room(&self) -> usize
        ensures { result ≡ room_of self.now }
    {
        self.log.room
    }
}

impl Kept for Book {
    ghost use Rattle.check_book.specs.Books.{capacity_of, entries_of, opening_of, refused_of, room_of, sched_of, state_of};

    type Call = Call;

    type Reply = Reply;

    ghost State = { BookState };

    ghost step = { book_step };

    ghost board = { book_board };

    ghost posts_at = { book_slot };

    ghost opening = { opening_of };

    ghost state = { state_of };

    ghost history = { entries_of };

    ghost refusals = { refused_of };

    ghost legal = { λ book. book.legal };

    ghost replayed = { λ book. book.replayed };

    ghost within = { λ s. step_within s.sched };

    ghost unposted = { λ s. step_unposted s.sched };

    ghost posted = { λ s. step_posted s.sched };

    /// Makes one call on the scheduler, and stores it with its reply. Room for the entry is made first. If
    /// there is no memory for it, the call isn't made, but counted. `NoMemory` comes only if the entries have
    /// reached the room and fill everything that was reserved since.
    fn record(&mut self, pass: u32, call: Call) -> Result<Reply, NoMemory>
        requires { refused_of self.old < 2 ^ 60 }
        ensures same { opening_of self.new ≡ opening_of self.old }
        ensures replied { IfOk result (λ reply.
            (entries_of self.new ≡ entries_of self.old ++ entry pass call reply ∷ [])
            × (refused_of self.new ≡ refused_of self.old)) }
        ensures refused { OnErr result (
            (entries_of self.new ≡ entries_of self.old)
            × (state_of self.new ≡ state_of self.old)
            × (refused_of self.new ≡ refused_of self.old + 1)) }
        ensures step { IfOk result (λ reply. (reply ≡ (step (sched_of self.old) call).1)
            × (sched_of self.new ≡ (step (sched_of self.old) call).0)) }
        ensures full { OnErr result (room_of self.old ≤ length (entries_of self.old)) }
        ensures used_up { OnErr result (capacity_of self.old ≤ length (entries_of self.old)) }
    {
        let log = &mut *self.log;
        if grow(&mut log.entries).is_err() {
            log.refused += 1;
            return Err(NoMemory);
        }
        let reply = log.sched.apply(call);
        log.entries.push_reserved(Entry { pass, call, reply });
        Ok(reply)
    }

    fn entries(&self) -> &[Entry<Call, Reply>] {
        self.log.entries.as_slice()
    }

    fn refused(&self) -> u64 {
        self.log.refused
    }

    /// The number of the setup's objects, at most 4,096.
    fn words(&self) -> u32 {
        self.log.sched.words()
    }

    /// The [`code`](check_states::code) of the standing of the object with this number, which
    /// [`decode`](check_states::decode) reads: see
    /// [`board_shows_standings`](crate::laws::board_shows_standings).
    fn word(&self, place: u32) -> u64 {
        self.log.sched.word(place)
    }

    /// The object's number, for a report of the run under which the object is being checked. No other call is
    /// posted: neither a report that will be refused, nor a call that changes no standing.
    fn posts(&self, call: Call) -> Option<u32> {
        self.log.sched.slot_of_call(call)
    }
}

/// Makes room for one more entry. It takes no memory if there is room.
fn grow(entries: &mut Vec<Entry<Call, Reply>>) -> Result<(), AllocError>
    ensures same { entries.new.items ≡ entries.old.items }
    ensures capacity { vec_capacity entries.old ≤ vec_capacity entries.new }
    ensures ok { OnOk result (vec_len entries.new < vec_capacity entries.new) }
    ensures used_up { OnErr result (vec_capacity entries.old ≤ length entries.old.items) }
{
    if entries.len() < entries.capacity() {
        return Ok(());
    }
    entries.reserve(1)
}
