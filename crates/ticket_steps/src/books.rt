//! Books: sequential objects that store the history of their calls.

ghost use Rattle.std.specs.Prelude.{◌≡◌, ℕ, ◌+◌, ◌^◌, ◌<◌, List, [], ◌∷◌, ◌++◌, length, slice_index, slice_set};
ghost use Rattle.std.specs.Prelude.{Option, Some, None, IfOk, OnErr};
ghost use Rattle.ticket_steps.specs.declared.books.Entry.{Entry as EntryOf};
ghost use Rattle.ticket_steps.specs.History.{entry, replay, IsLegal};

/// One call of a history: the number of the seat (or pass) that made it, the call and its reply.
#[derive(Clone, Copy, PartialEq, Eq, Debug)]
pub struct Entry<C, R> {
    pub pass: u32,
    pub call: C,
    pub reply: R,
}

/// A call was refused, out of memory. The book counts it, and nothing else changes.
#[derive(Clone, Copy, PartialEq, Eq, Debug)]
pub struct NoMemory;

/// A sequential object that stores the history of its calls, each under the number of its caller.
///
/// An implementation names its states and its sequential step. For each value it names the state in which the
/// value was opened, its present state, its history and its count of refusals. It also names the board, which
/// is read without the lock. A state shows words there, by place, and gives the place at which a call is
/// posted, if it is posted. Seven laws hold:
///
/// 1. `legal`: each reply of the history is the step's at its point, from the opening state on.
/// 2. `replayed`: the present state is the state after the calls of the history.
/// 3. A `record` that returns a reply adds exactly that entry (`replied`). It changes neither the opening
///    state (`same`) nor the count of refusals.
/// 4. A `record` that returns `NoMemory` adds one to the refusals and changes nothing else.
/// 5. The words, and the place of a call, depend on the state only. So they depend only on the opening state
///    and the entries (by `replayed`). Each place is the place of a word (`within`).
/// 6. A call that is not posted changes no word (`unposted`).
/// 7. A call that is posted changes at most the word at its place (`posted`).
///
/// By the last two laws, no call changes the number of words.
pub trait Kept {
    type Call: Copy;

    type Reply: Copy;

    ghost State: { Type 0 };

    ghost step: { State → Self.Call → State × Self.Reply };

    ghost board: { State → List ℕ };

    ghost posts_at: { State → Self.Call → Option ℕ };

    ghost opening: { Self → State };

    ghost state: { Self → State };

    ghost history: { Self → List (EntryOf Self.Call Self.Reply) };

    ghost refusals: { Self → ℕ };

    /// Makes one call for the caller with the number `pass`, and stores it in the history. If there is no
    /// memory for the entry, the call isn't made, but counted as refused.
    fn record(&mut self, pass: u32, call: Self::Call) -> Result<Self::Reply, NoMemory>
        requires { refusals self.old < 2 ^ 60 }
        ensures same { opening self.new ≡ opening self.old }
        ensures replied { IfOk result (λ reply.
            (history self.new ≡ history self.old ++ entry pass call reply ∷ [])
            × (refusals self.new ≡ refusals self.old)) }
        ensures refused { OnErr result (
            (history self.new ≡ history self.old)
            × (state self.new ≡ state self.old)
            × (refusals self.new ≡ refusals self.old + 1)) };

    /// The history, oldest entry first.
    fn entries(&self) -> &[Entry<Self::Call, Self::Reply>]
        ensures { result.now ≡ history self.now };

    /// The number of calls that were refused, out of memory.
    fn refused(&self) -> u64
        ensures { result ≡ refusals self.now };

    /// The number of words on the book's board.
    fn words(&self) -> u32
        ensures { result ≡ length (board (state self.now)) };

    /// The word at this place.
    fn word(&self, place: u32) -> u64
        requires { place < length (board (state self.now)) }
        ensures { result ≡ slice_index (board (state self.now)) place };

    /// The place at which the call is posted, if it is made now. None if no word shows the call.
    fn posts(&self, call: Self::Call) -> Option<u32>
        ensures { result ≡ posts_at (state self.now) call };

    /// Each reply is the step's at its point.
    ghost legal: { (book : Self) → IsLegal step (opening book) (history book) };

    /// The state is the state after the calls.
    ghost replayed: { (book : Self) → state book ≡ replay step (opening book) (history book) };

    /// A call is posted at the place of a word.
    ghost within: { (s : State) (call : Self.Call) (at : ℕ) → posts_at s call ≡ Some at → at < length (board s) };

    /// A call that is not posted changes no word.
    ghost unposted: { (s : State) (call : Self.Call) → posts_at s call ≡ None → board (step s call).0 ≡ board s };

    /// A call that is posted changes only the word at its place.
    ghost posted: { (s : State) (call : Self.Call) (at : ℕ) → posts_at s call ≡ Some at
        → board (step s call).0 ≡ slice_set (board s) at (slice_index (board (step s call).0) at) };
}
