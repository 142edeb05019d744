//! Laws of the definitions. Each is the contract of a function without parameters and code.

ghost use Rattle.std.specs.Prelude.{ℕ, ◌≡◌, ◌<◌, ◌≤◌, List, ◌∷◌, ◌++◌, [], Some, length, slice_index};
ghost use Rattle.ticket_steps.specs.declared.books.Entry.{Entry};
ghost use Rattle.ticket_steps.specs.History.{entry, replay, IsLegal};
ghost use Rattle.check_objects.specs.Configuration.{Configuration, IsSetup, object_count};
ghost use Rattle.check_states.specs.Board.{standing_of_word};
ghost use Rattle.check_states.specs.declared.state.Code.{Code};
ghost use Rattle.check_sched.specs.declared.call.Call.{Call};
ghost use Rattle.check_sched.specs.declared.call.Call.TheVariants as call;
ghost use Rattle.check_sched.specs.declared.call.Reply.{Reply};
ghost use Rattle.check_sched.specs.declared.call.Reply.TheVariants as reply;
ghost use Rattle.check_sched.specs.Reply.{IsReportReply, IsTakeReply};
ghost use Rattle.check_sched.specs.State.{IsState, State, opening, standing_at};
ghost use Rattle.check_sched.specs.Step.{step};
ghost use Rattle.check_book.specs.declared.book.Book.{Book};
ghost use Rattle.check_book.specs.Board.{book_board};
ghost use Rattle.check_book.specs.Books.{opening_of, sched_of, state_of};
ghost use Rattle.check_book.specs.BookState.{BookState, book_at, book_opening, book_step};
ghost use Rattle.check_book.specs.Resumed.{state_after_save_and_resume};

/// The history of a book is a history of its scheduler (`books`). So
/// [`runs_once`](check_sched::laws::runs_once) and [`flaps_by_history`](check_sched::laws::flaps_by_history)
/// hold of it.
pub fn histories()
    ensures books { (setup : Configuration) → (start room : ℕ)
        → (history : List (Entry Call Reply))
        → IsLegal book_step (book_opening setup start room) history
        → IsLegal step (opening setup start) history }
{}

/// The replies that can come in the history of a book, however the book was opened.
///
/// The reply to a take is an object that is taken or put off. Otherwise it says that no object is due, or
/// that the limit is reached. Or it is a refusal, for its moment or because no run is left (`take`).
///
/// The reply to the report of an object that was taken before is the object's standing. Otherwise it is a
/// refusal because the object isn't being checked, or is being checked under another run (`report`).
pub fn replies()
    ensures take { (opened : BookState) → (front : List (Entry Call Reply)) → (pass now : ℕ)
        → (answer : Reply)
        → IsLegal book_step opened (front ++ entry pass (call.Take now) answer ∷ [])
        → IsTakeReply answer }
    ensures report { (opened : BookState) → (front between : List (Entry Call Reply))
        → (taker pass now object run : ℕ) → (code : Code) → (answer : Reply)
        → IsLegal book_step opened
        (((front ++ entry taker (call.Take now) (reply.Taken object run) ∷ []) ++ between)
        ++ entry pass (call.Report object run code) answer ∷ [])
        → IsReportReply answer }
{}

/// The board of a book, after any calls since the book was opened, one after another. It has a word for each
/// object of the setup (`words`). [`decode`](check_states::decode) reads the word as the standing of the
/// object with that number (`read`). This holds from every state that a scheduler can be in (`words_from`,
/// `read_from`). Each book opens in such a state (`opened`), and so does a renewed book. A book is in such a
/// state at any time (`state`). Each book is over a setup like those of [`Setup`](check_objects::Setup)
/// (`books`), so its board has at most 4,096 words (`bounded`).
pub fn board_shows_standings()
    ensures words { (setup : Configuration) → (start room : ℕ)
        → (history : List (Entry Call Reply))
        → length (book_board (replay book_step (book_opening setup start room) history))
        ≡ object_count setup }
    ensures read { (setup : Configuration) → (start room : ℕ)
        → (history : List (Entry Call Reply)) → (object : ℕ)
        → IsSetup setup → object < object_count setup
        → standing_of_word (slice_index (book_board (replay book_step (book_opening setup start room) history)) object)
        ≡ Some (standing_at (replay book_step (book_opening setup start room) history).sched.standings object) }
    ensures words_from { (opened : BookState) → (history : List (Entry Call Reply))
        → IsState opened.sched
        → length (book_board (replay book_step opened history)) ≡ object_count opened.sched.setup }
    ensures read_from { (opened : BookState) → (history : List (Entry Call Reply)) → (object : ℕ)
        → IsState opened.sched → object < object_count opened.sched.setup
        → standing_of_word (slice_index (book_board (replay book_step opened history)) object)
        ≡ Some (standing_at (replay book_step opened history).sched.standings object) }
    ensures opened { (book : Book) → IsState (opening_of book).sched }
    ensures state { (book : Book) → IsState (sched_of book) }
    ensures books { (book : Book) → IsSetup (sched_of book).setup }
    ensures bounded { (book : Book) → length (book_board (state_of book)) ≤ 4096 }
{}

/// Histories continue from one book to the next. Let `earlier` be legal from a state, for example from a
/// scheduler's opening, and `later` from the state after `earlier`. Then `earlier` followed by `later` is
/// legal from the first state (`legal`) and leaves the same state (`state`). The same holds of the schedulers
/// of books, for all rooms (`book`, `book_state`). No call changes a book's setup (`setup`). So each law of
/// legal histories holds of the joined history of books that were [renewed](crate::Book::renew).
///
/// The same holds if a scheduler's state was saved and another book was [resumed](crate::Book::resume) from
/// it, over the same setup, with any start and room (`resumed`, `resumed_state`). The state is the same
/// except for the start, which no call reads.
pub fn generations()
    ensures legal { (opened : State) → (earlier later : List (Entry Call Reply))
        → IsLegal step opened earlier → IsLegal step (replay step opened earlier) later
        → IsLegal step opened (earlier ++ later) }
    ensures state { (opened : State) → (earlier later : List (Entry Call Reply))
        → replay step opened (earlier ++ later) ≡ replay step (replay step opened earlier) later }
    ensures book { (opened : State) → (room : ℕ) → (earlier later : List (Entry Call Reply))
        → IsLegal step opened earlier
        → IsLegal book_step (book_at (replay step opened earlier) room) later
        → IsLegal step opened (earlier ++ later) }
    ensures book_state { (opened : State) → (room : ℕ) → (earlier later : List (Entry Call Reply))
        → (replay book_step (book_at (replay step opened earlier) room) later).sched
        ≡ replay step opened (earlier ++ later) }
    ensures setup { (opened : BookState) → (later : List (Entry Call Reply))
        → (replay book_step opened later).sched.setup ≡ opened.sched.setup }
    ensures resumed { (opened : State) → (start room : ℕ) → (earlier later : List (Entry Call Reply))
        → IsState opened → IsLegal step opened earlier
        → IsLegal book_step (book_at (state_after_save_and_resume (replay step opened earlier) start) room) later
        → IsLegal step opened (earlier ++ later) }
    ensures resumed_state { (opened : State) → (start room : ℕ)
        → (earlier later : List (Entry Call Reply)) → IsState opened
        → (replay book_step (book_at (state_after_save_and_resume (replay step opened earlier) start) room) later).sched
        ≡ record (replay step opened (earlier ++ later)) { start = start } }
{}
