//! Laws without code: nothing is lost on the way to C, and the number of each kind.

ghost use Rattle.std.specs.Prelude.{◌≡◌, ◌≢◌};
ghost use Rattle.ticket_steps.specs.declared.books.Entry.{Entry};
ghost use Rattle.setup_model.specs.declared.error.LoadError.{LoadError};
ghost use Rattle.check_states.specs.declared.standing.Standing.{Standing};
ghost use Rattle.check_sched.specs.declared.call.Call.{Call};
ghost use Rattle.check_sched.specs.declared.call.Reply.{Reply};
ghost use Rattle.check_saved_state.specs.declared.fault.SavedFault.{SavedFault};
ghost use Rattle.nagsched_handles.specs.declared.kinds.TheConstants.{CALL_TAKE, CALL_REPORT, CALL_ABANDON, CALL_RESCHEDULE, CALL_ENABLE, CALL_STATUS};
ghost use Rattle.nagsched_handles.specs.declared.kinds.TheConstants.{REFUSAL_SAVED_TOO_LONG, REFUSAL_SAVED_NOT_JSON};
ghost use Rattle.nagsched_handles.specs.declared.kinds.TheConstants.{REFUSAL_SAVED_VERSION, REFUSAL_SAVED_SHAPE, REFUSAL_SAVED_TOO_MANY};
ghost use Rattle.nagsched_handles.specs.declared.kinds.TheConstants.{REFUSAL_SAVED_BAD_NAME};
ghost use Rattle.nagsched_handles.specs.declared.kinds.TheConstants.{REFUSAL_SAVED_DUPLICATE, REFUSAL_SAVED_RANGE, REFUSAL_SAVED_UNLAWFUL};
ghost use Rattle.nagsched_handles.specs.declared.kinds.TheConstants.{REFUSAL_SAVED_MEMORY};
ghost use Rattle.nagsched_handles.specs.SavedFaults.{c_fault};
ghost use Rattle.nagsched_handles.specs.Structs.{c_call, c_entry, c_refusal, c_reply, c_standing};

/// If two standings, calls, replies, entries or refusals have the same struct, they are equal.
pub fn structs_are_distinct()
    ensures standings { (a b : Standing) → c_standing a ≡ c_standing b → a ≡ b }
    ensures calls { (a b : Call) → c_call a ≡ c_call b → a ≡ b }
    ensures replies { (a b : Reply) → c_reply a ≡ c_reply b → a ≡ b }
    ensures entries { (a b : Entry Call Reply) → c_entry a ≡ c_entry b → a ≡ b }
    ensures refusals { (a b : LoadError) → c_refusal a ≡ c_refusal b → a ≡ b }
    ensures saved_faults { (a b : SavedFault) → c_fault a ≡ c_fault b → a ≡ b }
{}

/// No struct is both that of a document's refusal and that of a saved state's refusal.
pub fn refusal_structs_are_disjoint()
    ensures { (of_document : LoadError) → (of_saved : SavedFault)
        → c_refusal of_document ≢ c_fault of_saved }
{}

/// The number of each kind of call, as in the header.
pub fn numbers_of_calls()
    ensures take { CALL_TAKE ≡ 0 }
    ensures report { CALL_REPORT ≡ 1 }
    ensures abandon { CALL_ABANDON ≡ 2 }
    ensures reschedule { CALL_RESCHEDULE ≡ 3 }
    ensures enable { CALL_ENABLE ≡ 4 }
    ensures status { CALL_STATUS ≡ 5 }
{}

/// The number of each refusal of a saved state, as in the header. The header doesn't have the last number: out
/// of memory is a status for C.
pub fn numbers_of_refusals()
    ensures saved_too_long { REFUSAL_SAVED_TOO_LONG ≡ 301 }
    ensures saved_not_json { REFUSAL_SAVED_NOT_JSON ≡ 302 }
    ensures saved_version { REFUSAL_SAVED_VERSION ≡ 303 }
    ensures saved_shape { REFUSAL_SAVED_SHAPE ≡ 304 }
    ensures saved_too_many { REFUSAL_SAVED_TOO_MANY ≡ 305 }
    ensures saved_bad_name { REFUSAL_SAVED_BAD_NAME ≡ 306 }
    ensures saved_duplicate { REFUSAL_SAVED_DUPLICATE ≡ 307 }
    ensures saved_range { REFUSAL_SAVED_RANGE ≡ 308 }
    ensures saved_unlawful { REFUSAL_SAVED_UNLAWFUL ≡ 309 }
    ensures saved_memory { REFUSAL_SAVED_MEMORY ≡ 901 }
{}
