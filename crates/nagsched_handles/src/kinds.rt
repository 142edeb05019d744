//! The numbers of calls, replies and refusals of a saved state, named as in `nagsched.h`. Those of the refusals of a
//! setup are numbers of `LoadError`. Each list has its own hundred: replies from 0 on, refusals of calls from 100 on,
//! refusals of documents from 200 on, and those of saved states from 300 on.

/// A call that asks for the next check.
pub(crate) const CALL_TAKE: u32 = 0;

/// A call that reports the result of a check.
pub(crate) const CALL_REPORT: u32 = 1;

/// A call that abandons a check.
pub(crate) const CALL_ABANDON: u32 = 2;

/// A call that sets the time of a next check.
pub(crate) const CALL_RESCHEDULE: u32 = 3;

/// A call that switches active checks on or off.
pub(crate) const CALL_ENABLE: u32 = 4;

/// A call that asks for the status of an object.
pub(crate) const CALL_STATUS: u32 = 5;

/// The reply `Taken`.
pub(crate) const REPLY_TAKEN: u32 = 0;

/// The reply `PutOff`.
pub(crate) const REPLY_PUT_OFF: u32 = 1;

/// The reply `Idle`.
pub(crate) const REPLY_IDLE: u32 = 2;

/// The reply `AtLimit`.
pub(crate) const REPLY_AT_LIMIT: u32 = 3;

/// The reply `Standing`.
pub(crate) const REPLY_STANDING: u32 = 4;

/// The reply `Freed`.
pub(crate) const REPLY_FREED: u32 = 5;

/// The reply `Done`.
pub(crate) const REPLY_DONE: u32 = 6;

/// The refusal of a call that names no object of the setup.
pub(crate) const REPLY_UNKNOWN_OBJECT: u32 = 101;

/// The refusal of a call with a time past its limit.
pub(crate) const REPLY_TIME_RANGE: u32 = 102;

/// The refusal of a report or an abandon for an object that isn't being checked.
pub(crate) const REPLY_NOT_RUNNING: u32 = 103;

/// The refusal of a report or an abandon under another run's number.
pub(crate) const REPLY_WRONG_RUN: u32 = 104;

/// The refusal of a take after the last run number.
pub(crate) const REPLY_RUNS_SPENT: u32 = 105;

/// A saved state over the limit of its length.
pub(crate) const REFUSAL_SAVED_TOO_LONG: u32 = 301;

/// A saved state that isn't JSON.
pub(crate) const REFUSAL_SAVED_NOT_JSON: u32 = 302;

/// A saved state of another format.
pub(crate) const REFUSAL_SAVED_VERSION: u32 = 303;

/// A value of a saved state with the wrong shape.
pub(crate) const REFUSAL_SAVED_SHAPE: u32 = 304;

/// A saved state with too many objects.
pub(crate) const REFUSAL_SAVED_TOO_MANY: u32 = 305;

/// A name of a saved state that isn't allowed.
pub(crate) const REFUSAL_SAVED_BAD_NAME: u32 = 306;

/// A name that a saved state has twice.
pub(crate) const REFUSAL_SAVED_DUPLICATE: u32 = 307;

/// A number of a saved state that is out of its range.
pub(crate) const REFUSAL_SAVED_RANGE: u32 = 308;

/// A saved state that no scheduler can be in.
pub(crate) const REFUSAL_SAVED_UNLAWFUL: u32 = 309;

/// Out of memory while a saved state is read. The header doesn't have this number: C gets a status.
pub(crate) const REFUSAL_SAVED_MEMORY: u32 = 901;
