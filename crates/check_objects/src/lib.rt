#![tactic(auto)]
//! The setup that a scheduler works on: the hosts and services that are checked, their names and numbers, and
//! the links between them.
//!
//! A setup is read from one JSON document, completely or not at all. Each fault of a document has a name. The
//! first fault, in the order of [`LoadError`], is reported with its place. Reading takes time linear in the
//! document, except for the sort of the names. A name is looked up by its hash.
//!
//! Objects have numbers. Hosts come first, in the order of their names' bytes. Then come services, in the
//! order of their hosts' names and then of their descriptions.
//!
//! The modules:
//! - `document`: reads the tree;
//! - `object_index`: numbers the objects;
//! - `dependency_lists`: the dependencies of each object by number, and an order in which masters come first;
//! - `setup`: makes a setup from the tree;
//! - `cycles`: makes a fault from a cycle;
//! - `laws`: the properties of numbers and links.

mod cycles;
mod dependency_lists;
mod document;
pub mod laws;
mod object_index;
mod setup;

pub use document::read_document;
pub use setup::Setup;
pub use setup_model::{
    Count, Criteria, DefaultValue, DelayMethod, Dependency, End, EndFault, Fault, HOST_LETTERS,
    InterleaveFactor, JsonPosition, Kind, LoadError, MAX_ATTEMPTS, MAX_CONCURRENT_CHECKS,
    MAX_DELAY, MAX_DEPENDENCIES, MAX_DOCUMENT_BYTES, MAX_FACTOR, MAX_FLAP_THRESHOLD, MAX_INTERVAL,
    MAX_INTERVAL_LENGTH, MAX_NAME_BYTES, MAX_OBJECTS, MAX_PARENTS, MAX_SPREAD, Member, NameFault,
    Object, Options, Part, Place, RangeFault, SERVICE_LETTERS, ShapeFault, members,
};
pub use setup_reader::value_at;
