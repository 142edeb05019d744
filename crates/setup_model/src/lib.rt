#![tactic(auto)]
//! The contents of a setup document: its options, and its hosts, services and dependencies as they are written. The
//! crate also has the document's faults and their places.
//!
//! A parsed setup is in the document's order and uses its names. Nothing in it is verified. This crate also has:
//! - the values that a setup stores: [`Options`], [`Object`], [`Criteria`] and [`Dependency`];
//! - `limits`: the limits of a setup, which `laws` states as numbers;
//! - `members`: the table of the members that a document can have.

mod dependency;
mod error;
mod fault;
pub mod laws;
mod limits;
mod member;
pub mod members;
mod name;
pub mod options;
mod parsed_setup;
mod place;

pub use dependency::{Criteria, Dependency, HOST_LETTERS, SERVICE_LETTERS};
pub use error::LoadError;
pub use fault::{Count, End, EndFault, Fault, JsonPosition, NameFault, RangeFault, ShapeFault};
pub use limits::{
    MAX_ATTEMPTS, MAX_CONCURRENT_CHECKS, MAX_DELAY, MAX_DEPENDENCIES, MAX_DOCUMENT_BYTES,
    MAX_FACTOR, MAX_FLAP_THRESHOLD, MAX_INTERVAL, MAX_INTERVAL_LENGTH, MAX_NAME_BYTES, MAX_OBJECTS,
    MAX_PARENTS, MAX_SPREAD,
};
pub use member::{DefaultValue, Kind, Member};
pub use name::{full_name, is_name, name_fault};
pub use options::{DelayMethod, InterleaveFactor, Options};
pub use parsed_setup::{Object, ParsedDependency, ParsedHost, ParsedService, ParsedSetup, text};
pub use place::{Part, Place};
