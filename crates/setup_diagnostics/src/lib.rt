#![tactic(auto)]
//! A setup document as a reader sees it: its places, the explanation of its fault, its line.
//!
//! [`explain`] explains in plain words why a document is refused: the place of the fault, the name of the
//! object there, the member at fault, and the reason. [`compact_document`] writes a document as the one line that a
//! run and a conversation read. [`json_schema`] writes the JSON schema of a document, from the table of its
//! members. A [`Line`] also serves other explanations. [`explain_saved`] explains why a saved state is refused.
//!
//! The modules:
//! - `line`: a line that never gets a line feed;
//! - `places`: writes places; `kinds`: writes kinds and values;
//! - `shapes`, `names`, `ranges`, `counts` and `cycle`: write the faults of each sort;
//! - `json_faults`: writes what stops the reading of a document that isn't JSON;
//! - `explanation`: combines them;
//! - `saved_explanation` and `saved_shapes`: the same for a saved state;
//! - `document_line`: writes the line of a document; `laws`: a law about the numbers in it;
//! - `schema`: writes the schema; `layout`: gives JSON a layout.

mod counts;
mod cycle;
mod document_line;
mod explanation;
mod json_faults;
mod kinds;
pub mod laws;
mod layout;
mod line;
mod names;
mod places;
mod ranges;
mod saved_explanation;
mod saved_shapes;
mod schema;
mod shapes;

pub use document_line::compact_document;
pub use explanation::{Document, explain};
pub use line::{Line, Pushed};
pub use saved_explanation::explain_saved;
pub use schema::json_schema;
