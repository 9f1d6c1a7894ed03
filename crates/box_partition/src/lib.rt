//! The certificate that a list and a table decide alike.
//!
//! [`write_certificate`] writes the coarsest certificate, or says why there is none: a word that isn't a prefix in each
//! field, or the least header on which list and table differ.
//!
//! Rules and entries are numbered by their places, and the diagrams of "first rule" and of "first entry" are built in
//! one store. Both are walked together, each field by the fewest intervals on which both lead one way, and each pair of
//! leaves is a row. Since one function has one node, two neighbouring intervals always differ in their rows: the
//! certificate is the coarsest, and no other one is.
//!
//! ```text
//! match write_certificate(alloc, &list, &table, &mut out) {
//!     Ok(rows) => { /* the certificate was written, with so many rows */ }
//!     Err(CertError::Differs { header, left, right }) => { /* the first header that tells them apart */ }
//!     Err(error) => { /* no certificate, or only its front */ }
//! }
//! ```
//!
//! What is promised:
//!
//! - The certificate of [`write_certificate`] is good: a nested partition of the headers into boxes, in which each row
//!   names the first rule and the first entry of all its headers, or none, and both decide one name. And it is the
//!   coarsest: neighbouring groups of one partition always differ in their rows.
//! - It is refused, in this order, for a table with a word that isn't a prefix in each field, with the first such
//!   entry, and for a list and a table that differ by name, with the least header on which they do and both numbers.
//!   Nothing is written then. After a failed write, or where memory is out, a front of the certificate was written.
//! - [`laws`]: a list and a table that agree have one such certificate and no other, and the checker of
//!   `partition_check` finds its text valid, up to 268,435,456 bytes.
//!
//! `specs/Certificate.antt` says what the certificate is, and `specs/Outcome.antt` how a call ends.
//!
//! | Module | Holds |
//! |---|---|
//! | `certificate`, `error`, `stop` | the call, and how it may end |
//! | `standing`, `difference` | rules that stand for rules and entries, and where a list and a table first differ |
//! | `walk` | the walk over two diagrams that writes the rows |
//! | `laws` | laws of the certificate |
#![tactic(auto)]

mod certificate;
mod difference;
mod error;
pub mod laws;
mod standing;
mod stop;
mod walk;

pub use certificate::write_certificate;
pub use error::CertError;
