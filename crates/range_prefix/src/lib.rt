//! The shortest cover of values of a field by prefixes.
//!
//! Ternary words can't hold an interval of a field, only prefixes. [`cover_all`] gives the fewest prefixes that hold
//! exactly the values of some spans, in rising order, and [`cover_all_into`] puts them into a vector that is there;
//! [`count_all`] says how many these are, and takes no memory. [`cover`] and [`cover_count`] are the same for one span.
//!
//! ```text
//! let prefixes = cover_all(alloc, &spans, 16)?;
//! let count = count_all(&spans, 16); // the length of prefixes
//! ```
//!
//! What is promised:
//!
//! - [`cover_all`]: the prefixes are disjoint, rise, and hold exactly the values of the spans, and no list of prefixes
//!   that holds exactly them, disjoint or not, is shorter. [`laws`] has this for any set of values.
//! - [`cover_all_into`] puts the same into the vector, or a front of it and says that it ran out of memory;
//!   [`count_all`] is its length, and at most the greater of 1 and `2 * width - 2` for each span.
//!
//! All begin with the least block of the field that holds all values of the spans: a block that the spans miss needs no
//! prefix, a block inside a span is one prefix, and any other block is halved and needs what its halves need. So a span
//! that is one prefix needs no halving.
//!
//! Argued, and not proved: at most `2 * width` blocks are halved for each span. A span has some value of such a block
//! and lacks another, so an end of it lies in the block, and of the blocks of one size at most two are halved for it. A
//! block that is halved passes the spans on that don't end before it, so each span is dropped once for each size at the
//! most. All turns together are of the order of the spans times the width.
//!
//! | Module | Holds |
//! |---|---|
//! | `covering`, `counting` | covers, and how many prefixes they have |
//! | `enclosing`, `halves`, `share`, `reaching` | blocks, their halves, and what spans have of them |
//! | `laws` | no cover is shorter |
#![tactic(auto)]

mod counting;
mod covering;
mod enclosing;
mod halves;
pub mod laws;
mod reaching;
mod share;

pub use counting::{count_all, cover_count};
pub use covering::{cover, cover_all, cover_all_into};
