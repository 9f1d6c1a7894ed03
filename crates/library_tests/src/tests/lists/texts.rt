//! The tests of texts, files and covers.

mod covers;
mod proofs;
mod real_files;
mod rows;
mod written_lists;
