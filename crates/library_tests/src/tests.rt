//! The tests, by what they are about.

mod lists;
mod memories;
mod tables;
