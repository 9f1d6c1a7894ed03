//! Ternary tables.

mod agreeing;
mod covers;
mod halved;
mod removing;
mod small;
mod steps;
