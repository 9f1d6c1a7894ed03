//! Rule lists, and what is made of them.

mod boxes;
mod diagrams;
mod telling;
mod texts;
