//! The tests of diagrams and of what is made of them.

mod building;
mod joints;
mod nodes;
mod orders;
mod prefix_lists;
mod stores;
