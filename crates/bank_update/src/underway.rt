//! An update that isn't over.

/// An update that isn't over: its plan, how many writes are done, and whether it goes back.
#[derive(Drop)]
pub(crate) struct Underway<P> {
    pub(crate) plan: P,
    pub(crate) done: u64,
    pub(crate) back: bool,
}
