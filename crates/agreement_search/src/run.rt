//! Runs of items in a list.

/// From one place of a list up to another.
#[derive(Clone, Copy)]
pub(crate) struct Run {
    pub from: usize,
    pub to: usize,
}

impl Run {
    /// How many items there are.
    #[inline]
    pub fn len(self) -> usize {
        self.to.saturating_sub(self.from)
    }

    /// The items; none where the list ends before.
    #[inline]
    pub fn of<T>(self, items: &[T]) -> &[T] {
        items.get(self.from..self.to).unwrap_or(&[])
    }
}
