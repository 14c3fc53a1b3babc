// What a pass does with marks.

/// What a pass over a job's pages does with the marks of the bank's log.
#[derive(Clone, Copy, Debug, PartialEq, Eq)]
pub enum Marks {
    /// Leaves the groups that are marked, and marks those that it wrote.
    Heed,
    /// Leaves no group, and marks none.
    Ignore,
    /// Uses no job.
    Without,
}
