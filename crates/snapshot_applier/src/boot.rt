/// How far a bootstrap has come. Its log holds at least the windows with `base < SCN <= high`, for the SCN `high` of its
/// newest one, and its rows are the source's table after the windows up to `applied`.
#[derive(Clone, Copy, Debug, PartialEq, Eq)]
pub struct BootMark {
    /// The SCN behind which the log is sure to begin, at most `applied`.
    pub base: u64,
    /// The SCN up to which windows were applied.
    pub applied: u64,
}
