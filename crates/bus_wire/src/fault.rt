/// A reply isn't a lawful one for what was asked.
#[derive(Clone, Copy, Debug, PartialEq, Eq)]
pub struct BadReply {
    /// The place of the first byte of the first item that can't stand, or is missing or cut.
    pub place: u64,
}
