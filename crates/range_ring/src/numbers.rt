/// How many windows of a timeline were evicted and published, as one has seen it.
#[derive(Clone, Copy, Debug, PartialEq, Eq)]
pub struct Numbers {
    /// How many were evicted. It is the position of the oldest window that is left.
    pub evicted: u64,
    /// How many were published. It is the position of the next one.
    pub published: u64,
}
