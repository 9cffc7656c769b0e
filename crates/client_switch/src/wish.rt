/// What a client wants beside what its mark says. It is lost in a crash.
#[derive(Clone, Copy, Debug, PartialEq, Eq)]
pub enum Wish {
    /// Nothing: it goes on by its mark.
    Nothing,
    /// To learn where to begin from its SCN.
    Start,
    /// To begin from nothing, since a log is gone.
    Fresh,
}
