/// Why no bootstrap was opened. Log and keeper are handed back, and are as before.
#[derive(Clone, Copy, Debug, PartialEq, Eq)]
pub enum BootOpen {
    /// The keeper's stored text is no boot mark's.
    BadMark,
    /// The keeper's rows are ahead of the log.
    Ahead {
        /// The SCN up to which windows were applied.
        applied: u64,
        /// The SCN of the log's newest window.
        high: u64,
    },
    /// The log begins behind the SCN behind which it is to begin.
    Hole {
        /// The SCN behind which the log is to begin.
        base: u64,
        /// The SCN behind which it begins.
        floor: u64,
    },
    /// The log failed. Opening asks the log for nothing that can fail, so it never comes.
    LogFailed,
    /// The keeper failed. It comes only where its count of faults rose.
    StoreFailed,
    /// Memory ran out.
    NoMemory,
}

/// Why a reply of the relay was not taken whole.
#[derive(Clone, Copy, Debug, PartialEq, Eq)]
pub enum TakeLog {
    /// The bytes are no lawful reply, or their first window doesn't follow the log's newest one. Nothing changed.
    BadReply {
        /// The place of the first item that can't stand, or is missing or cut; or that of the first window's mark.
        place: u64,
    },
    /// The relay has evicted windows behind the log's newest one. Nothing changed.
    Gap {
        /// The SCN of the newest evicted window.
        floor: u64,
    },
    /// The log has no room for the next window. Those before it were appended.
    Full {
        /// The bytes of that window in full.
        need: u64,
    },
    /// The log failed. It comes only where its count of faults rose; the bootstrap is halted.
    LogFailed,
    /// An earlier call met a fault of the log or the keeper. Nothing changed.
    Halted,
    /// Memory ran out. Windows that were appended before are kept.
    NoMemory,
}
