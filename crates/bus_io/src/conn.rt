ghost use Rattle.std.specs.Prelude.{◌≡◌};

use crate::sink::Sink;
use crate::source::Source;

/// A connection: what its peer sends is read from it, and what is written to it goes to the peer. Its count of faults is
/// the sum of its reads' and its writes' faults.
pub trait Conn: Source + Sink {
    /// What stands beside its reads fixes what was written and how often a write failed: a read leaves both.
    ghost read_leaves: { (x y : Self) → Self.Source.beside x ≡ Self.Source.beside y → (Self.Sink.written x ≡ Self.Sink.written y)
        × (Self.Sink.room x ≡ Self.Sink.room y) × (Self.Sink.faults x ≡ Self.Sink.faults y) };

    /// What stands beside its writes fixes what was given, what is left and how often a read failed: a write leaves all.
    ghost write_leaves: { (x y : Self) → Self.Sink.beside x ≡ Self.Sink.beside y → (Self.Source.given x ≡ Self.Source.given y)
        × (Self.Source.left x ≡ Self.Source.left y) × (Self.Source.faults x ≡ Self.Source.faults y) };
}
