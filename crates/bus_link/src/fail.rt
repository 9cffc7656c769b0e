ghost use Rattle.std.specs.Prelude.{◌≡◌};
ghost use Rattle.bus_link.specs.Listed.{is_listed, same_fail};

/// A call of a link in memory that is to fail. The calls of each kind are numbered from 0.
#[derive(Clone, Copy, Debug, PartialEq, Eq)]
pub enum LinkFail {
    /// So many calls of `listen` were made before it.
    Listen(u64),
    /// So many calls of `connect` were made before it.
    Connect(u64),
    /// The accept of the connection with this place in the list of those to accept.
    Accept(u64),
}

impl LinkFail {
    // Whether it is the same call.
    fn is(self, other: LinkFail) -> bool
        ensures { result ≡ same_fail self other }
    {
        match (self, other) {
            (LinkFail::Listen(a), LinkFail::Listen(b)) => a == b,
            (LinkFail::Connect(a), LinkFail::Connect(b)) => a == b,
            (LinkFail::Accept(a), LinkFail::Accept(b)) => a == b,
            _ => false,
        }
    }
}

/// Whether a call is to fail.
pub(crate) fn is_listed(fails: &[LinkFail], call: LinkFail) -> bool
    ensures { result ≡ is_listed fails.now call }
{
    fails.iter().any(|fail| fail.is(call))
}
