ghost use Rattle.std.specs.Prelude.{◌≡◌, ◌<◌, ◌≤◌, ◌↔◌, length, IfOk, IsErrOf, IsSome, IfSome};
ghost use Rattle.bus_types.specs.declared.limits.TheConstants.{MAX_PAYLOAD};

use crate::fault::NoMemory;
use crate::limits::MAX_PAYLOAD;
use smallvec::SmallVec;
use std::alloc::Global;
use std::marker::Model;

/// Why bytes were no payload.
#[derive(Clone, Copy, Debug, PartialEq, Eq)]
pub enum PayloadFault {
    /// There are more than [`MAX_PAYLOAD`] bytes.
    TooLong,
    /// Memory ran out.
    NoMemory,
}

/// How many bytes lie in a payload itself, without an allocation.
const INLINE: usize = 24;

/// The bytes of a row, at most [`MAX_PAYLOAD`] of them. Up to 24 lie in the payload itself, so that a short one takes no
/// memory of its own. Contracts see the list of the bytes.
#[derive(Debug, Drop)]
pub struct Payload {
    bytes: SmallVec<u8, INLINE>,
}

impl Model for Payload {
    ghost use Rattle.std.specs.Prelude.{ℕ, ◌≤◌, List, length};
    ghost use Rattle.bus_types.specs.declared.limits.TheConstants.{MAX_PAYLOAD};

    ghost Value = { List ℕ };

    ghost view = { λ p. p.bytes.items };

    ghost invariant = { λ p. length p.bytes.items ≤ MAX_PAYLOAD };
}

impl Payload {
    /// A payload of these bytes. `TooLong` comes exactly above [`MAX_PAYLOAD`] bytes.
    pub fn new(alloc: Global, bytes: &[u8]) -> Result<Payload, PayloadFault>
        ensures ok { IfOk result (λ payload. payload ≡ bytes.now) }
        ensures too_long { IsErrOf result PayloadFault.TooLong ↔ (MAX_PAYLOAD < length bytes.now) }
    {
        if bytes.len() > MAX_PAYLOAD {
            return Err(PayloadFault::TooLong);
        }
        let Ok(bytes) = SmallVec::from_slice(alloc, bytes) else {
            return Err(PayloadFault::NoMemory);
        };
        Ok(Payload { bytes })
    }

    /// A payload of the bytes of this vector, which a long one keeps. `None` comes exactly above [`MAX_PAYLOAD`] bytes.
    pub fn from_vec(bytes: Vec<u8>) -> Option<Payload>
        ensures short { IsSome result ↔ (length bytes.items ≤ MAX_PAYLOAD) }
        ensures value { IfSome result (λ payload. payload ≡ bytes.items) }
    {
        if bytes.len() > MAX_PAYLOAD {
            return None;
        }
        Some(Payload {
            bytes: SmallVec::from_vec(bytes),
        })
    }

    /// The bytes.
    pub fn bytes(&self) -> &[u8]
        ensures value { result.now ≡ self.now }
        ensures short { length self.now ≤ MAX_PAYLOAD }
    {
        self.bytes.as_slice()
    }

    /// An equal payload.
    pub fn copy(&self, alloc: Global) -> Result<Payload, NoMemory>
        ensures { IfOk result (λ payload. payload ≡ self.now) }
    {
        Ok(Payload {
            bytes: SmallVec::from_slice(alloc, self.bytes.as_slice())?,
        })
    }
}
