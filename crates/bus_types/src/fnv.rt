ghost use Rattle.std.specs.Prelude.{◌≡◌};
ghost use Rattle.bus_types.specs.Fnv.{fnv_step, fnv1a_of};

/// What the hash of no bytes is.
const OFFSET_BASIS: u64 = 14_695_981_039_346_656_037;

/// What the hash is multiplied by at each byte.
const PRIME: u64 = 1_099_511_628_211;

/// The FNV-1a hash of 64 bits of these bytes, of Fowler, Noll and Vo: the same on every machine and in every release.
pub fn fnv1a(bytes: &[u8]) -> u64
    ensures { result ≡ fnv1a_of bytes.now }
{
    let mut hash = OFFSET_BASIS;
    for byte in bytes {
        hash = with_byte(hash, *byte);
    }
    hash
}

// The hash with one more byte.
fn with_byte(hash: u64, byte: u8) -> u64
    ensures { result ≡ fnv_step hash byte }
{
    (hash ^ u64::from(byte)).wrapping_mul(PRIME)
}
