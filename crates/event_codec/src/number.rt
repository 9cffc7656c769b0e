ghost use Rattle.std.specs.Prelude.{◌≡◌, ◌+◌, ◌≤◌, length, drop};
ghost use Rattle.std.specs.Int.{w16, w32, w64};
ghost use Rattle.event_codec.specs.Reading.{number_at};

// The number of two bytes at a place.
#[tactic(auto, using(crate::proofs::Numbers::numbers))]
pub(crate) fn u16_at(bytes: &[u8], place: usize) -> u16
    requires { place + 2 ≤ length bytes.now }
    ensures { result ≡ number_at w16 place bytes.now }
{
    u16::from_be_bytes([bytes[place], bytes[place + 1]])
}

// The number of four bytes at a place.
#[tactic(auto, using(crate::proofs::Numbers::numbers))]
pub(crate) fn u32_at(bytes: &[u8], place: usize) -> u32
    requires { place + 4 ≤ length bytes.now }
    ensures { result ≡ number_at w32 place bytes.now }
{
    u32::from_be_bytes([
        bytes[place],
        bytes[place + 1],
        bytes[place + 2],
        bytes[place + 3],
    ])
}

// The number of eight bytes at a place.
#[tactic(auto, using(crate::proofs::Numbers::numbers))]
pub(crate) fn u64_at(bytes: &[u8], place: usize) -> u64
    requires { place + 8 ≤ length bytes.now }
    ensures { result ≡ number_at w64 place bytes.now }
{
    u64::from_be_bytes([
        bytes[place],
        bytes[place + 1],
        bytes[place + 2],
        bytes[place + 3],
        bytes[place + 4],
        bytes[place + 5],
        bytes[place + 6],
        bytes[place + 7],
    ])
}

// The bytes from a place on: none from the end on.
pub(crate) fn tail(bytes: &[u8], place: usize) -> &[u8]
    ensures { result.now ≡ drop place bytes.now }
{
    bytes.get(place..).unwrap_or(&[])
}
