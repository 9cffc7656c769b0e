ghost use Rattle.std.specs.Prelude.{◌≡◌, ◌<◌, ◌≤◌, ◌%◌, true, length, Some, IfOk, Ok};
ghost use Rattle.std.specs.List.{list_all};
ghost use Rattle.hex.specs.Hex.{decode_of, hex_digit_value};
ghost use Rattle.trace_script.specs.Words.{is_lower_hex};
ghost use Rattle.trace_script.specs.declared.digits.TheConstants.{MOST_SHORT_DIGITS};

use arrayvec::ArrayVec;
use bus_types::NoMemory;
use std::alloc::Global;

/// The most bytes that are decoded without an allocation.
const MOST_SHORT: usize = 24;

/// The most digits that spell so few bytes.
pub(crate) const MOST_SHORT_DIGITS: usize = 48;

/// The bytes that lower-case hex digits spell, two digits a byte.
pub(crate) fn decode(alloc: Global, digits: &[u8]) -> Result<Vec<u8>, NoMemory>
    requires lower { list_all is_lower_hex digits.now ≡ true }
    requires even { length digits.now % 2 ≡ 0 }
    ensures { IfOk result (λ bytes. decode_of digits.now ≡ Ok bytes.items) }
{
    let mut bytes = Vec::with_capacity(alloc, digits.len() / 2)?;
    let mut rest = digits;
    'pairs: while let [high, low, after @ ..] = rest {
        bytes.push(value_of(*high) * 16 + value_of(*low))?;
        rest = after;
    }
    Ok(bytes)
}

/// The few bytes that lower-case hex digits spell, two digits a byte.
pub(crate) fn decode_short(digits: &[u8]) -> ArrayVec<u8, MOST_SHORT>
    requires lower { list_all is_lower_hex digits.now ≡ true }
    requires even { length digits.now % 2 ≡ 0 }
    requires short { length digits.now ≤ MOST_SHORT_DIGITS }
    ensures { decode_of digits.now ≡ Ok result.items }
{
    let mut bytes = ArrayVec::new();
    let mut rest = digits;
    'pairs: while let [high, low, after @ ..] = rest {
        bytes.push(value_of(*high) * 16 + value_of(*low));
        rest = after;
    }
    bytes
}

// The value of a lower-case hex digit. It has no branch, since digits follow no pattern that a processor could guess.
fn value_of(digit: u8) -> u8
    requires { is_lower_hex digit ≡ true }
    ensures value { hex_digit_value digit ≡ Some result }
    ensures small { result < 16 }
{
    digit % 16 + digit / 64 * 9
}
