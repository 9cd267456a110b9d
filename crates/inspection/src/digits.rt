ghost use Rattle.std.specs.Prelude.{◌≡◌, IfOk, vec_items};
ghost use Rattle.std.specs.Option.{option_map};
ghost use Rattle.inspection.specs.Spelling.{byte, unhex, Hex};

use hex::FromHex;
use std::alloc::{AllocError, Global};

// The byte of two digits.
fn byte_value(high: u8, low: u8) -> Option<u8>
    ensures { result ≡ byte high low }
{
    let [byte] = <[u8; 1] as FromHex>::from_hex([high, low]).ok()?;
    Some(byte)
}

// The bytes that a line of hex digits spells, two digits a byte; none if it is no such line.
// A line of odd length takes no memory, and what is behind a wrong digit is not read.
pub fn from_hex(heap: Global, line: &[u8]) -> Result<Option<Vec<u8>>, AllocError>
    ensures value { IfOk result (λ o. option_map vec_items o ≡ unhex line.now) }
    ensures spelled { IfOk result (λ o. Hex line.now (option_map vec_items o)) }
{
    if line.len() % 2 != 0 {
        return Ok(None);
    }
    let mut bytes = Vec::with_capacity(heap, line.len() / 2)?;
    let mut rest = line;
    while let [high, low, tail @ ..] = rest {
        let Some(byte) = byte_value(*high, *low) else {
            return Ok(None);
        };
        bytes.push(byte)?;
        rest = tail;
    }
    Ok(Some(bytes))
}
