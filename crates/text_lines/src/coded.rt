//! Lines of bytes, in hexadecimal digits.

ghost use Rattle.std.specs.Prelude.{◌≡◌, ◌++◌, OnOk};
ghost use Rattle.hex.specs.Hex.{encode_upper};
ghost use Rattle.text_lines.specs.Written.{fed};

use std::alloc::{AllocError, Global};

/// Adds to a text the line that begins with `front`, and goes on with two upper-case digits for each of `bytes`.
pub fn push_coded(
    alloc: Global,
    text: &mut Vec<u8>,
    front: &[u8],
    bytes: &[u8],
) -> Result<(), AllocError>
    ensures line { OnOk result (text.new.items ≡ text.old.items ++ fed (front.now ++ encode_upper bytes.now)) }
{
    let digits = hex::encode_upper(alloc, bytes)?;
    text.extend_from_slice(front)?;
    text.extend_from_slice(digits.as_bytes())?;
    text.push(b'\n')?;
    Ok(())
}
