ghost use Rattle.std.specs.Prelude.{◌≡◌, ◌++◌, OnErr, OnOk, decimal};
ghost use Rattle.std.specs.Fmt.{signed_decimal};

use std::alloc::{AllocError, Global};

/// Appends the spelling of a number to `out`. After an `Err` the bytes of `out` are as before.
pub fn push_whole(alloc: Global, out: &mut Vec<u8>, n: u128) -> Result<(), AllocError>
    ensures ok { OnOk result (out.new.items ≡ out.old.items ++ decimal n) }
    ensures err { OnErr result (out.new.items ≡ out.old.items) }
{
    let digits = n.to_string(alloc)?;
    out.extend_from_slice(digits.as_bytes())
}

/// Appends the spelling of a signed number to `out`. After an `Err` the bytes of `out` are as
/// before.
pub fn push_signed(alloc: Global, out: &mut Vec<u8>, n: i128) -> Result<(), AllocError>
    ensures ok { OnOk result (out.new.items ≡ out.old.items ++ signed_decimal n) }
    ensures err { OnErr result (out.new.items ≡ out.old.items) }
{
    let text = n.to_string(alloc)?;
    out.extend_from_slice(text.as_bytes())
}
