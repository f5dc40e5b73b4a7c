//! Writing numbers.

ghost use Rattle.std.specs.Prelude.{◌≡◌, ◌++◌, OnOk, decimal};

use std::alloc::AllocError;

/// Appends the spelling of a number. It takes no memory but the text's own.
pub(crate) fn push_number(text: &mut Vec<u8>, n: u64) -> Result<(), AllocError>
    ensures { OnOk result (text.new.items ≡ text.old.items ++ decimal n) }
{
    if n >= 10 {
        push_number(text, n / 10)?;
    }
    text.push(b'0' + (n % 10) as u8)?;
    Ok(())
}
