//! Writing prices.

ghost use Rattle.std.specs.Prelude.{◌≡◌, ◌<◌, Ok, codes, OnOk, ◌++◌, ◌+◌, ◌*◌};
ghost use Rattle.ev_text.specs.Texts.{marked_texts};
ghost use Rattle.std.specs.Fmt.{signed_decimal};
ghost use Rattle.certificate_parts.specs.Texts.{prices_text};

use ev_text::push_signed;
use std::alloc::{AllocError, Global};

/// Appends the line of prices.
pub fn write_prices(alloc: Global, text: &mut Vec<u8>, prices: &[i128]) -> Result<(), AllocError>
    ensures { OnOk result (text.new.items ≡ text.old.items ++ prices_text prices.now) }
{
    text.extend_from_slice(b"prices")?;
    write_each_price(alloc, text, prices)?;
    text.extend_from_slice(b"\n")
}

fn write_each_price(alloc: Global, text: &mut Vec<u8>, prices: &[i128]) -> Result<(), AllocError>
    ensures { OnOk result (text.new.items ≡ text.old.items
        ++ marked_texts (codes " ") signed_decimal prices.now) }
{
    for price in prices {
        write_price(alloc, text, price)?;
    }
    Ok(())
}

/// Appends a space and a price.
fn write_price(alloc: Global, text: &mut Vec<u8>, price: &i128) -> Result<(), AllocError>
    ensures { OnOk result (text.new.items ≡ text.old.items
        ++ codes " " ++ signed_decimal price.now) }
{
    text.extend_from_slice(b" ")?;
    push_signed(alloc, text, *price)
}
