//! Reading prices.

ghost use Rattle.std.specs.Prelude.{◌≡◌, ◌≢◌, ◌<◌, Err, IfErr, IfOk, Ok};
ghost use Rattle.certificate_parts.specs.Refusals.{or_refused};
ghost use Rattle.certificate_parts.specs.declared.cert_text.CertText.TheVariants.{Memory};
ghost use Rattle.certificate_parts.specs.Reading.{price_row, prices_at};

use crate::cert_text::CertText;
use crate::ranges::GREATEST_PRICE;
use ev_text::Scan;
use instance_reader::Instance;
use std::alloc::Global;

/// Takes the line of prices, one for each customer.
pub fn take_prices(
    alloc: Global,
    inst: &Instance,
    scan: &mut Scan<'_>,
) -> Result<Vec<i128>, CertText>
    ensures ok { IfOk result (λ prices. prices_at inst.now scan.old
        ≡ Ok (prices.items, scan.new)) }
    ensures fault { IfErr result (λ fault. fault ≢ CertText.Memory →
        or_refused (prices_at inst.now scan.old) ≡ Err fault) }
{
    let count = inst.customers().len();
    if count == 0 {
        scan.word(b"prices\n")?;
        return Ok(Vec::new(alloc));
    }
    scan.word(b"prices ")?;
    take_each_price(alloc, scan, count)
}

/// Takes so many prices, parted by spaces, and the line feed.
fn take_each_price(alloc: Global, scan: &mut Scan<'_>, count: usize) -> Result<Vec<i128>, CertText>
    requires { 0 < count }
    ensures ok { IfOk result (λ prices. price_row count scan.old ≡ Ok (prices.items, scan.new)) }
    ensures fault { IfErr result (λ fault. fault ≢ CertText.Memory →
        or_refused (price_row count scan.old) ≡ Err fault) }
{
    let mut prices = Vec::new(alloc);
    let first = scan.signed(GREATEST_PRICE)?;
    prices.push(first)?;
    for _ in 1..count {
        scan.word(b" ")?;
        let price = scan.signed(GREATEST_PRICE)?;
        prices.push(price)?;
    }
    scan.word(b"\n")?;
    Ok(prices)
}
