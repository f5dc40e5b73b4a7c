//! Reading prices.

ghost use Rattle.std.specs.Prelude.{◌≡◌, ◌≢◌, ◌<◌, ◌≤◌, Err, IfErr, IfOk, Ok, length};
ghost use Rattle.std.specs.List.{All};
ghost use Rattle.certificate_parts.specs.Ranges.{customer_count};
ghost use Rattle.certificate_parts.specs.Refusals.{or_refused};
ghost use Rattle.certificate_parts.specs.declared.cert_text.CertText.TheVariants.{Memory};
ghost use Rattle.near_text.specs.Reading.{price_row, prices_at};

use certificate_parts::CertText;
use ev_text::Scan;
use instance_reader::Instance;
use std::alloc::Global;

/// The greatest price: 10^18.
const GREATEST_PRICE: u128 = 1_000_000_000_000_000_000;

/// Takes the line of prices, one for each customer.
pub(crate) fn take_prices(
    alloc: Global,
    inst: &Instance,
    scan: &mut Scan<'_>,
) -> Result<Vec<u64>, CertText>
    ensures ok { IfOk result (λ prices. prices_at inst.now scan.old
        ≡ Ok (prices.items, scan.new)) }
    ensures fault { IfErr result (λ fault. fault ≢ CertText.Memory →
        or_refused (prices_at inst.now scan.old) ≡ Err fault) }
{
    let count = inst.customers().len();
    if count == 0 {
        scan.word(b"prices\n")?;
        return Ok(Vec::new(alloc));
    }
    scan.word(b"prices ")?;
    take_each_price(alloc, scan, count)
}

/// Takes so many prices, parted by spaces, and the line feed.
fn take_each_price(alloc: Global, scan: &mut Scan<'_>, count: usize) -> Result<Vec<u64>, CertText>
    requires { 0 < count }
    ensures ok { IfOk result (λ prices. price_row count scan.old ≡ Ok (prices.items, scan.new)) }
    ensures fault { IfErr result (λ fault. fault ≢ CertText.Memory →
        or_refused (price_row count scan.old) ≡ Err fault) }
{
    let mut prices = Vec::new(alloc);
    let first = scan.whole(GREATEST_PRICE)? as u64;
    prices.push(first)?;
    for _ in 1..count {
        scan.word(b" ")?;
        let price = scan.whole(GREATEST_PRICE)? as u64;
        prices.push(price)?;
    }
    scan.word(b"\n")?;
    Ok(prices)
}
