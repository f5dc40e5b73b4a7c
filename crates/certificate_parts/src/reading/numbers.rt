//! Reading the bound, weights, and numbers that have to be given ones.

ghost use Rattle.std.specs.Prelude.{◌≡◌, ◌<◌, Err, IfErr, IfOk, None, Ok, Some, OnOk, nat_eq};
ghost use Rattle.customer_sets.specs.CustSet.{has};
ghost use Rattle.certificate_parts.specs.Ranges.{IsWeight};
ghost use Rattle.certificate_parts.specs.Reading.{weight_at, node_where, bound_at};
ghost use Rattle.ev_text.specs.declared.TextFault.TheVariants.{TooLarge};

use crate::ranges::{GREATEST_BOUND, GREATEST_WEIGHT};
use crate::reading::nodes::GREATEST_NUMBER;
use ev_text::{Scan, TextFault};

/// Takes the line of the bound.
pub fn take_bound(scan: &mut Scan<'_>) -> Result<Option<u128>, TextFault>
    ensures ok { IfOk result (λ bound. bound_at scan.old ≡ Ok (bound, scan.new)) }
    ensures fault { IfErr result (λ fault. bound_at scan.old ≡ Err fault) }
{
    scan.word(b"bound ")?;
    if scan.choose(b"none\n")? {
        return Ok(None);
    }
    let bound = scan.whole(GREATEST_BOUND)?;
    scan.word(b"\n")?;
    Ok(Some(bound))
}

/// Takes a number from 1 to the greatest weight.
pub fn take_weight(scan: &mut Scan<'_>) -> Result<u64, TextFault>
    ensures ok { IfOk result (λ weight. weight_at scan.old ≡ Ok (weight, scan.new)) }
    ensures fits { IfOk result (λ weight. IsWeight weight) }
    ensures fault { IfErr result (λ fault. weight_at scan.old ≡ Err fault) }
{
    let at = scan.place();
    let weight = scan.whole(u128::from(GREATEST_WEIGHT))? as u64;
    if weight >= 1 {
        Ok(weight)
    } else {
        Err(TextFault::TooLarge { at })
    }
}

/// Takes a number that has to be a given one.
pub fn take_own(scan: &mut Scan<'_>, own: u64) -> Result<(), TextFault>
    ensures ok { OnOk result (node_where (λ n. nat_eq n own) scan.old ≡ Ok (own, scan.new)) }
    ensures fault { IfErr result (λ fault.
        node_where (λ n. nat_eq n own) scan.old ≡ Err fault) }
{
    let at = scan.place();
    let number = scan.whole(GREATEST_NUMBER)?;
    if number == u128::from(own) {
        Ok(())
    } else {
        Err(TextFault::TooLarge { at })
    }
}
