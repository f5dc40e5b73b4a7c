//! Reading the text of a near proof.

ghost use Rattle.std.specs.Prelude.{◌≡◌, ◌≢◌, ◌≤◌, Err, IfErr, IfOk, IfSome, Ok, length};
ghost use Rattle.instance_reader.specs.Instance.{customer_nodes, most_customers};
ghost use Rattle.certificate_parts.specs.Limits.{greatest_bound, most_items};
ghost use Rattle.certificate_parts.specs.Ranges.{customer_count};
ghost use Rattle.certificate_parts.specs.Refusals.{or_refused};
ghost use Rattle.certificate_parts.specs.declared.cert_text.CertText.TheVariants.{Memory};
ghost use Rattle.near_proof.specs.Ranges.{NearFits, tight_count};
ghost use Rattle.near_proof.specs.declared.proof.NearProof.{NearProof};
ghost use Rattle.near_text.specs.NearIn.{IsKept, IsSpelledBy, has_other_version, near_in};
ghost use Rattle.near_text.specs.Reading.{lines_at, near_proof_at};
ghost use Rattle.near_text.specs.Written.{written_near};

mod labels;
mod prices;
mod sets;
mod tight;

use certificate_parts::{CertText, MOST_BYTES, begins_another, take_bound};
use ev_list::Listed;
use ev_text::Scan;
use instance_reader::Instance;
use labels::take_labels;
use near_proof::NearProof;
use prices::take_prices;
use sets::take_nears;
use std::alloc::Global;
use tight::take_tight;

/// The most labels.
const MOST_LABELS: u128 = u64::MAX as u128;

/// The near proof of a text, for an instance of at most 128 customers. What is read is in the
/// ranges of the instance, and its text is `bytes`; each such proof has one text, which `push_near`
/// writes, and no other has this text. Whether the proof is accepted is not judged here.
///
/// A text of more than 2^28 bytes is `TooLong`. `Version`: the first line is `evroute near `, a
/// number in its one spelling with at most 38 digits that isn't 1, and a line feed. Else the first
/// fault from the left: `Text` where the text is none, and `Range` where a number is out of range
/// or breaks a rule with numbers before it. A near set without its own customer is `Range` at its
/// last number, or at the `-` of a set without a member; where the text ends behind that number it
/// is `Text` there. `Memory`: memory was refused. A count is never allocated for ahead.
pub fn read_near(alloc: Global, inst: &Instance, bytes: &[u8]) -> Result<NearProof, CertText>
    requires { length (customer_nodes inst.now) ≤ most_customers }
    ensures ok { IfOk result (λ p. near_in inst.now bytes.now ≡ Ok (written_near inst.now p)) }
    ensures fits { IfOk result (NearFits inst.now) }
    ensures spelled { IfOk result (IsSpelledBy inst.now bytes.now) }
    ensures one { IfOk result (λ p. (q : NearProof) → IsSpelledBy inst.now bytes.now q → p ≡ q) }
    ensures fault { IfErr result (λ fault. fault ≢ CertText.Memory →
        near_in inst.now bytes.now ≡ Err fault) }
{
    // That the instance's network is one is told by its calls.
    let _nodes = inst.nodes();
    let len = bytes.len();
    if len > MOST_BYTES {
        return Err(CertText::TooLong { len });
    }
    if has_other_version(bytes) {
        return Err(CertText::Version);
    }
    let mut scan = Scan::new(bytes);
    let proof = take_proof(alloc, inst, &mut scan)?;
    scan.end()?;
    Ok(proof)
}

/// Whether the bytes begin with the first line of another version.
fn has_other_version(bytes: &[u8]) -> bool
    ensures { result ≡ has_other_version bytes.now }
{
    begins_another(b"evroute near ", 1, bytes)
}

/// Takes the text of a near proof.
fn take_proof(alloc: Global, inst: &Instance, scan: &mut Scan<'_>) -> Result<NearProof, CertText>
    requires { length (customer_nodes inst.now) ≤ most_customers }
    ensures ok { IfOk result (λ p. near_proof_at inst.now scan.old
        ≡ Ok (written_near inst.now p, scan.new)) }
    ensures fits { IfOk result (NearFits inst.now) }
    ensures kept { IfOk result IsKept }
    ensures fault { IfErr result (λ fault. fault ≢ CertText.Memory →
        or_refused (near_proof_at inst.now scan.old) ≡ Err fault) }
{
    scan.word(b"evroute near 1\n")?;
    let bound = take_bound(scan)?;
    scan.word(b"section ")?;
    let weight = scan.whole(1)? as u64;
    scan.word(b" ")?;
    let count = scan.whole(MOST_LABELS)?;
    scan.word(b"\n")?;
    take_lines(alloc, inst, scan, bound, weight, count)
}

/// Takes the lines behind that with the weight and the number of labels.
fn take_lines(
    alloc: Global,
    inst: &Instance,
    scan: &mut Scan<'_>,
    bound: Option<u128>,
    weight: u64,
    count: u128,
) -> Result<NearProof, CertText>
    requires few { length (customer_nodes inst.now) ≤ most_customers }
    requires bound { IfSome bound (λ b. b ≤ greatest_bound) }
    requires weight { weight ≤ 1 }
    requires count { count ≤ most_items }
    ensures ok { IfOk result (λ p. lines_at inst.now bound weight count scan.old
        ≡ Ok (written_near inst.now p, scan.new)) }
    ensures fits { IfOk result (NearFits inst.now) }
    ensures kept { IfOk result IsKept }
    ensures fault { IfErr result (λ fault. fault ≢ CertText.Memory →
        or_refused (lines_at inst.now bound weight count scan.old) ≡ Err fault) }
{
    let prices = take_prices(alloc, inst, scan)?;
    let sets = take_nears(alloc, inst, scan)?;
    let labels = take_labels(alloc, inst, scan, count)?;
    let tight = take_tight(alloc, scan, tight_count(inst, bound))?;
    Ok(NearProof {
        bound,
        weight,
        prices: Listed::from_vec(prices),
        sets: Listed::from_vec(sets),
        labels: Listed::from_vec(labels),
        tight: Listed::from_vec(tight),
    })
}

/// How many tight routes there are beside a bound.
fn tight_count(inst: &Instance, bound: Option<u128>) -> usize
    ensures { result ≡ tight_count (customer_count inst.now) bound }
{
    match bound {
        Some(_) => inst.customers().len(),
        None => 0,
    }
}
