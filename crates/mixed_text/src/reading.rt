//! Reading the text of a proof for several kinds of vehicles.

ghost use Rattle.std.specs.Prelude.{◌≡◌, ◌≢◌, ◌≤◌, Err, IfErr, IfOk, IfSome, Ok, length};
ghost use Rattle.std.specs.List.{All};
ghost use Rattle.ev_model.specs.Network.{IsNetwork};
ghost use Rattle.instance_reader.specs.Instance.{customer_nodes, most_customers};
ghost use Rattle.certificate_parts.specs.Limits.{greatest_bound, greatest_weight};
ghost use Rattle.certificate_parts.specs.Ranges.{customer_count};
ghost use Rattle.certificate_parts.specs.Refusals.{or_refused};
ghost use Rattle.certificate_parts.specs.declared.cert_text.CertText.TheVariants.{Memory};
ghost use Rattle.mixed_model.specs.Kinds.{AreKinds, first_of};
ghost use Rattle.mixed_model.specs.Ranges.{MixedFits, RootFits};
ghost use Rattle.mixed_model.specs.declared.proof.MixedProof.{MixedProof};
ghost use Rattle.mixed_text.specs.MixedIn.{HaveSets, IsSpelledBy, has_other_version, mixed_in};
ghost use Rattle.mixed_text.specs.Reading.{lines_at, mixed_body_at, mixed_proof_at};
ghost use Rattle.mixed_text.specs.Written.{written_mixed, written_mixed_root};

mod kinds;
mod root;

use certificate_parts::{
    CertText, GREATEST_WEIGHT, MOST_BYTES, begins_another, take_bound, take_own, take_prices,
};
use ev_list::Listed;
use ev_text::Scan;
use instance_reader::Instance;
pub(crate) use kinds::first_kind;
use kinds::take_kinds;
use mixed_model::{MixedProof, MixedRoot};
use root::take_root;
use std::alloc::Global;

/// The greatest weight, as numbers are read.
const MOST_WEIGHT: u128 = GREATEST_WEIGHT as u128;

/// The proof of a text, for kinds of vehicles that agree, of at most 128 customers. What is read is
/// in the ranges of the kinds, and its text is `bytes`; each such proof has one text, which
/// `push_mixed` writes, and no other has this text. Whether the proof is accepted is not judged
/// here.
///
/// A text of more than 2^28 bytes is `TooLong`. `Version`: the first line is `evroute mixed `, a
/// number in its one spelling with at most 38 digits that isn't 1, and a line feed. Else the first
/// fault from the left: `Text` where the text is none, and `Range` where a number is out of range
/// or breaks a rule with numbers before it: so a number of kinds that isn't that of `kinds`, a kind
/// that there isn't, and the block of a kind in the place of another are `Range` at that number.
/// `Memory`: memory was refused. A count is never allocated for ahead.
pub fn read_mixed(alloc: Global, kinds: &[Instance], bytes: &[u8]) -> Result<MixedProof, CertText>
    requires kinds { AreKinds kinds.now }
    requires few { length (customer_nodes (first_of kinds.now)) ≤ most_customers }
    ensures ok { IfOk result (λ p. mixed_in kinds.now bytes.now
        ≡ Ok (written_mixed kinds.now p)) }
    ensures fits { IfOk result (MixedFits kinds.now) }
    ensures spelled { IfOk result (IsSpelledBy kinds.now bytes.now) }
    ensures one { IfOk result (λ p. (q : MixedProof) →
        IsSpelledBy kinds.now bytes.now q → p ≡ q) }
    ensures fault { IfErr result (λ fault. fault ≢ CertText.Memory →
        mixed_in kinds.now bytes.now ≡ Err fault) }
{
    let len = bytes.len();
    if len > MOST_BYTES {
        return Err(CertText::TooLong { len });
    }
    if has_other_version(bytes) {
        return Err(CertText::Version);
    }
    let mut scan = Scan::new(bytes);
    let proof = take_proof(alloc, kinds, &mut scan)?;
    scan.end()?;
    Ok(proof)
}

/// Whether the bytes begin with the first line of another version.
fn has_other_version(bytes: &[u8]) -> bool
    ensures { result ≡ has_other_version bytes.now }
{
    begins_another(b"evroute mixed ", 1, bytes)
}

/// Takes the text of a proof.
fn take_proof(
    alloc: Global,
    kinds: &[Instance],
    scan: &mut Scan<'_>,
) -> Result<MixedProof, CertText>
    requires kinds { AreKinds kinds.now }
    requires few { length (customer_nodes (first_of kinds.now)) ≤ most_customers }
    ensures ok { IfOk result (λ p. mixed_proof_at kinds.now scan.old
        ≡ Ok (written_mixed kinds.now p, scan.new)) }
    ensures fits { IfOk result (MixedFits kinds.now) }
    ensures kept { IfOk result (λ p. HaveSets p.labels) }
    ensures networks { IfOk result (λ p. All IsNetwork kinds.now) }
    ensures fault { IfErr result (λ fault. fault ≢ CertText.Memory →
        or_refused (mixed_proof_at kinds.now scan.old) ≡ Err fault) }
{
    scan.word(b"evroute mixed 1\n")?;
    scan.word(b"kinds ")?;
    take_own(scan, kinds.len() as u64)?;
    scan.word(b"\n")?;
    take_body(alloc, kinds, scan)
}

/// Takes the lines behind that with the number of kinds.
fn take_body(alloc: Global, kinds: &[Instance], scan: &mut Scan<'_>) -> Result<MixedProof, CertText>
    requires kinds { AreKinds kinds.now }
    requires few { length (customer_nodes (first_of kinds.now)) ≤ most_customers }
    ensures ok { IfOk result (λ p. mixed_body_at kinds.now scan.old
        ≡ Ok (written_mixed kinds.now p, scan.new)) }
    ensures fits { IfOk result (MixedFits kinds.now) }
    ensures kept { IfOk result (λ p. HaveSets p.labels) }
    ensures networks { IfOk result (λ p. All IsNetwork kinds.now) }
    ensures fault { IfErr result (λ fault. fault ≢ CertText.Memory →
        or_refused (mixed_body_at kinds.now scan.old) ≡ Err fault) }
{
    let bound = take_bound(scan)?;
    let root = take_root(alloc, first_kind(kinds), kinds.len(), scan)?;
    scan.word(b"section ")?;
    let weight = scan.whole(MOST_WEIGHT)? as u64;
    scan.word(b"\n")?;
    take_lines(alloc, kinds, scan, bound, root, weight)
}

/// Takes the lines behind that with the weight: the prices, and the labels of each kind.
fn take_lines(
    alloc: Global,
    kinds: &[Instance],
    scan: &mut Scan<'_>,
    bound: Option<u128>,
    root: MixedRoot,
    weight: u64,
) -> Result<MixedProof, CertText>
    requires kinds { AreKinds kinds.now }
    requires few { length (customer_nodes (first_of kinds.now)) ≤ most_customers }
    requires bound { IfSome bound (λ b. b ≤ greatest_bound) }
    requires root { RootFits (length kinds.now) (customer_count (first_of kinds.now)) root }
    requires weight { weight ≤ greatest_weight }
    ensures ok { IfOk result (λ p.
        lines_at kinds.now bound (written_mixed_root (first_of kinds.now) root) weight scan.old
        ≡ Ok (written_mixed kinds.now p, scan.new)) }
    ensures fits { IfOk result (MixedFits kinds.now) }
    ensures kept { IfOk result (λ p. HaveSets p.labels) }
    ensures networks { IfOk result (λ p. All IsNetwork kinds.now) }
    ensures fault { IfErr result (λ fault. fault ≢ CertText.Memory → or_refused
        (lines_at kinds.now bound (written_mixed_root (first_of kinds.now) root) weight scan.old)
        ≡ Err fault) }
{
    let prices = take_prices(alloc, first_kind(kinds), scan)?;
    let labels = take_kinds(alloc, kinds, scan)?;
    Ok(MixedProof {
        bound,
        weight,
        prices: Listed::from_vec(prices),
        labels: Listed::from_vec(labels),
        root,
    })
}
