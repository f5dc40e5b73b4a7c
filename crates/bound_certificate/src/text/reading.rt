//! Reading the text of a certificate.

ghost use Rattle.std.specs.Prelude.{◌≡◌, ◌≢◌, ◌≤◌, Err, IfErr, IfOk, OnOk, Ok, length};
ghost use Rattle.std.specs.List.{All};
ghost use Rattle.instance_reader.specs.Instance.{customer_nodes, most_customers};
ghost use Rattle.certificate_parts.specs.Refusals.{or_refused};
ghost use Rattle.bound_certificate.specs.CertificateIn.{certificate_in, has_other_version, own_version};
ghost use Rattle.bound_certificate.specs.Kept.{AreSame, IsKept, IsSpelledBy};
ghost use Rattle.bound_certificate.specs.Ranges.{Fits};
ghost use Rattle.bound_certificate.specs.Reading.{body_at, certificate_at};
ghost use Rattle.bound_certificate.specs.Written.{written};
ghost use Rattle.bound_certificate.specs.declared.certificate.Certificate.{Certificate};
ghost use Rattle.certificate_parts.specs.declared.cert_text.CertText.TheVariants.{Memory};

mod pairs;
mod root;
mod section;
mod tree;

use crate::certificate::Certificate;
use crate::text::writing::is_first_version;
use certificate_parts::{CertText, MOST_BYTES, begins_another, take_bound, take_own};
use ev_list::Listed;
use ev_text::{Scan, TextFault};
use instance_reader::Instance;
use root::take_root;
use section::take_sections;
use std::alloc::Global;
use tree::take_tree;

/// The certificate of a text, for an instance of at most 128 customers. What is read is in the
/// ranges of the instance, and its text is `bytes`; each certificate that fits has one text, which
/// `push_certificate` writes.
///
/// A text of more than 2^28 bytes is `TooLong`. `Version`: the first line is `evroute certificate
/// `, a number in its one spelling with at most 38 digits that isn't the version of the instance's
/// certificates, and a line feed. Else the first fault from the left: `Text` where the text is
/// none, and `Range` where a number is out of range or breaks a rule with numbers before it.
/// `Memory`: memory was refused. A count is never allocated for ahead.
pub fn read_certificate(
    alloc: Global,
    inst: &Instance,
    bytes: &[u8],
) -> Result<Certificate, CertText>
    requires { length (customer_nodes inst.now) ≤ most_customers }
    ensures ok { IfOk result (λ c. certificate_in inst.now bytes.now ≡ Ok (written inst.now c)) }
    ensures fits { IfOk result (Fits inst.now) }
    ensures spelled { IfOk result (IsSpelledBy inst.now bytes.now) }
    ensures one { IfOk result (λ c. (d : Certificate) → IsSpelledBy inst.now bytes.now d →
        AreSame c d) }
    ensures fault { IfErr result (λ fault. fault ≢ CertText.Memory →
        certificate_in inst.now bytes.now ≡ Err fault) }
{
    // That the instance's network is one is told by its calls.
    let _nodes = inst.nodes();
    let len = bytes.len();
    if len > MOST_BYTES {
        return Err(CertText::TooLong { len });
    }
    if has_other_version(inst, bytes) {
        return Err(CertText::Version);
    }
    let mut scan = Scan::new(bytes);
    let certificate = take_certificate(alloc, inst, &mut scan)?;
    scan.end()?;
    Ok(certificate)
}

/// Whether the bytes begin with the first line of another version.
fn has_other_version(inst: &Instance, bytes: &[u8]) -> bool
    ensures { result ≡ has_other_version inst.now bytes.now }
{
    begins_another(b"evroute certificate ", own_version(inst), bytes)
}

/// The version of the instance's certificates.
fn own_version(inst: &Instance) -> u128
    ensures { result ≡ own_version inst.now }
{
    if is_first_version(inst) { 1 } else { 2 }
}

/// Takes the text of a certificate.
fn take_certificate(
    alloc: Global,
    inst: &Instance,
    scan: &mut Scan<'_>,
) -> Result<Certificate, CertText>
    requires { length (customer_nodes inst.now) ≤ most_customers }
    ensures ok { IfOk result (λ c. certificate_at inst.now scan.old
        ≡ Ok (written inst.now c, scan.new)) }
    ensures fits { IfOk result (Fits inst.now) }
    ensures kept { IfOk result (λ c. All IsKept c.sections) }
    ensures fault { IfErr result (λ fault. fault ≢ CertText.Memory →
        or_refused (certificate_at inst.now scan.old) ≡ Err fault) }
{
    take_head(inst, scan)?;
    take_body(alloc, inst, scan)
}

/// Takes the lines in front of the bound.
fn take_head(inst: &Instance, scan: &mut Scan<'_>) -> Result<(), TextFault>
    ensures ok { OnOk result (certificate_at inst.now scan.old ≡ body_at inst.now scan.new) }
    ensures fault { IfErr result (λ fault. certificate_at inst.now scan.old ≡ Err fault) }
{
    if is_first_version(inst) {
        return scan.word(b"evroute certificate 1\n");
    }
    scan.word(b"evroute certificate 2\n")?;
    scan.word(b"levels ")?;
    take_own(scan, inst.min_q())?;
    scan.word(b" ")?;
    take_own(scan, inst.home_q())?;
    scan.word(b"\n")
}

/// Takes the lines from the bound on.
fn take_body(alloc: Global, inst: &Instance, scan: &mut Scan<'_>) -> Result<Certificate, CertText>
    requires { length (customer_nodes inst.now) ≤ most_customers }
    ensures ok { IfOk result (λ c. body_at inst.now scan.old ≡ Ok (written inst.now c, scan.new)) }
    ensures fits { IfOk result (Fits inst.now) }
    ensures kept { IfOk result (λ c. All IsKept c.sections) }
    ensures fault { IfErr result (λ fault. fault ≢ CertText.Memory →
        or_refused (body_at inst.now scan.old) ≡ Err fault) }
{
    let bound = take_bound(scan)?;
    let root = take_root(alloc, inst, scan)?;
    let sections = take_sections(alloc, inst, scan)?;
    let tree = take_tree(alloc, inst, scan, sections.len())?;
    Ok(Certificate {
        bound,
        root,
        sections: Listed::from_vec(sections),
        tree: Listed::from_vec(tree),
    })
}
