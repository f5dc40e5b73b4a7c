//! Telling the version of a text.

ghost use Rattle.std.specs.Prelude.{◌≡◌, Err, IfErr, IfOk, Ok};
ghost use Rattle.certificate_parts.specs.Versions.{begins_another, version_at};

use ev_text::{Scan, TextFault};

/// The greatest number of a version that is told from text that is none: it has 38 digits.
const GREATEST_VERSION: u128 = 99_999_999_999_999_999_999_999_999_999_999_999_999;

/// Whether the bytes begin with the first line of another version: the word for their kind of text,
/// a number in its one spelling with at most 38 digits that isn't `own`, and a line feed.
pub fn begins_another(word: &[u8], own: u128, bytes: &[u8]) -> bool
    ensures { result ≡ begins_another word.now own bytes.now }
{
    let mut scan = Scan::new(bytes);
    match take_version(word, &mut scan) {
        Ok(number) => number != own,
        Err(_) => false,
    }
}

/// Takes the first line of any version, and answers its number.
fn take_version(word: &[u8], scan: &mut Scan<'_>) -> Result<u128, TextFault>
    ensures ok { IfOk result (λ number. version_at word.now scan.old ≡ Ok (number, scan.new)) }
    ensures fault { IfErr result (λ fault. version_at word.now scan.old ≡ Err fault) }
{
    scan.word(word)?;
    let number = scan.whole(GREATEST_VERSION)?;
    scan.word(b"\n")?;
    Ok(number)
}
