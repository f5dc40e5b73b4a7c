//! Reading the lines of the tree.

ghost use Rattle.std.specs.Prelude.{◌≡◌, ◌≢◌, ◌<◌, ◌≤◌, ◌&&◌, Err, IfErr, IfOk, Ok, length, map, nat_eq, nat_lt, not, true};
ghost use Rattle.std.specs.List.{All};
ghost use Rattle.ev_text.specs.Readers.{number_where};
ghost use Rattle.certificate_parts.specs.Refusals.{or_refused};
ghost use Rattle.certificate_parts.specs.Limits.{most_items};
ghost use Rattle.instance_reader.specs.Instance.{customer_nodes, most_customers};
ghost use Rattle.certificate_parts.specs.Ranges.{customer_count};
ghost use Rattle.bound_certificate.specs.Ranges.{LineFits};
ghost use Rattle.certificate_parts.specs.Reading.{is_customer_node, node_where};
ghost use Rattle.bound_certificate.specs.Reading.{line_at, split_or_leaf, tree_at};
ghost use Rattle.bound_certificate.specs.Written.{written_line};
ghost use Rattle.certificate_parts.specs.Places.{IsPlaceOf};
ghost use Rattle.certificate_parts.specs.declared.cert_text.CertText.TheVariants.{Memory};

use crate::certificate::TreeLine;
use crate::ranges::open_behind;
use certificate_parts::{CertText, Place, take_customer};
use ev_text::{Scan, TextFault};
use instance_reader::Instance;
use std::alloc::Global;

/// The greatest number of a section.
const GREATEST_SECTION: u128 = u64::MAX as u128;

/// Takes the lines of one tree over so many sections.
pub(crate) fn take_tree(
    alloc: Global,
    inst: &Instance,
    scan: &mut Scan<'_>,
    sections: usize,
) -> Result<Vec<TreeLine>, CertText>
    requires few { length (customer_nodes inst.now) ≤ most_customers }
    ensures ok { IfOk result (λ lines. tree_at (line_at inst.now sections) scan.old
        ≡ Ok (map (written_line inst.now) lines.items, scan.new)) }
    ensures fits { IfOk result (λ lines.
        All (LineFits (customer_count inst.now) sections) lines.items) }
    ensures fault { IfErr result (λ fault. fault ≢ CertText.Memory →
        or_refused (tree_at (line_at inst.now sections) scan.old) ≡ Err fault) }
{
    let mut lines = Vec::new(alloc);
    let mut trees = 1u128;
    while trees > 0 {
        let line = take_line(inst, scan, sections)?;
        lines.push(line)?;
        trees = open_behind(line, trees);
    }
    Ok(lines)
}

/// Takes a line of the tree.
fn take_line(inst: &Instance, scan: &mut Scan<'_>, sections: usize) -> Result<TreeLine, TextFault>
    requires few { length (customer_nodes inst.now) ≤ most_customers }
    ensures ok { IfOk result (λ line. line_at inst.now sections scan.old
        ≡ Ok (written_line inst.now line, scan.new)) }
    ensures fits { IfOk result (LineFits (customer_count inst.now) sections) }
    ensures fault { IfErr result (λ fault. line_at inst.now sections scan.old ≡ Err fault) }
{
    if scan.choose(b"split ")? {
        return take_split(inst, scan, sections);
    }
    scan.word(b"leaf ")?;
    let section = take_section_number(scan, sections)?;
    scan.word(b"\n")?;
    Ok(TreeLine::Leaf { section })
}

/// Takes what stands behind the word of a split: two different customers.
fn take_split(inst: &Instance, scan: &mut Scan<'_>, sections: usize) -> Result<TreeLine, TextFault>
    requires few { length (customer_nodes inst.now) ≤ most_customers }
    ensures ok { IfOk result (λ line. split_or_leaf inst.now sections true scan.old
        ≡ Ok (written_line inst.now line, scan.new)) }
    ensures fits { IfOk result (LineFits (customer_count inst.now) sections) }
    ensures fault { IfErr result (λ fault.
        split_or_leaf inst.now sections true scan.old ≡ Err fault) }
{
    let i = take_customer(inst, scan)?;
    scan.word(b" ")?;
    let j = take_other(inst, scan, i.node)?;
    scan.word(b"\n")?;
    Ok(TreeLine::Split {
        i: i.place,
        j: j.place,
    })
}

/// Takes the node of a customer other than one.
fn take_other(inst: &Instance, scan: &mut Scan<'_>, i: usize) -> Result<Place, TextFault>
    requires few { length (customer_nodes inst.now) ≤ most_customers }
    ensures ok { IfOk result (λ j.
        node_where (λ n. is_customer_node inst.now n && not (nat_eq i n)) scan.old
        ≡ Ok (j.node, scan.new)) }
    ensures some { IfOk result (λ j. 1 ≤ j.place) }
    ensures place { IfOk result (IsPlaceOf inst.now) }
    ensures other { IfOk result (λ j. i ≢ j.node) }
    ensures fault { IfErr result (λ fault.
        node_where (λ n. is_customer_node inst.now n && not (nat_eq i n)) scan.old ≡ Err fault) }
{
    let at = scan.place();
    let j = take_customer(inst, scan)?;
    if i != j.node {
        Ok(j)
    } else {
        Err(TextFault::TooLarge { at })
    }
}

/// Takes the number of a section, of so many.
fn take_section_number(scan: &mut Scan<'_>, sections: usize) -> Result<usize, TextFault>
    ensures ok { IfOk result (λ n.
        number_where most_items (λ m. nat_lt m sections) scan.old ≡ Ok (n, scan.new)) }
    ensures fault { IfErr result (λ fault.
        number_where most_items (λ m. nat_lt m sections) scan.old ≡ Err fault) }
{
    let at = scan.place();
    let number = scan.whole(GREATEST_SECTION)? as usize;
    if number < sections {
        Ok(number)
    } else {
        Err(TextFault::TooLarge { at })
    }
}
