//! The text of a certificate, written.

ghost use Rattle.std.specs.Prelude.{◌≡◌, ◌≤◌, ◌++◌, IfOk, OnErr, OnOk, false, length, map};
ghost use Rattle.std.specs.List.{All};
ghost use Rattle.ev_text.specs.Texts.{joined_texts};
ghost use Rattle.instance_reader.specs.Instance.{customer_nodes, most_customers};
ghost use Rattle.bound_certificate.specs.CertificateTexts.{body_text, certificate_text, head_lines, head_text, is_first_version, line_text, section_text, sections_text};
ghost use Rattle.certificate_parts.specs.Ranges.{customer_count};
ghost use Rattle.bound_certificate.specs.Ranges.{Fits, LineFits, SectionFits};
ghost use Rattle.bound_certificate.specs.Written.{written, written_line, written_section};
ghost use Rattle.bound_certificate.specs.declared.certificate.TreeLine.TheVariants.{Split};

mod pairs;
mod root;
mod section;

use crate::certificate::{Certificate, Section, TreeLine};
use certificate_parts::{place_node, write_bound};
use instance_reader::Instance;
use root::write_root;
use section::write_section;
use std::alloc::{AllocError, Global};

/// Appends the text of a certificate, in lines that end with a line feed: the version, the bound,
/// the root, the sections, and the tree in preorder. Customers are written by their nodes.
///
/// The only refusal is want of memory. After an `Err` the bytes of `out` are as before.
pub fn push_certificate(
    alloc: Global,
    out: &mut Vec<u8>,
    inst: &Instance,
    certificate: &Certificate,
) -> Result<(), AllocError>
    requires few { length (customer_nodes inst.now) ≤ most_customers }
    requires fits { Fits inst.now certificate.now }
    ensures ok { OnOk result (out.new.items ≡ out.old.items
        ++ certificate_text inst.now (written inst.now certificate.now)) }
    ensures err { OnErr result (out.new.items ≡ out.old.items) }
{
    let mut text = Vec::new(alloc);
    write_head(alloc, &mut text, inst)?;
    write_body(alloc, &mut text, inst, certificate)?;
    if out.is_empty() {
        *out = text;
        return Ok(());
    }
    out.extend_from_slice(text.as_slice())
}

/// Appends the lines in front of the bound. After an `Err` nothing of them stands there.
fn write_head(alloc: Global, text: &mut Vec<u8>, inst: &Instance) -> Result<(), AllocError>
    ensures { OnOk result (text.new.items ≡ text.old.items ++ head_text inst.now) }
{
    if is_first_version(inst) {
        return text.extend_from_slice(b"evroute certificate 1\n");
    }
    write_levels(alloc, text, inst)
}

/// Whether the instance has neither a reserve nor a level at home.
pub(crate) fn is_first_version(inst: &Instance) -> bool
    ensures { result ≡ is_first_version inst.now }
{
    inst.min_q() == 0 && inst.home_q() == 0
}

/// Appends the first lines of the second version, with the reserve and the level at home.
fn write_levels(alloc: Global, text: &mut Vec<u8>, inst: &Instance) -> Result<(), AllocError>
    ensures { OnOk result (text.new.items ≡ text.old.items
        ++ head_lines false inst.now.reserve inst.now.home_level) }
{
    let (reserve, home) = (inst.min_q(), inst.home_q());
    let lines = format!(in alloc; "evroute certificate 2\nlevels {reserve} {home}\n")?;
    text.extend_from_slice(lines.as_bytes())
}

/// Appends the lines behind them. After an `Err` a part of them may stand there.
fn write_body(
    alloc: Global,
    text: &mut Vec<u8>,
    inst: &Instance,
    certificate: &Certificate,
) -> Result<(), AllocError>
    requires few { length (customer_nodes inst.now) ≤ most_customers }
    requires fits { Fits inst.now certificate.now }
    ensures { OnOk result (text.new.items ≡ text.old.items
        ++ body_text (written inst.now certificate.now)) }
{
    write_bound(alloc, text, certificate.bound)?;
    write_root(alloc, text, inst, &certificate.root)?;
    write_sections(alloc, text, inst, certificate.sections.as_slice())?;
    write_tree(
        alloc,
        text,
        inst,
        certificate.sections.len(),
        certificate.tree.as_slice(),
    )
}

/// Appends the line with the number of sections, and the lines of each.
fn write_sections(
    alloc: Global,
    text: &mut Vec<u8>,
    inst: &Instance,
    sections: &[Section],
) -> Result<(), AllocError>
    requires few { length (customer_nodes inst.now) ≤ most_customers }
    requires fits { All (SectionFits inst.now) sections.now }
    ensures { OnOk result (text.new.items ≡ text.old.items
        ++ sections_text (map (written_section inst.now) sections.now)) }
{
    let count = sections.len();
    let line = format!(in alloc; "sections {count}\n")?;
    text.extend_from_slice(line.as_bytes())?;
    write_each_section(alloc, text, inst, sections)
}

fn write_each_section(
    alloc: Global,
    text: &mut Vec<u8>,
    inst: &Instance,
    sections: &[Section],
) -> Result<(), AllocError>
    requires few { length (customer_nodes inst.now) ≤ most_customers }
    requires fits { All (SectionFits inst.now) sections.now }
    ensures { OnOk result (text.new.items ≡ text.old.items
        ++ joined_texts section_text (map (written_section inst.now) sections.now)) }
{
    for section in sections {
        write_section(alloc, text, inst, section)?;
    }
    Ok(())
}

/// Appends the lines of the tree.
fn write_tree(
    alloc: Global,
    text: &mut Vec<u8>,
    inst: &Instance,
    sections: usize,
    lines: &[TreeLine],
) -> Result<(), AllocError>
    requires { All (LineFits (customer_count inst.now) sections) lines.now }
    ensures { OnOk result (text.new.items ≡ text.old.items
        ++ joined_texts line_text (map (written_line inst.now) lines.now)) }
{
    for line in lines {
        write_line(alloc, text, inst, sections, *line)?;
    }
    Ok(())
}

fn write_line(
    alloc: Global,
    text: &mut Vec<u8>,
    inst: &Instance,
    sections: usize,
    line: TreeLine,
) -> Result<(), AllocError>
    requires { LineFits (customer_count inst.now) sections line }
    ensures { OnOk result (text.new.items ≡ text.old.items
        ++ line_text (written_line inst.now line)) }
{
    let words = match line {
        TreeLine::Split { i, j } => split_line(alloc, inst, i, j)?,
        TreeLine::Leaf { section } => format!(in alloc; "leaf {section}\n")?,
    };
    text.extend_from_slice(words.as_bytes())
}

fn split_line(alloc: Global, inst: &Instance, i: usize, j: usize) -> Result<String, AllocError>
    requires first { i ≤ customer_count inst.now }
    requires second { j ≤ customer_count inst.now }
    ensures { IfOk result (λ s. s.bytes.items ≡ line_text (written_line inst.now (Split i j))) }
{
    let (first, second) = (place_node(inst, i), place_node(inst, j));
    format!(in alloc; "split {first} {second}\n")
}
