//! The lines of the root.

ghost use Rattle.std.specs.Prelude.{◌≡◌, ◌<◌, ◌++◌, OnOk, length};
ghost use Rattle.ev_text.specs.Texts.{joined_texts};
ghost use Rattle.bound_certificate.specs.CertificateTexts.{column_text, exact_head, root_text, share_text, wide_head};
ghost use Rattle.certificate_parts.specs.Ranges.{customer_count};
ghost use Rattle.bound_certificate.specs.Ranges.{RootFits};
ghost use Rattle.bound_certificate.specs.Written.{written_root};
ghost use Rattle.bound_certificate.specs.declared.certificate.Root.TheVariants as root_variant;

use crate::certificate::{Root, Share};
use certificate_parts::{write_basis, write_plan};
use instance_reader::Instance;
use route_plan::RoutePlan;
use std::alloc::{AllocError, Global};

/// Appends the lines of the root.
pub(crate) fn write_root(
    alloc: Global,
    text: &mut Vec<u8>,
    inst: &Instance,
    root: &Root,
) -> Result<(), AllocError>
    requires { RootFits (customer_count inst.now) root.now }
    ensures { OnOk result (text.new.items ≡ text.old.items
        ++ root_text (written_root inst.now root.now)) }
{
    match root {
        Root::None => text.extend_from_slice(b"root none\n"),
        Root::Exact { over, shares } => write_shares(alloc, text, *over, shares.as_slice()),
        Root::Wide { columns, basis } => {
            write_columns(alloc, text, columns.as_slice())?;
            write_basis(alloc, text, inst, columns.len(), basis.as_slice())
        }
    }
}

/// Appends the lines of an exact root.
fn write_shares(
    alloc: Global,
    text: &mut Vec<u8>,
    over: u64,
    shares: &[Share],
) -> Result<(), AllocError>
    ensures { OnOk result (text.new.items ≡ text.old.items
        ++ root_text (root_variant.Exact over shares.now)) }
{
    write_exact_head(alloc, text, over, shares.len())?;
    write_each_share(alloc, text, shares)
}

fn write_exact_head(
    alloc: Global,
    text: &mut Vec<u8>,
    over: u64,
    count: usize,
) -> Result<(), AllocError>
    ensures { OnOk result (text.new.items ≡ text.old.items ++ exact_head over count) }
{
    let line = format!(in alloc; "root exact {over} {count}\n")?;
    text.extend_from_slice(line.as_bytes())
}

fn write_each_share(alloc: Global, text: &mut Vec<u8>, shares: &[Share]) -> Result<(), AllocError>
    ensures { OnOk result (text.new.items ≡ text.old.items
        ++ joined_texts share_text shares.now) }
{
    for share in shares {
        write_share(alloc, text, share)?;
    }
    Ok(())
}

fn write_share(alloc: Global, text: &mut Vec<u8>, share: &Share) -> Result<(), AllocError>
    ensures { OnOk result (text.new.items ≡ text.old.items ++ share_text share.now) }
{
    let number = share.share;
    let words = format!(in alloc; "share {number} ")?;
    text.extend_from_slice(words.as_bytes())?;
    write_plan(alloc, text, &share.plan)
}

/// Appends the line of a wide root, and those of its columns.
fn write_columns(alloc: Global, text: &mut Vec<u8>, columns: &[RoutePlan]) -> Result<(), AllocError>
    ensures { OnOk result (text.new.items ≡ text.old.items
        ++ (wide_head (length columns.now) ++ joined_texts column_text columns.now)) }
{
    let count = columns.len();
    let line = format!(in alloc; "root wide {count}\n")?;
    text.extend_from_slice(line.as_bytes())?;
    write_each_column(alloc, text, columns)
}

fn write_each_column(
    alloc: Global,
    text: &mut Vec<u8>,
    columns: &[RoutePlan],
) -> Result<(), AllocError>
    ensures { OnOk result (text.new.items ≡ text.old.items
        ++ joined_texts column_text columns.now) }
{
    for column in columns {
        write_column(alloc, text, column)?;
    }
    Ok(())
}

fn write_column(alloc: Global, text: &mut Vec<u8>, column: &RoutePlan) -> Result<(), AllocError>
    ensures { OnOk result (text.new.items ≡ text.old.items ++ column_text column.now) }
{
    text.extend_from_slice(b"column ")?;
    write_plan(alloc, text, column)
}
