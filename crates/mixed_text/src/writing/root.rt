//! The lines of the root.

ghost use Rattle.std.specs.Prelude.{◌≡◌, ◌++◌, OnOk, length};
ghost use Rattle.ev_text.specs.Texts.{joined_texts};
ghost use Rattle.bound_certificate.specs.CertificateTexts.{exact_head, wide_head};
ghost use Rattle.mixed_model.specs.declared.proof.MixedRoot.TheVariants as root_variant;
ghost use Rattle.mixed_text.specs.MixedTexts.{mixed_column_text, mixed_root_text, mixed_route_text, mixed_share_text};
ghost use Rattle.mixed_text.specs.Written.{written_mixed_root};

use crate::writing::basis::write_basis;
use certificate_parts::write_plan;
use instance_reader::Instance;
use mixed_model::{MixedRoot, MixedRoute, MixedShare};
use std::alloc::{AllocError, Global};

/// Appends the lines of the root, by the customers of one of the kinds.
pub(crate) fn write_root(
    alloc: Global,
    text: &mut Vec<u8>,
    inst: &Instance,
    root: &MixedRoot,
) -> Result<(), AllocError>
    ensures { OnOk result (text.new.items ≡ text.old.items
        ++ mixed_root_text (written_mixed_root inst.now root.now)) }
{
    match root {
        MixedRoot::None => text.extend_from_slice(b"root none\n"),
        MixedRoot::Exact { over, shares } => write_shares(alloc, text, *over, shares.as_slice()),
        MixedRoot::Wide { columns, basis } => {
            write_columns(alloc, text, columns.as_slice())?;
            write_basis(alloc, text, inst, basis.as_slice())
        }
    }
}

/// Appends the lines of an exact root.
fn write_shares(
    alloc: Global,
    text: &mut Vec<u8>,
    over: u64,
    shares: &[MixedShare],
) -> Result<(), AllocError>
    ensures { OnOk result (text.new.items ≡ text.old.items
        ++ mixed_root_text (root_variant.Exact over shares.now)) }
{
    write_exact_head(alloc, text, over, shares.len())?;
    write_each_share(alloc, text, shares)
}

fn write_exact_head(
    alloc: Global,
    text: &mut Vec<u8>,
    over: u64,
    count: usize,
) -> Result<(), AllocError>
    ensures { OnOk result (text.new.items ≡ text.old.items ++ exact_head over count) }
{
    let line = format!(in alloc; "root exact {over} {count}\n")?;
    text.extend_from_slice(line.as_bytes())
}

fn write_each_share(
    alloc: Global,
    text: &mut Vec<u8>,
    shares: &[MixedShare],
) -> Result<(), AllocError>
    ensures { OnOk result (text.new.items ≡ text.old.items
        ++ joined_texts mixed_share_text shares.now) }
{
    for share in shares {
        write_share(alloc, text, share)?;
    }
    Ok(())
}

fn write_share(alloc: Global, text: &mut Vec<u8>, share: &MixedShare) -> Result<(), AllocError>
    ensures { OnOk result (text.new.items ≡ text.old.items ++ mixed_share_text share.now) }
{
    let number = share.share;
    let words = format!(in alloc; "share {number} ")?;
    text.extend_from_slice(words.as_bytes())?;
    write_route(alloc, text, &share.route)
}

/// Appends the line of a wide root, and those of its columns.
fn write_columns(
    alloc: Global,
    text: &mut Vec<u8>,
    columns: &[MixedRoute],
) -> Result<(), AllocError>
    ensures { OnOk result (text.new.items ≡ text.old.items
        ++ (wide_head (length columns.now) ++ joined_texts mixed_column_text columns.now)) }
{
    let count = columns.len();
    let line = format!(in alloc; "root wide {count}\n")?;
    text.extend_from_slice(line.as_bytes())?;
    write_each_column(alloc, text, columns)
}

fn write_each_column(
    alloc: Global,
    text: &mut Vec<u8>,
    columns: &[MixedRoute],
) -> Result<(), AllocError>
    ensures { OnOk result (text.new.items ≡ text.old.items
        ++ joined_texts mixed_column_text columns.now) }
{
    for column in columns {
        write_column(alloc, text, column)?;
    }
    Ok(())
}

fn write_column(alloc: Global, text: &mut Vec<u8>, column: &MixedRoute) -> Result<(), AllocError>
    ensures { OnOk result (text.new.items ≡ text.old.items ++ mixed_column_text column.now) }
{
    text.extend_from_slice(b"column ")?;
    write_route(alloc, text, column)
}

/// Appends the number of a route's kind, its stops, and a line feed.
fn write_route(alloc: Global, text: &mut Vec<u8>, route: &MixedRoute) -> Result<(), AllocError>
    ensures { OnOk result (text.new.items ≡ text.old.items ++ mixed_route_text route.now) }
{
    let kind = route.kind;
    let words = format!(in alloc; "{kind} ")?;
    text.extend_from_slice(words.as_bytes())?;
    write_plan(alloc, text, &route.plan)
}
