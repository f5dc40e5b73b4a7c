//! The text of a plan of a fleet of several kinds of vehicles, written.

ghost use Rattle.std.specs.Prelude.{◌≡◌, [], ◌∷◌, ◌++◌, OnErr, OnOk, Some, codes, decimal, option_map};
ghost use Rattle.ev_text.specs.Texts.{joined_texts};
ghost use Rattle.mixed_model.specs.MixedTexts.{MayBeWritten, mixed_plan_text, mixed_route_text};

use crate::MixedRoute;
use route_plan::write_stops;
use std::alloc::{AllocError, Global};

/// Appends the text of a plan: the line of the format, the line with the number of its routes, and
/// the line of each: `kind`, the number of the kind, `route`, and the stops parted by single
/// spaces. Without a plan the second line is `none`, and the last.
///
/// The only refusal is want of memory. After an `Err` the bytes of `out` are as before.
pub fn push_mixed_plan(
    alloc: Global,
    out: &mut Vec<u8>,
    plan: Option<&[MixedRoute]>,
) -> Result<(), AllocError>
    requires { MayBeWritten (option_map (λ p. p.now) plan) }
    ensures ok { OnOk result (out.new.items ≡ out.old.items
        ++ mixed_plan_text (option_map (λ p. p.now) plan.entry)) }
    ensures err { OnErr result (out.new.items ≡ out.old.items) }
{
    match plan {
        Some(routes) => push_routes(alloc, out, routes),
        None => out.extend_from_slice(b"evroute mixed plan 1\nnone\n"),
    }
}

/// Appends the text of a plan.
fn push_routes(alloc: Global, out: &mut Vec<u8>, routes: &[MixedRoute]) -> Result<(), AllocError>
    ensures ok { OnOk result (out.new.items ≡ out.old.items ++ mixed_plan_text (Some routes.now)) }
    ensures err { OnErr result (out.new.items ≡ out.old.items) }
{
    let mut text = Vec::new(alloc);
    write_head(alloc, &mut text, routes.len())?;
    write_routes(alloc, &mut text, routes)?;
    out.extend_from_slice(text.as_slice())
}

/// Appends the line of the format and the line with the number of routes. After an `Err` neither
/// stands there.
fn write_head(alloc: Global, text: &mut Vec<u8>, count: usize) -> Result<(), AllocError>
    ensures { OnOk result (text.new.items ≡ text.old.items ++
        (codes "evroute mixed plan 1" ++ 10 ∷ codes "routes " ++ decimal count ++ 10 ∷ [])) }
{
    let lines = format!(in alloc; "evroute mixed plan 1\nroutes {count}\n")?;
    text.extend_from_slice(lines.as_bytes())
}

/// Appends the lines of routes. After an `Err` some of them may stand there.
fn write_routes(alloc: Global, text: &mut Vec<u8>, routes: &[MixedRoute]) -> Result<(), AllocError>
    ensures { OnOk result
        (text.new.items ≡ text.old.items ++ joined_texts mixed_route_text routes.now) }
{
    for route in routes {
        write_route(alloc, text, route)?;
    }
    Ok(())
}

/// Appends the line of a route. After an `Err` a part of it may stand there.
fn write_route(alloc: Global, text: &mut Vec<u8>, route: &MixedRoute) -> Result<(), AllocError>
    ensures { OnOk result (text.new.items ≡ text.old.items ++ mixed_route_text route.now) }
{
    write_kind(alloc, text, route.kind)?;
    write_stops(alloc, text, route.plan.stops.as_slice())?;
    text.extend_from_slice(b"\n")
}

/// Appends the words of a route's line up to its stops.
fn write_kind(alloc: Global, text: &mut Vec<u8>, kind: usize) -> Result<(), AllocError>
    ensures { OnOk result (text.new.items ≡ text.old.items
        ++ (codes "kind " ++ decimal kind ++ codes " route ")) }
{
    let words = format!(in alloc; "kind {kind} route ")?;
    text.extend_from_slice(words.as_bytes())
}
