//! Reads an instance: the rules in their order.

ghost use Rattle.std.specs.Prelude.{◌≡◌, ◌≢◌, IfOk, IfErr};
ghost use Rattle.serde_json.specs.View.{view};
ghost use Rattle.instance_reader.specs.Faults.{AreGood, IsFirstFault, IsFirstFaultIn, IsFirstFaultOf, IsInstanceOf, IsMeantBy, Means, early_fault, size_fault};
ghost use Rattle.instance_reader.specs.Meaning.{AreCurveNumbers};
ghost use Rattle.instance_reader.specs.Refusal.{OnContents, Refuses};
ghost use Rattle.instance_reader.specs.Views.{contents_view};
ghost use Rattle.instance_reader.specs.declared.faults.ReadFault.TheVariants.{Memory};

use crate::build::build;
use crate::curves::{curves, scaled};
use crate::faults::{PlaceFault, ReadFault};
use crate::fields::Fields;
use crate::instance::Instance;
use crate::kinds::fields;
use crate::levels::first_level_past_full;
use crate::limits::{checked_limit, smaller};
use crate::required_keys::first_missing;
use crate::shapes::first_wrong_shape;
use crate::sizes::first_large;
use crate::stations::curve_numbers;
use charge_curve::{Curve, common_denominator};
use serde_json::Value;
use std::alloc::{AllocError, Global};

/// The most bytes of an instance, and of a plan: 2^26.
pub const MOST_BYTES: usize = 1 << 26;

/// The greatest denominator.
const MOST_DENOMINATOR: u64 = 1_000_000_000;

/// Reads an instance from the bytes of a JSON file.
///
/// The top value is an object with the keys `max_q` (the charge of a full battery), `css` (the
/// stations, each with a `node_id` and a type), `breakpoints_by_type` (the charging curves, each
/// with a type, its breakpoints as `time` and `charge`, and maybe the time to plug in as
/// `plug_time`), `process_times` (by node, missing ones are 0), `energy_matrix` and `time_matrix`
/// (by the node left and the node reached), and maybe `t_max` and `max_t` (limits on the time of a
/// route, of which the smaller holds), `min_q` (the reserve) and `home_q` (the least level on
/// arriving at the end of a route). A type stands under `cs_type`, or under `type` where that is
/// absent. Other keys are passed over. All numbers are whole.
///
/// The answer is the instance that the bytes mean, or the first broken rule, as [`ReadFault`] lists
/// them.
pub fn read_instance(alloc: Global, bytes: &[u8]) -> Result<Instance, ReadFault>
    ensures instance { IfOk result (IsInstanceOf bytes.now) }
    ensures fault { IfErr result (λ fault. fault ≢ Memory → IsFirstFault bytes.now fault) }
{
    if bytes.len() > MOST_BYTES {
        return Err(ReadFault::TooLong { len: bytes.len() });
    }
    match Value::from_slice(alloc, bytes) {
        Ok(top) => read_value(alloc, &top),
        Err(error) => {
            if error.is_memory() {
                Err(ReadFault::Memory)
            } else {
                Err(ReadFault::NotJson)
            }
        }
    }
}

/// Reads an instance from the value of a file.
fn read_value(alloc: Global, top: &Value) -> Result<Instance, ReadFault>
    ensures instance { IfOk result (Means (view top.now)) }
    ensures fault { IfErr result (OnContents (IsFirstFaultOf (view top.now))) }
{
    if let Some(key) = first_missing(top) {
        return Err(ReadFault::Missing { key });
    }
    match fields(alloc, top) {
        Ok(fields) => read_fields(alloc, fields),
        Err(PlaceFault::At { place }) => Err(ReadFault::Kind { place }),
        Err(PlaceFault::Memory) => Err(ReadFault::Memory),
    }
}

/// The first broken rule of those on sizes and shapes.
fn size_fault(fields: &Fields) -> Option<ReadFault>
    ensures { result ≡ size_fault (contents_view fields.now) }
{
    match first_large(fields) {
        Some(place) => Some(ReadFault::TooLarge { place }),
        None => first_wrong_shape(fields).map(|place| ReadFault::Shape { place }),
    }
}

/// What fields have that no rule up to those on curves refuses: the curves, and by node the number
/// of its curve.
#[derive(Drop)]
struct GoodCurves {
    curves: Vec<Curve>,
    curve_numbers: Vec<Option<usize>>,
}

/// Tries the rules on sizes, shapes, stations and curves.
fn good_curves(alloc: Global, fields: &Fields) -> Result<GoodCurves, ReadFault>
    ensures good { IfOk result (λ k. AreGood (contents_view fields.now) k.curves.items) }
    ensures by_node { IfOk result
        (λ k. AreCurveNumbers (contents_view fields.now) k.curve_numbers.items) }
    ensures fault { IfErr result (Refuses (early_fault (contents_view fields.now))) }
{
    if let Some(fault) = size_fault(fields) {
        return Err(fault);
    }
    let curve_numbers = curve_numbers(alloc, fields)?;
    let curves = curves(alloc, fields.curves.as_slice(), fields.max_q)?;
    Ok(GoodCurves {
        curves,
        curve_numbers,
    })
}

/// Reads an instance from the fields of a file.
fn read_fields(alloc: Global, fields: Fields) -> Result<Instance, ReadFault>
    ensures instance { IfOk result (IsMeantBy (contents_view fields)) }
    ensures fault { IfErr result (OnContents (IsFirstFaultIn (contents_view fields))) }
{
    let GoodCurves {
        curves,
        curve_numbers,
    } = good_curves(alloc, &fields)?;
    let Some(denominator) = common_denominator(curves.as_slice(), MOST_DENOMINATOR) else {
        return Err(ReadFault::Denominator);
    };
    let limit = checked_limit(denominator, smaller(fields.t_max, fields.max_t))?;
    if let Some(place) = first_level_past_full(&fields) {
        return Err(ReadFault::Level { place });
    }
    let curves = match scaled(alloc, curves, denominator) {
        Ok(curves) => curves,
        Err(AllocError) => return Err(ReadFault::Memory),
    };
    match build(alloc, fields, curves, curve_numbers, denominator, limit) {
        Ok(instance) => Ok(instance),
        Err(AllocError) => Err(ReadFault::Memory),
    }
}
