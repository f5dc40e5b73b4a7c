//! What refusals mean: a sentence for each rule, in tables by the numbers of the rules. Want of
//! memory is no rule, and has none.

use crate::json::broken_json;
use crate::names::{JobNames, are_regular};
use crate::sentence::Sentence;
use certificate_parts::CertText;
use charge_curve::CurveFault;
use decimal_import::ImportFault;
use ev_outside::FileShelf;
use ev_text::TextFault;
use instance_reader::{Place, ReadFault};
use refusal_lines::Refusal;
use route_plan::{PlanText, RouteFault};
use std::alloc::{AllocError, Global};
use std::rt::Files;

/// What the rules of an instance mean.
const INSTANCE: &[&str] = &[
    "{FILE}: longer than 67108864 bytes",
    "{FILE}: no JSON text (in UTF-8, without a byte order mark)",
    "{FILE}: the key {word} is missing",
    "{FILE}: {place} is of another kind than it must be (evroute convert makes decimals whole)",
    "{FILE}: {place} is past 10^9",
    "{FILE}: {place} is of a wrong length",
    "{FILE}: {place} is no node, or stands there a second time",
    "{FILE}: {place} is a type that stands there a second time, or that isn't listed",
    "{FILE}: the slopes of the curves have no common denominator up to 10^9",
    "{FILE}: the limit {1} times the denominator is past 10^18",
    "{FILE}: {place} is more than the battery holds",
];

/// What the rules of a charging curve mean.
const CURVE: &[&str] = &[
    "{FILE}: breakpoints_by_type/{1} doesn't begin at 0 and 0",
    "{FILE}: breakpoints_by_type/{1} doesn't rise at point {2}",
    "{FILE}: breakpoints_by_type/{1} charges faster behind point {2} than before it",
    "{FILE}: breakpoints_by_type/{1} ends at {2}, below a full battery",
    "{FILE}: breakpoints_by_type/{1} has too many points",
];

/// What the rules of a route's word mean.
const ROUTE: &[&str] = &[
    "the route {ROUTE}: no node or no comma at byte {1}, counted from 0",
    "the route has more than 400 nodes",
    "the route {ROUTE}: the node at place {1}, counted from 0, isn't in the instance",
    "the route {ROUTE} doesn't begin and end at the depot, node 0",
    "the route {ROUTE}: the depot stands inside it, at place {1}",
    "the route {ROUTE}: the node at place {1} is the one before it",
];

/// What the rules of a plan's text mean.
const PLAN: &[&str] = &[
    "{PLAN}: no number at byte {1}",
    "{PLAN}: too large a number at byte {1}",
    "{PLAN}: no text of a plan from byte {1} on",
    "{PLAN}: ends too early, at byte {1}",
    "{PLAN}: longer than 67108864 bytes",
];

/// What the rules of a certificate's text mean.
const CERTIFICATE: &[&str] = &[
    "{CERT}: no text of {a certificate} from byte {1} on",
    "{CERT}: the number at byte {1} is out of its range, or of another instance",
    "{CERT}: {a certificate} of another version",
    "{CERT}: longer than 268435456 bytes",
];

/// What the rules of a conversion to whole units mean.
const LITERAL: &[&str] = &[
    "{FILE}: no JSON text from byte {1} on",
    "{FILE}: a time or an energy below 0 at byte {1}",
    "{FILE}: the number at byte {1} would be past 10^18 with so many digits",
    "at most 9 digits are made whole",
    "{FILE}: longer than 67108864 bytes",
];

/// What people are told of a refusal: from which byte on the instance is no JSON text, where it can
/// be read again, or else what the broken rule means.
pub fn told_refusal<R: Files>(
    alloc: Global,
    files: &R,
    names: &JobNames<'_>,
    refusal: Refusal,
) -> Result<Option<String>, AllocError> {
    if refusal == Refusal::Instance(ReadFault::NotJson) && are_regular(files, names.instances) {
        let mut shelf = FileShelf::new(alloc, files);
        if let Some(told) = broken_json(alloc, &mut shelf, names.instances)? {
            return Ok(Some(told));
        }
    }
    match refused(refusal) {
        Some(sentence) => Ok(Some(sentence.told(alloc, names)?)),
        None => Ok(None),
    }
}

/// What a refusal means.
pub fn refused(refusal: Refusal) -> Option<Sentence> {
    match refusal {
        Refusal::Instance(fault) => instance(fault),
        Refusal::Limit(limit) => Some(Sentence::about(
            "the limit {1} times the denominator of {FILE} is past 10^18",
            limit,
        )),
        Refusal::Charge(level) => Some(Sentence::about(
            "the charge {1} is more than the battery of {FILE} holds",
            level,
        )),
        Refusal::Route(fault) => route(fault),
        Refusal::Customers(count) => Some(Sentence::one(
            "{FILE}: {1} customers, and at most 128 are planned or judged",
            count,
        )),
        Refusal::Plan(fault) => plan(fault),
        Refusal::Certificate(fault) => certificate(fault),
        Refusal::Literal(fault) => literal(fault),
        Refusal::Maker => Some(Sentence::plain(
            "SEED is from 1 to 2147483646, and there are 1 to 399 customers and stations, at \
             least one of them a customer",
        )),
    }
}

/// The entry of a table, about this number.
fn about(table: &'static [&'static str], rule: usize, number: u64) -> Option<Sentence> {
    let says = *table.get(rule)?;
    Some(Sentence::about(says, number))
}

/// The same about a place in an instance.
fn placed(rule: usize, place: Place) -> Option<Sentence> {
    let says = *INSTANCE.get(rule)?;
    Some(Sentence::placed(says, place))
}

/// What the broken rule of an instance means.
fn instance(fault: ReadFault) -> Option<Sentence> {
    match fault {
        ReadFault::TooLong { .. } => about(INSTANCE, 0, 0),
        ReadFault::NotJson => about(INSTANCE, 1, 0),
        ReadFault::Missing { key } => Some(Sentence::worded(*INSTANCE.get(2)?, key.name())),
        ReadFault::Kind { place } => placed(3, place),
        ReadFault::TooLarge { place } => placed(4, place),
        ReadFault::Shape { place } => placed(5, place),
        ReadFault::Node { place } => placed(6, place),
        ReadFault::TypeName { place } => placed(7, place),
        ReadFault::BadCurve { index, fault } => curve(index, fault),
        ReadFault::Denominator => about(INSTANCE, 8, 0),
        ReadFault::Horizon { limit } => about(INSTANCE, 9, limit),
        ReadFault::Level { place } => placed(10, place),
        ReadFault::Memory => None,
    }
}

/// What the broken rule of a charging curve means.
fn curve(index: usize, fault: CurveFault) -> Option<Sentence> {
    let (rule, at) = match fault {
        CurveFault::Start => (0, 0),
        CurveFault::Rise { index } => (1, index as u64),
        CurveFault::Concave { index } => (2, index as u64),
        CurveFault::Short { last } => (3, last),
        CurveFault::TooMany => (4, 0),
        CurveFault::Memory => return None,
    };
    Some(about(CURVE, rule, index as u64)?.then(at))
}

/// What the broken rule of a route's word means.
fn route(fault: RouteFault) -> Option<Sentence> {
    let (rule, at) = match fault {
        RouteFault::Text { at } => (0, at),
        RouteFault::TooLong => (1, 0),
        RouteFault::Unknown { at } => (2, at),
        RouteFault::Ends => (3, 0),
        RouteFault::InnerDepot { at } => (4, at),
        RouteFault::Again { at } => (5, at),
        RouteFault::Memory => return None,
    };
    about(ROUTE, rule, at as u64)
}

/// What is meant where the bytes of a plan's file are no text of one.
fn plan(fault: PlanText) -> Option<Sentence> {
    let (rule, at) = match fault {
        PlanText::Bad { fault } => match fault {
            TextFault::NotWhole { at } => (0, at),
            TextFault::TooLarge { at } => (1, at),
            TextFault::Word { at } => (2, at),
            TextFault::End { at } => (3, at),
        },
        PlanText::TooLong { .. } => (4, 0),
        PlanText::Memory => return None,
    };
    about(PLAN, rule, at as u64)
}

/// What is meant where the bytes of a certificate's file are no text of one.
fn certificate(fault: CertText) -> Option<Sentence> {
    let (rule, at) = match fault {
        CertText::Text { at } => (0, at),
        CertText::Range { at } => (1, at),
        CertText::Version => (2, 0),
        CertText::TooLong { .. } => (3, 0),
        CertText::Memory => return None,
    };
    about(CERTIFICATE, rule, at as u64)
}

/// What is meant where a file isn't converted to whole units.
fn literal(fault: ImportFault) -> Option<Sentence> {
    let (rule, at) = match fault {
        ImportFault::Token { at } => (0, at),
        ImportFault::Negative { at } => (1, at),
        ImportFault::TooLarge { at } => (2, at),
        ImportFault::Digits => (3, 0),
        ImportFault::TooLong { .. } => (4, 0),
        ImportFault::Memory => return None,
    };
    about(LITERAL, rule, at as u64)
}
