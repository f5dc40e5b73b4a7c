//! The line of a refusal.

ghost use Rattle.std.specs.Prelude.{◌≡◌, ◌≢◌, ◌++◌, OnErr, OnOk, codes, decimal};
ghost use Rattle.ev_text.specs.Scans.{IsPrefixOf};
ghost use Rattle.refusal_lines.specs.RefusalText.{IsInstanceRule, IsRule, cause_text, certificate_fault_text, curve_fault_text, curve_text, fault_text, instance_text, literal_text, place_text, plan_fault_text, refusal_text, route_text, slash_index, slash_part};

use certificate_parts::CertText;
use charge_curve::CurveFault;
use decimal_import::ImportFault;
use ev_text::TextFault;
use instance_reader::{Part, Place, ReadFault};
use report_lines::{push_numbered, push_word};
use route_plan::{PlanText, RouteFault};
use std::alloc::{AllocError, Global};

/// Why the program refuses a job, apart from want of memory and faults of files and output.
#[derive(Clone, Copy, Debug, Drop, PartialEq, Eq)]
pub enum Refusal {
    /// The instance breaks a rule.
    Instance(ReadFault),
    /// The instance's denominator times this limit is past 10^18.
    Limit(u64),
    /// The vehicle can't start with this level, which is above a full battery.
    Charge(u64),
    /// The word of the route breaks a rule.
    Route(RouteFault),
    /// The instance has this many customers, which are more than the 128 that a fleet command
    /// takes.
    Customers(usize),
    /// The bytes of the plan's file are no text of a fleet plan.
    Plan(PlanText),
    /// The bytes of the certificate's file are no text of a certificate.
    Certificate(CertText),
    /// The bytes of the file aren't converted to whole units.
    Literal(ImportFault),
    /// No instance is made of these numbers.
    Maker,
}

/// Appends the line of a refusal: its kind, the number of the broken rule, and the place or the
/// number that breaks it. Want of memory is no rule and has no line.
///
/// After an `Err` `out` has kept its old bytes as a prefix.
pub fn push_refusal(alloc: Global, out: &mut Vec<u8>, refusal: &Refusal) -> Result<(), AllocError>
    requires { IsRule refusal.now }
    ensures ok { OnOk result (out.new.items ≡ out.old.items ++ refusal_text refusal.now) }
    ensures err { OnErr result (IsPrefixOf out.old.items out.new.items) }
{
    out.extend_from_slice(b"refused ")?;
    push_cause(alloc, out, refusal)?;
    out.extend_from_slice(b"\n")
}

/// Appends the kind of a refusal and its rule.
fn push_cause(alloc: Global, out: &mut Vec<u8>, refusal: &Refusal) -> Result<(), AllocError>
    requires { IsRule refusal.now }
    ensures ok { OnOk result (out.new.items ≡ out.old.items ++ cause_text refusal.now) }
    ensures err { OnErr result (IsPrefixOf out.old.items out.new.items) }
{
    match refusal {
        Refusal::Instance(fault) => {
            out.extend_from_slice(b"instance ")?;
            push_instance_fault(alloc, out, fault)
        }
        Refusal::Limit(limit) => push_numbered(alloc, out, b"limit ", *limit as u128),
        Refusal::Charge(level) => push_numbered(alloc, out, b"charge ", *level as u128),
        Refusal::Route(fault) => {
            out.extend_from_slice(b"route ")?;
            push_route_fault(alloc, out, fault)
        }
        Refusal::Customers(count) => push_numbered(alloc, out, b"customers ", *count as u128),
        Refusal::Plan(fault) => {
            out.extend_from_slice(b"plan ")?;
            push_plan_fault(alloc, out, fault)
        }
        Refusal::Certificate(fault) => {
            out.extend_from_slice(b"certificate ")?;
            push_certificate_fault(alloc, out, fault)
        }
        Refusal::Literal(fault) => {
            out.extend_from_slice(b"literal ")?;
            push_literal_fault(alloc, out, fault)
        }
        Refusal::Maker => push_word(out, b"maker 1"),
    }
}

/// Appends the number of a broken rule of an instance, and its place.
fn push_instance_fault(
    alloc: Global,
    out: &mut Vec<u8>,
    fault: &ReadFault,
) -> Result<(), AllocError>
    requires { IsInstanceRule fault.now }
    ensures ok { OnOk result (out.new.items ≡ out.old.items ++ instance_text fault.now) }
    ensures err { OnErr result (IsPrefixOf out.old.items out.new.items) }
{
    match fault {
        ReadFault::TooLong { len } => push_numbered(alloc, out, b"1 ", *len as u128),
        ReadFault::NotJson => push_word(out, b"2"),
        ReadFault::Missing { key } => {
            out.extend_from_slice(b"3 ")?;
            push_word(out, key.name().as_bytes())
        }
        ReadFault::Kind { place } => push_placed(alloc, out, b"4 ", place),
        ReadFault::TooLarge { place } => push_placed(alloc, out, b"5 ", place),
        ReadFault::Shape { place } => push_placed(alloc, out, b"6 ", place),
        ReadFault::Node { place } => push_placed(alloc, out, b"7 ", place),
        ReadFault::TypeName { place } => push_placed(alloc, out, b"8 ", place),
        ReadFault::BadCurve { index, fault } => push_curve_fault(alloc, out, *index, fault),
        ReadFault::Denominator => push_word(out, b"10"),
        ReadFault::Horizon { limit } => push_numbered(alloc, out, b"11 ", *limit as u128),
        ReadFault::Level { place } => push_placed(alloc, out, b"12 ", place),
        // No rule, and excluded by the condition.
        ReadFault::Memory => Ok(()),
    }
}

/// Appends the number of a rule and the place where it is broken.
fn push_placed(
    alloc: Global,
    out: &mut Vec<u8>,
    rule: &[u8],
    place: &Place,
) -> Result<(), AllocError>
    ensures ok { OnOk result (out.new.items ≡ out.old.items ++ (rule.now ++ place_text place.now)) }
    ensures err { OnErr result (IsPrefixOf out.old.items out.new.items) }
{
    out.extend_from_slice(rule)?;
    push_place(alloc, out, place)
}

/// Appends a place as keys and indices joined by slashes.
fn push_place(alloc: Global, out: &mut Vec<u8>, place: &Place) -> Result<(), AllocError>
    ensures ok { OnOk result (out.new.items ≡ out.old.items ++ place_text place.now) }
    ensures err { OnErr result (IsPrefixOf out.old.items out.new.items) }
{
    out.extend_from_slice(place.key.name().as_bytes())?;
    push_index(alloc, out, place.i)?;
    push_part(out, place.part)?;
    push_index(alloc, out, place.j)
}

/// Appends an index behind a slash, where there is one.
fn push_index(alloc: Global, out: &mut Vec<u8>, index: Option<usize>) -> Result<(), AllocError>
    ensures ok { OnOk result (out.new.items ≡ out.old.items ++ slash_index index) }
    ensures err { OnErr result (IsPrefixOf out.old.items out.new.items) }
{
    match index {
        Some(index) => push_numbered(alloc, out, b"/", index as u128),
        None => Ok(()),
    }
}

/// Appends a part behind a slash, where there is one.
fn push_part(out: &mut Vec<u8>, part: Option<Part>) -> Result<(), AllocError>
    ensures ok { OnOk result (out.new.items ≡ out.old.items ++ slash_part part) }
    ensures err { OnErr result (IsPrefixOf out.old.items out.new.items) }
{
    match part {
        Some(part) => {
            out.extend_from_slice(b"/")?;
            push_word(out, part.name().as_bytes())
        }
        None => Ok(()),
    }
}

/// Appends the entry of a curve and its broken rule.
fn push_curve_fault(
    alloc: Global,
    out: &mut Vec<u8>,
    index: usize,
    fault: &CurveFault,
) -> Result<(), AllocError>
    requires { fault.now ≢ CurveFault.Memory }
    ensures ok { OnOk result (out.new.items ≡ out.old.items ++ curve_fault_text index fault.now) }
    ensures err { OnErr result (IsPrefixOf out.old.items out.new.items) }
{
    push_numbered(alloc, out, b"9 breakpoints_by_type/", index as u128)?;
    out.extend_from_slice(b" ")?;
    push_curve_rule(alloc, out, fault)
}

/// Appends the broken rule of a curve.
fn push_curve_rule(alloc: Global, out: &mut Vec<u8>, fault: &CurveFault) -> Result<(), AllocError>
    requires { fault.now ≢ CurveFault.Memory }
    ensures ok { OnOk result (out.new.items ≡ out.old.items ++ curve_text fault.now) }
    ensures err { OnErr result (IsPrefixOf out.old.items out.new.items) }
{
    match fault {
        CurveFault::Start => push_word(out, b"start"),
        CurveFault::Rise { index } => push_numbered(alloc, out, b"rise ", *index as u128),
        CurveFault::Concave { index } => push_numbered(alloc, out, b"concave ", *index as u128),
        CurveFault::Short { last } => push_numbered(alloc, out, b"short ", *last as u128),
        CurveFault::TooMany => push_word(out, b"toomany"),
        // No rule, and excluded by the condition.
        CurveFault::Memory => Ok(()),
    }
}

/// Appends the number of a broken rule of a route, and its place.
fn push_route_fault(alloc: Global, out: &mut Vec<u8>, fault: &RouteFault) -> Result<(), AllocError>
    requires { fault.now ≢ RouteFault.Memory }
    ensures ok { OnOk result (out.new.items ≡ out.old.items ++ route_text fault.now) }
    ensures err { OnErr result (IsPrefixOf out.old.items out.new.items) }
{
    match fault {
        RouteFault::Text { at } => push_numbered(alloc, out, b"1 at ", *at as u128),
        RouteFault::TooLong => push_word(out, b"2"),
        RouteFault::Unknown { at } => push_numbered(alloc, out, b"3 at ", *at as u128),
        RouteFault::Ends => push_word(out, b"4"),
        RouteFault::InnerDepot { at } => push_numbered(alloc, out, b"5 at ", *at as u128),
        RouteFault::Again { at } => push_numbered(alloc, out, b"6 at ", *at as u128),
        // No rule, and excluded by the condition.
        RouteFault::Memory => Ok(()),
    }
}

/// Appends the number of a broken rule of a plan's text, and its place or the text's length.
fn push_plan_fault(alloc: Global, out: &mut Vec<u8>, fault: &PlanText) -> Result<(), AllocError>
    requires { fault.now ≢ PlanText.Memory }
    ensures ok { OnOk result (out.new.items ≡ out.old.items ++ plan_fault_text fault.now) }
    ensures err { OnErr result (IsPrefixOf out.old.items out.new.items) }
{
    match fault {
        PlanText::Bad { fault } => push_text_fault(alloc, out, fault),
        PlanText::TooLong { len } => push_numbered(alloc, out, b"5 ", *len as u128),
        // No rule, and excluded by the condition.
        PlanText::Memory => Ok(()),
    }
}

/// Appends the number of a broken rule of a certificate's text, and its place or the text's length.
fn push_certificate_fault(
    alloc: Global,
    out: &mut Vec<u8>,
    fault: &CertText,
) -> Result<(), AllocError>
    requires { fault.now ≢ CertText.Memory }
    ensures ok { OnOk result
        (out.new.items ≡ out.old.items ++ certificate_fault_text fault.now) }
    ensures err { OnErr result (IsPrefixOf out.old.items out.new.items) }
{
    match fault {
        CertText::Text { at } => push_numbered(alloc, out, b"1 at ", *at as u128),
        CertText::Range { at } => push_numbered(alloc, out, b"2 at ", *at as u128),
        CertText::Version => push_word(out, b"3"),
        CertText::TooLong { len } => push_numbered(alloc, out, b"4 ", *len as u128),
        // No rule, and excluded by the condition.
        CertText::Memory => Ok(()),
    }
}

/// Appends the number of what is wrong at a place of a text, and the place.
fn push_text_fault(alloc: Global, out: &mut Vec<u8>, fault: &TextFault) -> Result<(), AllocError>
    ensures ok { OnOk result (out.new.items ≡ out.old.items ++ fault_text fault.now) }
    ensures err { OnErr result (IsPrefixOf out.old.items out.new.items) }
{
    match fault {
        TextFault::NotWhole { at } => push_numbered(alloc, out, b"1 at ", *at as u128),
        TextFault::TooLarge { at } => push_numbered(alloc, out, b"2 at ", *at as u128),
        TextFault::Word { at } => push_numbered(alloc, out, b"3 at ", *at as u128),
        TextFault::End { at } => push_numbered(alloc, out, b"4 at ", *at as u128),
    }
}

/// Appends the number of a broken rule of a conversion, and its place or the length of the file.
fn push_literal_fault(
    alloc: Global,
    out: &mut Vec<u8>,
    fault: &ImportFault,
) -> Result<(), AllocError>
    requires { fault.now ≢ ImportFault.Memory }
    ensures ok { OnOk result (out.new.items ≡ out.old.items ++ literal_text fault.now) }
    ensures err { OnErr result (IsPrefixOf out.old.items out.new.items) }
{
    match fault {
        ImportFault::Token { at } => push_numbered(alloc, out, b"1 at ", *at as u128),
        ImportFault::Negative { at } => push_numbered(alloc, out, b"2 at ", *at as u128),
        ImportFault::TooLarge { at } => push_numbered(alloc, out, b"3 at ", *at as u128),
        ImportFault::Digits => push_word(out, b"4"),
        ImportFault::TooLong { len } => push_numbered(alloc, out, b"5 ", *len as u128),
        // No rule, and excluded by the condition.
        ImportFault::Memory => Ok(()),
    }
}
