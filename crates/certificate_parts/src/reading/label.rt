//! Reading labels.

ghost use Rattle.std.specs.Prelude.{◌≡◌, ◌≢◌, ◌≤◌, ◌<◌, ◌^◌, ◌&&◌, ℕ, Err, IfErr, IfOk, None, Ok, Some, false, length, true, map};
ghost use Rattle.std.specs.List.{All};
ghost use Rattle.charge_curve.specs.Points.{ArePoints};
ghost use Rattle.customer_sets.specs.CustSet.{has};
ghost use Rattle.ev_model.specs.Network.{scaled_limit};
ghost use Rattle.ev_text.specs.Readers.{number_where, so_many};
ghost use Rattle.instance_reader.specs.Instance.{customer_nodes, most_customers};
ghost use Rattle.certificate_parts.specs.Refusals.{or_refused};
ghost use Rattle.certificate_parts.specs.Ranges.{HasSet, LabelFits, PointFits, customer_count};
ghost use Rattle.certificate_parts.specs.Reading.{customer_at, is_above, is_higher, is_later, label_at, point_at, points_at, set_at, set_behind};
ghost use Rattle.certificate_parts.specs.Written.{nodes_in, written_label};
ghost use Rattle.certificate_parts.specs.Places.{IsPlaceOf};
ghost use Rattle.certificate_parts.specs.declared.cert_text.CertText.TheVariants.{Memory};
ghost use Rattle.ev_text.specs.declared.TextFault.TheVariants.{TooLarge};

use crate::cert_text::CertText;
use crate::reading::nodes::{Place, take_customer, take_node, take_place};
use customer_sets::CustSet;
use ev_text::{Scan, TextFault};
use instance_reader::Instance;
use piece_fn::{Label, PieceFn};
use smallvec::SmallVec;
use std::alloc::Global;

/// A level with its time.
pub type Point = (u64, u64);

/// The points of a label; a few take no memory.
pub type Points = SmallVec<Point, 8>;

/// Takes the lines of so many labels.
pub fn take_labels(
    alloc: Global,
    inst: &Instance,
    scan: &mut Scan<'_>,
    count: u128,
) -> Result<Vec<Label>, CertText>
    requires few { length (customer_nodes inst.now) ≤ most_customers }
    ensures ok { IfOk result (λ labels. so_many count (label_at inst.now) scan.old
        ≡ Ok (map (written_label inst.now) labels.items, scan.new)) }
    ensures count { IfOk result (λ labels. length labels.items ≡ count) }
    ensures fits { IfOk result (λ labels. All (LabelFits inst.now) labels.items) }
    ensures kept { IfOk result (λ labels. All HasSet labels.items) }
    ensures fault { IfErr result (λ fault. fault ≢ CertText.Memory →
        or_refused (so_many count (label_at inst.now) scan.old) ≡ Err fault) }
{
    let mut labels = Vec::new(alloc);
    for _ in 0..count {
        let label = take_label(alloc, inst, scan)?;
        labels.push(label)?;
    }
    Ok(labels)
}

/// Takes the line of a label.
pub(crate) fn take_label(
    alloc: Global,
    inst: &Instance,
    scan: &mut Scan<'_>,
) -> Result<Label, CertText>
    requires few { length (customer_nodes inst.now) ≤ most_customers }
    ensures ok { IfOk result (λ label. label_at inst.now scan.old
        ≡ Ok (written_label inst.now label, scan.new)) }
    ensures fits { IfOk result (LabelFits inst.now) }
    ensures kept { IfOk result HasSet }
    ensures fault { IfErr result (λ fault. fault ≢ CertText.Memory →
        or_refused (label_at inst.now scan.old) ≡ Err fault) }
{
    scan.word(b"label ")?;
    let last = take_place(inst, scan)?;
    scan.word(b" ")?;
    let node = take_node(inst, scan)?;
    scan.word(b" ")?;
    let set = take_set(inst, scan, b' ')?;
    // What its type promises of a set is told by its calls alone.
    let _members = set.len();
    let points = take_points(alloc, inst, scan)?;
    let value = PieceFn::from_points(alloc, points.as_slice())?;
    Ok(Label {
        last: last.node,
        node,
        set,
        value,
    })
}

/// Takes a set, and the byte behind it, which ends it and is neither a comma nor a digit.
pub fn take_set(inst: &Instance, scan: &mut Scan<'_>, mark: u8) -> Result<CustSet, TextFault>
    requires few { length (customer_nodes inst.now) ≤ most_customers }
    ensures ok { IfOk result (λ set. set_at inst.now mark scan.old
        ≡ Ok (nodes_in set 0 (customer_nodes inst.now), scan.new)) }
    ensures within { IfOk result (λ set.
        (c : ℕ) → has set c ≡ true → c < customer_count inst.now) }
    ensures fault { IfErr result (λ fault. set_at inst.now mark scan.old ≡ Err fault) }
{
    if scan.take_if(b"-") {
        scan.word(&[mark])?;
        return Ok(CustSet::empty());
    }
    take_members(inst, scan, mark)
}

/// Takes the members of a set, parted by commas, and the byte that ends it.
fn take_members(inst: &Instance, scan: &mut Scan<'_>, mark: u8) -> Result<CustSet, TextFault>
    requires few { length (customer_nodes inst.now) ≤ most_customers }
    ensures ok { IfOk result (λ set. set_behind inst.now mark false scan.old
        ≡ Ok (nodes_in set 0 (customer_nodes inst.now), scan.new)) }
    ensures within { IfOk result (λ set.
        (c : ℕ) → has set c ≡ true → c < customer_count inst.now) }
    ensures fault { IfErr result (λ fault. set_behind inst.now mark false scan.old ≡ Err fault) }
{
    let mut last = take_member(inst, scan, None)?;
    let mut set = CustSet::empty().with(last.place - 1);
    while scan.take_if(b",") {
        last = take_member(inst, scan, Some(last.node))?;
        set = set.with(last.place - 1);
    }
    scan.word(&[mark])?;
    Ok(set)
}

/// Takes the node of a customer above the one before.
fn take_member(
    inst: &Instance,
    scan: &mut Scan<'_>,
    last: Option<usize>,
) -> Result<Place, TextFault>
    requires few { length (customer_nodes inst.now) ≤ most_customers }
    ensures ok { IfOk result (λ p. customer_at inst.now last scan.old ≡ Ok (p.node, scan.new)) }
    ensures some { IfOk result (λ p. 1 ≤ p.place) }
    ensures place { IfOk result (IsPlaceOf inst.now) }
    ensures above { IfOk result (λ p. is_above last p.node ≡ true) }
    ensures fault { IfErr result (λ fault. customer_at inst.now last scan.old ≡ Err fault) }
{
    let at = scan.place();
    let member = take_customer(inst, scan)?;
    if is_above(last, member.node) {
        Ok(member)
    } else {
        Err(TextFault::TooLarge { at })
    }
}

/// Whether a node is above another.
fn is_above(last: Option<usize>, node: usize) -> bool
    ensures { result ≡ is_above last node }
{
    match last {
        None => true,
        Some(before) => before < node,
    }
}

/// Takes the points of a label, of which there is one at least, parted by spaces, and the line feed
/// behind them.
pub fn take_points(alloc: Global, inst: &Instance, scan: &mut Scan<'_>) -> Result<Points, CertText>
    ensures ok { IfOk result (λ points. points_at inst.now scan.old
        ≡ Ok (points.items, scan.new)) }
    ensures points { IfOk result (λ points. ArePoints points.items) }
    ensures fits { IfOk result (λ points. All (PointFits inst.now) points.items) }
    ensures fault { IfErr result (λ fault. fault ≢ CertText.Memory →
        or_refused (points_at inst.now scan.old) ≡ Err fault) }
{
    let mut points = SmallVec::new(alloc);
    let mut last = take_point(inst, scan, None)?;
    points.push(last)?;
    while scan.take_if(b" ") {
        last = take_point(inst, scan, Some(last))?;
        points.push(last)?;
    }
    scan.word(b"\n")?;
    Ok(points)
}

/// Takes a level and its time, behind another point.
fn take_point(inst: &Instance, scan: &mut Scan<'_>, last: Option<Point>) -> Result<Point, TextFault>
    ensures ok { IfOk result (λ point. point_at inst.now last scan.old ≡ Ok (point, scan.new)) }
    ensures limits { IfOk result (λ _. (inst.now.capacity ≤ 10 ^ 9) ×
        (scaled_limit inst.now ≤ 10 ^ 18)) }
    ensures fault { IfErr result (λ fault. point_at inst.now last scan.old ≡ Err fault) }
{
    let level = take_level(inst, scan, last)?;
    scan.word(b":")?;
    let time = take_time(inst, scan, last, level)?;
    Ok((level, time))
}

/// Takes a level above the one before.
fn take_level(inst: &Instance, scan: &mut Scan<'_>, last: Option<Point>) -> Result<u64, TextFault>
    ensures ok { IfOk result (λ level.
        number_where inst.now.capacity (is_higher last) scan.old ≡ Ok (level, scan.new)) }
    ensures higher { IfOk result (λ level. is_higher last level ≡ true) }
    ensures small { IfOk result (λ _. inst.now.capacity ≤ 10 ^ 9) }
    ensures fault { IfErr result (λ fault.
        number_where inst.now.capacity (is_higher last) scan.old ≡ Err fault) }
{
    let at = scan.place();
    let level = scan.whole(u128::from(inst.max_q()))? as u64;
    if is_higher(last, level) {
        Ok(level)
    } else {
        Err(TextFault::TooLarge { at })
    }
}

/// Whether a level is above that of a point.
fn is_higher(last: Option<Point>, level: u64) -> bool
    ensures { result ≡ is_higher last level }
{
    match last {
        None => true,
        Some(before) => before.0 < level,
    }
}

/// Takes the time of a level, which may follow the time before.
fn take_time(
    inst: &Instance,
    scan: &mut Scan<'_>,
    last: Option<Point>,
    level: u64,
) -> Result<u64, TextFault>
    requires { is_higher last level ≡ true }
    ensures ok { IfOk result (λ time. number_where (scaled_limit inst.now) (is_later last level)
        scan.old ≡ Ok (time, scan.new)) }
    ensures small { IfOk result (λ _. scaled_limit inst.now ≤ 10 ^ 18) }
    ensures fault { IfErr result (λ fault.
        number_where (scaled_limit inst.now) (is_later last level) scan.old ≡ Err fault) }
{
    let at = scan.place();
    let time = scan.whole(u128::from(inst.scaled_limit()))? as u64;
    if is_later(last, level, time) {
        Ok(time)
    } else {
        Err(TextFault::TooLarge { at })
    }
}

/// Whether the time of a level is no earlier than that of the point before, and the gap of times is
/// a multiple of the gap of levels.
fn is_later(last: Option<Point>, level: u64, time: u64) -> bool
    requires { is_higher last level ≡ true }
    ensures { result ≡ is_later last level time }
{
    match last {
        None => true,
        Some(before) => before.1 <= time && (time - before.1) % (level - before.0) == 0,
    }
}
