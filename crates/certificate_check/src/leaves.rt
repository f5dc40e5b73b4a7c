//! The rules of the leaves: the section that a leaf names forbids no pair that the leaf allows, and
//! its bound is not below that of the certificate.

ghost use Rattle.std.specs.Prelude.{◌≡◌, ◌↔◌, ◌≢◌, ◌∷◌, ◌++◌, ◌<◌, ◌≤◌, [], IfOk, IfSome, IsTrue, OnOk, length};
ghost use Rattle.std.specs.List.{All};
ghost use Rattle.bound_certificate.specs.Limits.{greatest_bound};
ghost use Rattle.bound_certificate.specs.Meaning.{priced_section, priced_sections};
ghost use Rattle.bound_certificate.specs.Ranges.{Fits, IsPrice};
ghost use Rattle.certificate_check.specs.Bounds.{AreChildren};
ghost use Rattle.certificate_check.specs.Firsts.{HoldsUnder, IsBrokenUnder, IsLeafFault, LeafHolds, Tells, TellsFirst, leaves_along};
ghost use Rattle.certificate_check.specs.Rules.{AllowsEach};
ghost use Rattle.customer_sets.specs.Pairs.{ForbiddenPairs, IsPairs, allows_of, any_pair};
ghost use Rattle.instance_reader.specs.Instance.{customer_nodes, most_customers};

use crate::bound::is_bounded;
use crate::verdict::Verdict;
use bound_certificate::{Certificate, Section, TreeLine};
use customer_sets::Pairs;
use instance_reader::Instance;
use std::alloc::{AllocError, Global};

/// The first broken rule of the leaves, if there is one.
///
/// Goes along the lines of the tree in preorder. It keeps the allowed pairs of each subtree whose
/// lines are still to come, the next one last.
pub(crate) fn leaf_fault(
    alloc: Global,
    inst: &Instance,
    cert: &Certificate,
) -> Result<Option<Verdict>, AllocError>
    requires few { length (customer_nodes inst.now) ≤ most_customers }
    requires fits { Fits inst.now cert.now }
    ensures { IfOk result (TellsFirst (LeafHolds (priced_sections cert.now.sections) cert.now.bound)
        (IsLeafFault (priced_sections cert.now.sections) cert.now.bound)
        (leaves_along (any_pair ∷ []) cert.now.tree)) }
{
    let sections = cert.sections.as_slice();
    let lines = cert.tree.as_slice();
    let mut subtrees = Vec::new(alloc);
    subtrees.push(Pairs::new(inst.customers().len()))?;
    let mut leaf = 0;
    for line in lines {
        let Some(pairs) = subtrees.pop() else {
            return Ok(None);
        };
        match *line {
            TreeLine::Split { i, j } => open_children(&mut subtrees, pairs, i, j)?,
            TreeLine::Leaf { section } => {
                if let Some(fault) = fault_at(leaf, &pairs, &sections[section], cert.bound) {
                    return Ok(Some(fault));
                }
                leaf += 1;
            }
        }
    }
    Ok(None)
}

/// Opens the two subtrees of a split, where these pairs are forbidden above it: first comes the one
/// that forbids the split's pair, and then the one that requires it.
fn open_children(
    subtrees: &mut Vec<Pairs>,
    pairs: Pairs,
    i: usize,
    j: usize,
) -> Result<(), AllocError>
    requires first { (0 < i) × (i ≤ pairs.customers) }
    requires second { (0 < j) × (j ≤ pairs.customers) }
    requires apart { i ≢ j }
    ensures { OnOk result ((apart : ForbiddenPairs) × (together : ForbiddenPairs)
        × (subtrees.new.items ≡ subtrees.old.items ++ together ∷ apart ∷ [])
        × AreChildren pairs.customers i j pairs apart together) }
{
    let mut apart = pairs;
    apart.forbid(i, j);
    let mut together = pairs;
    together.require(i, j);
    subtrees.push(together)?;
    subtrees.push(apart)?;
    Ok(())
}

/// The first rule that a section breaks at a leaf where these pairs are forbidden, if it breaks
/// one.
fn fault_at(leaf: usize, pairs: &Pairs, section: &Section, bound: Option<u128>) -> Option<Verdict>
    requires customers { section.now.pairs.customers ≡ pairs.now.customers }
    requires few { length section.now.prices ≤ 128 }
    requires small { All IsPrice section.now.prices }
    requires bound { IfSome bound (λ b. b ≤ greatest_bound) }
    ensures told { Tells (HoldsUnder bound (priced_section section.now))
        (IsBrokenUnder bound (priced_section section.now)) leaf (allows_of pairs.now) result }
    ensures pairs { IsPairs section.now.pairs }
{
    if !allows_each(section, pairs) {
        return Some(Verdict::Pairs { leaf });
    }
    if !is_bounded(section.weight, section.prices.as_slice(), bound) {
        return Some(Verdict::Bound { leaf });
    }
    None
}

/// Whether a section forbids no pair that is allowed among as many customers.
fn allows_each(section: &Section, pairs: &Pairs) -> bool
    requires { section.now.pairs.customers ≡ pairs.now.customers }
    ensures each { IsTrue result ↔ AllowsEach (allows_of pairs.now) (priced_section section.now) }
    ensures pairs { IsPairs section.now.pairs }
{
    section.pairs.customers() == pairs.customers() && section.pairs.within(pairs)
}
