//! Whether lines are those of one whole tree, and each is in its ranges.

ghost use Rattle.std.specs.Prelude.{◌≡◌, ◌↔◌, ◌<◌, ◌^◌, IsTrue};
ghost use Rattle.std.specs.List.{All};
ghost use Rattle.bound_certificate.specs.Ranges.{IsCustomerPlace, LineFits};
ghost use Rattle.bound_certificate.specs.Trees.{Closes, IsWholeTree, open_behind};

use crate::certificate::TreeLine;

/// Whether the lines are those of one whole tree in preorder.
pub(crate) fn is_whole_tree(lines: &[TreeLine]) -> bool
    ensures { IsTrue result ↔ IsWholeTree lines.now }
{
    closes(lines)
}

/// Whether the one tree that is open before the lines is closed by the last of them, and not
/// before.
fn closes(lines: &[TreeLine]) -> bool
    ensures { IsTrue result ↔ Closes 1 lines.now }
{
    let mut trees = 1u128;
    for line in lines {
        if trees == 0 {
            return false;
        }
        trees = open_behind(*line, trees);
    }
    trees == 0
}

/// How many trees are open behind a line, of those that are open before it.
pub(crate) fn open_behind(line: TreeLine, trees: u128) -> u128
    requires some { 0 < trees }
    requires small { trees < 2 ^ 127 }
    ensures { result ≡ open_behind line trees }
{
    match line {
        TreeLine::Leaf { .. } => trees - 1,
        TreeLine::Split { .. } => trees + 1,
    }
}

/// Whether each line is in its ranges.
pub(crate) fn lines_fit(customers: usize, sections: usize, lines: &[TreeLine]) -> bool
    ensures { IsTrue result ↔ All (LineFits customers sections) lines.now }
{
    for line in lines {
        if !line_fits(customers, sections, *line) {
            return false;
        }
    }
    true
}

/// Whether a split is on two different customers, and a leaf names one of the sections.
fn line_fits(customers: usize, sections: usize, line: TreeLine) -> bool
    ensures { IsTrue result ↔ LineFits customers sections line }
{
    match line {
        TreeLine::Split { i, j } => {
            is_customer_place(customers, i) && is_customer_place(customers, j) && i != j
        }
        TreeLine::Leaf { section } => section < sections,
    }
}

/// Whether the place is that of a customer.
fn is_customer_place(customers: usize, place: usize) -> bool
    ensures { IsTrue result ↔ IsCustomerPlace customers place }
{
    1 <= place && place <= customers
}
