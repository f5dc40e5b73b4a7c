//! A leaf under judgement.

use crate::site::Site;
use customer_sets::LargeSet;
use label_index::Entry;

/// A leaf with its tables: by lasts, who may come next and for whom they stand; and the entries of
/// its labels.
#[derive(Clone, Copy)]
pub(crate) struct Judge<'a> {
    pub(crate) site: Site<'a>,
    pub(crate) may: &'a [LargeSet],
    pub(crate) stands: &'a [LargeSet],
    pub(crate) entries: &'a [Entry<()>],
}
