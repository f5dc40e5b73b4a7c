//! The text of trees over near sections, which are proofs of lower bounds, both ways, and of a
//! verdict on one; and one value for a proof of a bound of either kind, by near routes or by a
//! tree.
#![tactic(auto)]

mod bounds;
mod customers;
mod laws;
mod reading;
mod verdict;
mod ways;
mod writing;

pub use bounds::{
    BoundProof, BoundText, BoundVerdict, a_shown_bound_is_true,
    accepted_bound_proofs_break_no_rule, bound_proofs_are_read, bound_texts_mean_one_proof,
    check_bound_proof, proofs_have_no_fault, push_bound_proof, push_bound_verdict,
    read_bound_proof,
};
pub use certificate_parts::CertText;
pub use laws::{
    texts_mean_one_tree, texts_spell_trees, tree_faults_are_first, written_trees_are_read,
};
pub use reading::read_tree;
pub use verdict::push_tree_verdict;
pub use writing::push_tree;
