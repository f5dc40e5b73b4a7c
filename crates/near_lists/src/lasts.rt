//! Whom a vehicle served last, by its class. No clause rests on this.

use near_completion::{Last, NearTerms};
use near_tree::LastServed;
use std::alloc::{AllocError, Global};

/// For each class somebody after whom a vehicle of the class comes: anybody, if it may be.
pub(crate) fn lasts(alloc: Global, terms: &NearTerms) -> Result<Vec<LastServed>, AllocError> {
    let mut lasts = vec![in alloc; LastServed::Anybody; terms.classes()]?;
    for customer in 0..terms.customers() {
        let class = terms.class_of(Last::Customer(customer));
        put(&mut lasts, class, LastServed::Customer(customer));
    }
    put(&mut lasts, terms.class_of(Last::Nobody), LastServed::Nobody);
    put(
        &mut lasts,
        terms.class_of(Last::Anybody),
        LastServed::Anybody,
    );
    Ok(lasts)
}

/// Puts somebody at a class.
fn put(lasts: &mut [LastServed], class: usize, last: LastServed) {
    if let Some(own) = lasts.get_mut(class) {
        *own = last;
    }
}
