//! Who is remembered after serving a customer.

ghost use Rattle.std.specs.Prelude.{◌≡◌, ◌<◌, ◌||◌, ◌&&◌, ℕ, All, IfOk, nat_eq};
ghost use Rattle.customer_sets.specs.CustSet.{has};
ghost use Rattle.near_proof.specs.Members.{AreMembers};

use customer_sets::CustSet;
use instance_reader::MOST_CUSTOMERS;
use std::alloc::{AllocError, Global};

/// The customer, and those remembered before who are in the customer's near set.
pub fn remembered(memory: CustSet, near: CustSet, customer: usize) -> CustSet
    requires { customer < 128 }
    ensures { (c : ℕ) → has result c ≡ (nat_eq customer c || (has memory c && has near c)) }
{
    if memory.is_subset(near) {
        return memory.with(customer);
    }
    common(memory, near).with(customer)
}

/// The customers who are in both sets.
fn common(one: CustSet, other: CustSet) -> CustSet
    ensures { (c : ℕ) → has result c ≡ (has one c && has other c) }
{
    if one.len() == 0 {
        return one;
    }
    let mut both = CustSet::empty();
    for c in 0..MOST_CUSTOMERS {
        if one.has(c) && other.has(c) {
            both = both.with(c);
        }
    }
    both
}

/// The members of a set, one by one.
pub(crate) fn members_of(alloc: Global, set: CustSet) -> Result<Vec<usize>, AllocError>
    ensures { IfOk result (λ members. AreMembers members.items set) }
{
    let mut members = Vec::with_capacity(alloc, set.len())?;
    for c in 0..MOST_CUSTOMERS {
        if set.has(c) {
            members.push(c)?;
        }
    }
    Ok(members)
}

/// The same as [`remembered`], where the members of the memory are known.
pub(crate) fn remembered_among(
    memory: CustSet,
    members: &[usize],
    near: CustSet,
    customer: usize,
) -> CustSet
    requires customer { customer < 128 }
    requires members { AreMembers members.now memory }
    ensures { (c : ℕ) → has result c ≡ (nat_eq customer c || (has memory c && has near c)) }
{
    if memory.is_subset(near) {
        return memory.with(customer);
    }
    shared(members, near).with(customer)
}

/// The customers who are in a set.
fn shared(customers: &[usize], set: CustSet) -> CustSet
    requires { All (λ c. c < 128) customers.now }
    ensures { (c : ℕ) → has result c ≡ (has customers.now c && has set c) }
{
    let mut both = CustSet::empty();
    for c in customers {
        if set.has(*c) {
            both = both.with(*c);
        }
    }
    both
}
