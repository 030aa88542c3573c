//! Tests of a running database by its public calls alone. It is no part of the product.
#![tactic(auto)]

#[cfg(test)]
mod asserting;
#[cfg(test)]
mod commits;
#[cfg(test)]
mod layer_calls;
#[cfg(test)]
mod reads;
#[cfg(test)]
mod sessions;
#[cfg(test)]
mod sizes;
#[cfg(test)]
mod stamps;
#[cfg(test)]
mod window_changes;
#[cfg(test)]
mod windows;
