//! Tests of the world of all roles by its public calls alone. It is no part of the product.
#![tactic(auto)]

#[cfg(test)]
mod asserting;
#[cfg(test)]
mod worlds;
