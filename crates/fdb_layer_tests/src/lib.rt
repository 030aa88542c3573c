//! Tests of the layers of running databases, by public calls alone. It is no part of the product.
#![tactic(auto)]

#[cfg(test)]
mod asserting;
#[cfg(test)]
mod banks;
#[cfg(test)]
mod layered;
#[cfg(test)]
mod queue;
#[cfg(test)]
mod rolling;
#[cfg(test)]
mod tables;
