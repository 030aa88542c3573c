//! Tests of a running database whose sessions, roles and moves are in each other's way, by its public calls alone. It
//! is no part of the product.
#![tactic(auto)]

#[cfg(test)]
mod asserting;
#[cfg(test)]
mod clients;
#[cfg(test)]
mod closings;
#[cfg(test)]
mod counters;
#[cfg(test)]
mod gates;
#[cfg(test)]
mod growths;
#[cfg(test)]
mod moves;
