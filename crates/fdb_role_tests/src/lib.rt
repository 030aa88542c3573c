//! Tests of the roles by their public calls alone: resolvers, the sequencer, logs, shards and proxies; and the law of
//! layers, at one. It is no part of the product.
#![tactic(auto)]

#[cfg(test)]
mod asserting;
#[cfg(test)]
mod growths;
#[cfg(test)]
mod layers;
#[cfg(test)]
mod logs;
#[cfg(test)]
mod proxies;
#[cfg(test)]
mod resolving;
#[cfg(test)]
mod sequencing;
#[cfg(test)]
mod storage;
