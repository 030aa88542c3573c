//! Tests of keys, mutations, transactions, books, owners and clients by their public calls alone. It is no part of the
//! product.
#![tactic(auto)]

#[cfg(test)]
mod asserting;
#[cfg(test)]
mod books;
#[cfg(test)]
mod clients;
#[cfg(test)]
mod intervals;
#[cfg(test)]
mod keys;
#[cfg(test)]
mod mutations;
#[cfg(test)]
mod owning;
#[cfg(test)]
mod transactions;
