//! What the tests of several crates make and ask. It is no part of the product.
#![tactic(auto)]

mod asking;
mod making;
mod proxying;
mod random;

pub use asking::{
    after, ask, ask_both, ask_mut, both, code_of, coded, equals_copy, is_done, made_of, numbers_of,
    refusal_of,
};
pub use making::{
    Splits, apply, are_pairs, are_ranges, filled, has_bounds, keys_of, legal_set, one_key, one_set,
    push, rising_keys, seal, set_of, shared, splits_of, text_of,
};
pub use proxying::{count_config, placed, split_config};
pub use random::Random;
