// What a layer's transactions keep, the run keeps, at a layer.
ghost use Rattle.fdb_roles.specs.LayerExamples.{Agree, IsSettingBoth};

use fdb_roles::laws::worked_layers;
use fdb_roles::{Layer, a_book_keeps_what_each_transaction_keeps};

// The same stands at two keys, since each transaction sets both.
struct SameAtBoth;

impl Layer for SameAtBoth {
    ghost allows = { IsSettingBoth };

    ghost holds = { Agree };

    fn starts() {}

    fn keeps() {
        worked_layers();
    }
}

#[test]
fn what_each_transaction_keeps_a_book_keeps() {
    a_book_keeps_what_each_transaction_keeps::<SameAtBoth>();
}
