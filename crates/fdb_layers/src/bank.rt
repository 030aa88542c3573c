ghost use Rattle.fdb_layers.specs.Bank.{IsOfBank, IsBalanced};

use fdb_roles::Layer;

/// A bank of a few accounts. A transaction pays an amount from one account to another, or only reads. The sum of all
/// accounts stays what it was from the start.
pub struct Transfers;

impl Layer for Transfers {
    ghost allows = { IsOfBank };

    ghost holds = { IsBalanced };

    fn starts() {}

    fn keeps() {}
}
