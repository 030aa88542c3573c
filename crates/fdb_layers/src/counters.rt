ghost use Rattle.fdb_layers.specs.Counters.{IsOfCounters, AreEqual};

use fdb_roles::Layer;

/// Two counters. A transaction adds the same number to both, whatever they hold, or only reads. Both have the same
/// value.
pub struct EqualCounters;

impl Layer for EqualCounters {
    ghost allows = { IsOfCounters };

    ghost holds = { AreEqual };

    fn starts() {}

    fn keeps() {}
}
