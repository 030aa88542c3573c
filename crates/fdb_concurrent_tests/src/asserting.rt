use std::fmt::Debug;
use std::process::Abort;

/// The test fails where it isn't what is wanted. As a call it costs the prover a third of what an assertion costs.
pub fn same<T: PartialEq + Debug + Drop>(rt: &impl Abort, given: T, wanted: T) {
    assert_eq!(rt; given, wanted);
}
