//! Laws of the definitions. Each is the contract of a function without parameters and code.

ghost use Rattle.std.specs.Prelude.{◌≡◌};
ghost use Rattle.check_states.specs.declared.flapping.TheConstants.{STORED_RESULTS};

/// The number of an object's stored results: 21, between which there are 20 changes. (Our own profile.)
pub fn stored_results_limit()
    ensures { STORED_RESULTS ≡ 21 }
{}
