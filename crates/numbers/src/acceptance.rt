//! Acceptance as a test: what the definitions that runs are described by compute with.
ghost use Rattle.numbers.specs.Acceptance.{AcceptanceTested};

/// The test for acceptable values says just which values are a factor's and lie in the window.
pub fn acceptance_is_tested()
    ensures law { AcceptanceTested }
{}
