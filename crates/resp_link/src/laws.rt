//! Laws of a link's calls.
ghost use Rattle.resp_link.specs.Promised.{FaultsHaveACause};
ghost use Rattle.resp_link.specs.TwoCalls.{RefusedSendsAreRefusedCalls, TwoCallsAreOne};

/// Over devices that promise to refuse nothing a call is refused only where the link was closed, the
/// bytes end or are faulty, 2^32 reads gave too few, or memory was refused.
pub fn faults_have_a_cause()
    ensures { FaultsHaveACause }
{}

/// Sending bytes and then taking their replies is one call that does both.
pub fn two_calls_are_one()
    ensures { TwoCallsAreOne }
{}

/// A sending that is refused is a call that is refused.
pub fn refused_sends_are_refused_calls()
    ensures { RefusedSendsAreRefusedCalls }
{}
