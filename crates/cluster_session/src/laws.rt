//! Laws of what a session prints.
ghost use Rattle.cluster_session.specs.OneText.{OneText};
ghost use Rattle.cluster_session.specs.OnlyFaults.{OnlyFaults};

/// Wherever memory is there, two runs of one session without a `fault` line print the same text.
pub fn one_text()
    ensures { OneText }
{}

/// Over each link of a session only the read and the write are refused that a `fault` line names for
/// its node, apart from a write that finds no room in memory. So without such a line none is, and a
/// line for one read or write makes no other fail.
pub fn only_faults_are_refused()
    ensures { OnlyFaults }
{}
