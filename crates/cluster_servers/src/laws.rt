//! What the fates mean that a proxy is told of its commands.
ghost use Rattle.cluster_servers.specs.Asked.{FatesOfOneCommand, FatesOfSeveral};

/// Of each command of a batch that went out as one pipeline its fate is what the log shows: where it was sent
/// on it was not done.
pub fn fates_of_several()
    ensures { FatesOfSeveral }
{}

/// A command that was asked by itself is told as not asked only where nothing was sent for it, and never as
/// sent on.
pub fn fates_of_one_command()
    ensures { FatesOfOneCommand }
{}
