//! The packages that can be run over recorded replies.

ghost use Rattle.replay_log.specs.Replays.{CanReplayLaw};

/// Every valid package can be run over its recorded replies. The function has no body: its contract is the
/// theorem.
pub fn can_replay_law()
    ensures { CanReplayLaw }
{}
