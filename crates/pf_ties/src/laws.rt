//! Laws of the definitions: functions with empty bodies, whose contracts are the laws.

ghost use Rattle.pf_ties.specs.Laws.{FollowActions, FollowDeliveries, FollowEnds};

/// What an action does to the ties of a core, and whether its signal is sent, is what the calls here say.
pub fn ties_follow_actions()
    ensures { FollowActions }
{}

/// So is what a delivery does, and what becomes of an exit signal.
pub fn ties_follow_deliveries()
    ensures { FollowDeliveries }
{}

/// So is what the end of a process does, and which signals are sent then.
pub fn ties_follow_ends()
    ensures { FollowEnds }
{}
