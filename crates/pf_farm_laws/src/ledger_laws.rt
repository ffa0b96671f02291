//! Laws of the definitions: functions with empty bodies, whose contracts are the laws.

ghost use Rattle.pf_request.specs.Calls.{Call};
ghost use Rattle.pf_desks.specs.Desk.{Reply};
ghost use Rattle.pf_farm_laws.specs.Gone.{DropsAreNoted};
ghost use Rattle.pf_farm_laws.specs.Points.{ReceiptsAreOfOwnCalls, RepliesHaveTheirPoints};

/// Drops: at every desk whose history is legal, a trial that was ordered and isn't held any more was dropped, and the
/// drop is noted after all claims of it.
pub fn drops_are_noted()
    ensures { DropsAreNoted }
{}

/// Points: the reply of each receipt was given at one point of the legal history of its own project, in which no other
/// project occurs: an empty desk, after what is noted before that point, gives that reply to that call, and no other
/// call of the history has its number. No two receipts are of one call.
///
/// It is so of a farm that is closed. That these are the receipts of the calls that the histories note says the clause
/// `receipts` of `Farm::close` of `pf_farm`, by how its calls and replies are seen, and that each history is legal the
/// clause `legal` of `Closing::note_count` of `pf_farm_state`.
pub fn replies_have_their_points<C, A>()
    ensures points { (call : C → Call) (reply : A → Reply) → RepliesHaveTheirPoints call reply }
    ensures own { (call : C → Call) (reply : A → Reply) → ReceiptsAreOfOwnCalls call reply }
{}
