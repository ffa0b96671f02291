//! Laws of the definitions: functions with empty bodies, whose contracts are the laws. A history is of any length, and
//! workers' notes are anywhere in it. No law promises that a trial is ever filed.

ghost use Rattle.pf_farm_laws.specs.Laws.{ReportsAreMeant, NotedReportsAreMeant, SettledHistories};
ghost use Rattle.pf_farm_laws.specs.Orders.{ReportsAreOfTheirOrders};

/// Reports: at every legal desk with no file marked for memory, what a `fetch` is answered is what the job of its trial
/// means.
pub fn reports_are_meant()
    ensures { ReportsAreMeant }
{}

/// Noted reports: what a legal history with no file marked for memory notes that a `fetch` was answered is what the job
/// of its trial means, at the desk of the entries before it.
pub fn noted_reports_are_meant()
    ensures { NotedReportsAreMeant }
{}

/// Orders: the result that a `fetch` of a ticket is given is what the job means for which the order asked that was
/// given this ticket: of the source that was submitted as its module, as it is read, and of its root, property,
/// choices, limit and runs, in the edition that the desk had then. A file of another trial may bear the mark of memory.
pub fn reports_are_of_their_orders()
    ensures { ReportsAreOfTheirOrders }
{}

/// Settled: two legal desks with no file marked for memory, whose histories note the same calls in the same order, gave
/// the same replies to settled calls, however workers' notes are mixed in. A `status` is never settled, and a
/// `fetch` only if neither history notes that its trial isn't done; all other calls are.
pub fn settled_histories()
    ensures { SettledHistories }
{}
