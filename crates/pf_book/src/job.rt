//! Jobs of orders.

ghost use Rattle.std.specs.Prelude.{Ok, IsSome, MatchResult, OnOk};
ghost use Rattle.pf_model.specs.Limits.{IsEdition};
ghost use Rattle.pf_desks.specs.Desk.{held_at};
ghost use Rattle.pf_book.specs.Orders.{OrderAsksFor, IsRefusedJob};

use crate::numbers::numbered;
use crate::refusal::CallRefusal;
use pf_check::ReadModule;
use pf_errors::OrNoMemory;
use pf_request::Order;
use pf_sched::Job;
use std::alloc::Global;
use std::sync::Arc;

/// The job of an order to a desk of an edition with these modules.
pub(crate) fn job_of(
    alloc: Global,
    edition: u32,
    modules: &[Option<ReadModule>],
    order: &Order,
) -> Result<Arc<Job>, OrNoMemory<CallRefusal>>
    requires edition { IsEdition edition }
    ensures asked { MatchResult result
        (λ job. OrderAsksFor edition modules.now order.now (Ok job.value))
        (IsRefusedJob (OrderAsksFor edition modules.now order.now)) }
    ensures held { OnOk result (IsSome (held_at modules.now order.now.module)) }
{
    let module = numbered(modules, order.module).ok_or(OrNoMemory::Fault(CallRefusal::NoModule))?;
    match Job::new(alloc, module.share()?, &order.request, edition) {
        Ok(job) => Ok(Arc::new(alloc, job)?),
        Err(OrNoMemory::NoMemory) => Err(OrNoMemory::NoMemory),
        Err(OrNoMemory::Fault(refusal)) => Err(OrNoMemory::Fault(CallRefusal::from(refusal))),
    }
}
