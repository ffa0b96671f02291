//! What is left of a farm that is closed.

ghost use Rattle.std.specs.Prelude.{◌≡◌, ◌+◌, ◌≤◌, ◌++◌, [], true, map, length, All};
ghost use Rattle.std.specs.Vec.{vec_len, vec_capacity};
ghost use Rattle.pf_quota.specs.declared.refusals.TheConstants.{MOST_CALLS};
ghost use Rattle.pf_desks.specs.Calls.{calls_in};
ghost use Rattle.pf_desks.specs.History.{IsLegalDesk};
ghost use Rattle.pf_desks.specs.Desks.{desk_at};
ghost use Rattle.pf_book.specs.Profile.{ForRight};
ghost use Rattle.pf_farm_accounts.specs.Places.{AreAmong};
ghost use Rattle.pf_farm_accounts.specs.Receipts.{gathering_of};
ghost use Rattle.pf_farm_state.specs.Clients.{all_receipts, closed_as, AreFull, AreLegal, IsLogged};

use crate::client::{ClientSeat, ClosedSeat};
use crate::look::TrialLook;
use pf_book::{Book, Reply};
use pf_farm_accounts::{ClaimRow, FarmNames, Gathering, LookLog};
use pf_request::Call;
use pf_sched::Job;

/// What is left of a farm that is closed: what each client was answered, all claims with their ends, the desks of all
/// projects, and whether the farm was stopped.
#[derive(Drop)]
pub struct Closing {
    pub seats: Vec<ClosedSeat>,
    pub rows: Vec<ClaimRow<Job>>,
    pub book: Book,
    pub stopped: bool,
}

impl Closing {
    /// How many things the history of a project notes. It is legal: replayed on an empty desk it gives the desk, and
    /// its own replies.
    pub fn note_count(&self, project: u32) -> usize
        ensures count { result ≡ length (desk_at project self.now.book).history }
        ensures legal { ForRight (λ p. IsLegalDesk p (desk_at project self.now.book)) }
    {
        self.book.note_count(project)
    }

    /// Looks up the desk of each seat's project, whose history is legal.
    pub fn look_up(&self)
        ensures { ForRight (λ p. AreLegal p self.now.seats.items self.now.book) }
    {
        'seats: for seat in &self.seats {
            self.note_count(seat.reported.project);
        }
    }

    /// How many calls the history of a project notes.
    pub fn call_count(&self, project: u32) -> u64
        ensures { result ≡ calls_in (desk_at project self.now.book).history }
    {
        self.book.call_count(project)
    }
}

/// Closes the seats of all clients. It takes no memory, but the room that was made for them.
pub(crate) fn close<N: FarmNames>(
    book: &Book,
    gathering: &mut Gathering<N, Call, Reply>,
    looks: &mut LookLog<N, TrialLook>,
    clients: Vec<ClientSeat<N>>,
    closed: Vec<ClosedSeat>,
) -> Vec<ClosedSeat>
    requires logged { ForRight (λ p. IsLogged gathering.old.log book.now) }
    requires none { gathering.old.receipts ≡ [] }
    requires room { (closed.items ≡ []) × (vec_len clients ≤ vec_capacity closed) }
    ensures seats { map closed_as result.items ≡ clients.items }
    ensures gathered { gathering.new ≡ gathering_of gathering.old.log (all_receipts result.items)
        (gathering.old.parts + vec_len clients) }
    ensures full { ForRight (λ p. AreFull result.items book.now) }
    ensures among { All (λ s. AreAmong s.looks looks.old) result.items }
    ensures same { looks.new ≡ looks.old }
{
    let mut closed = closed;
    for client in clients {
        closed.push_reserved(close_one(book, gathering, looks, client));
    }
    closed
}

/// Closes the seat of a client.
fn close_one<N: FarmNames>(
    book: &Book,
    gathering: &mut Gathering<N, Call, Reply>,
    looks: &mut LookLog<N, TrialLook>,
    client: ClientSeat<N>,
) -> ClosedSeat
    requires { ForRight (λ p. IsLogged gathering.old.log book.now) }
    ensures seat { closed_as result ≡ client }
    ensures gathered { gathering.new ≡ gathering_of gathering.old.log
        (gathering.old.receipts ++ result.reported.receipts.items) (gathering.old.parts + 1) }
    ensures full { ForRight (λ p. result.is_full ≡ true
        → calls_in (desk_at result.reported.project book.now).history ≡ MOST_CALLS) }
    ensures among { AreAmong result.looks looks.old }
    ensures same { looks.new ≡ looks.old }
{
    let ClientSeat {
        seat,
        looks: seen,
        is_full,
    } = client;
    book.note_count(seat.project());
    ClosedSeat {
        reported: gathering.add(seat),
        looks: looks.close(seen),
        is_full,
    }
}
