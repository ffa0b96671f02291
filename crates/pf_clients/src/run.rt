//! A farm of workers and clients, from its opening to its end.

ghost use Rattle.std.specs.Prelude.{◌≡◌, ◌<◌, ◌≤◌, [], map, All, IfErr, IfOk, OnErr, OnOk, None, Some, length};
ghost use Rattle.std.specs.Prelude.{vec_capacity, vec_len};
ghost use Rattle.std.specs.Bool.{OnTrue};
ghost use Rattle.pf_farm_state.specs.Clients.{empty_client};
ghost use Rattle.pf_clients.specs.Farms.{answers_of, FarmLeaves, FarmPrints};
ghost use Rattle.pf_clients.specs.Faults.{CountsFault};
ghost use Rattle.pf_clients.specs.Served.{IsNew, IsServed};
ghost use Rattle.pf_clients.specs.Pairs.{EachTwo};
ghost use Rattle.pf_farm.specs.Farms.{opened_farm};
ghost use Rattle.pf_farm.specs.Seats.{AllIdle, IsRing};

use crate::client::Client;
use crate::end::FileEnd;
use crate::reported::{ClientAnswers, write_all};
use crate::start::FarmStart;
use crate::streams::Source;
use crate::watch::Watch;
use pf_errors::{NoMemory, OrNoMemory};
use pf_farm::{
    Blanks, ClientSeat, Farm, Floor, Gate, MOST_SEATS, NoSeat, OpenFarm, WorkSeat, work_all,
};
use pf_farm_accounts::FarmNames;
use pf_streams::{Counted, StreamFault};
use std::alloc::Global;
use std::hash::RandomState;
use std::io::{Error, ErrorKind, Write};
use std::sync::Wait;
use std::sync::ledger::Ledger;
use std::thread::{Threads, for_each_mut, join_mut};
use std::time::Clock;

/// What a farm leaves: how what it kept was printed, and the writers of its clients, in their order.
#[derive(Drop)]
pub struct FarmEnd<W> {
    /// 2 if a line was no command or a reply can't be written, and else 0.
    pub status: Result<u8, OrNoMemory<StreamFault>>,
    pub replies: Vec<Option<W>>,
}

/// Has so many workers and a client for each source work on one farm, source k, counted from 1, being that of project
/// k, each in a thread of its own. A client opens its streams; each answer goes to its writer before the client's next
/// line is done, or is kept where it has none. Then what was kept is written, client by client. A line that is no
/// command ends its client's lines, and so does a reply that can't be written. No farm begins where memory runs out
/// first.
pub fn run_farm<
    N: FarmNames + Send + Sync,
    V: Write + Send + Drop,
    S: Source<Replies = V> + Send + Drop,
    W: Write,
    M: Ledger,
    T: Threads + Wait + Clock + Sync,
    G: Gate + Watch + Sync,
>(
    alloc: Global,
    rt: &T,
    keys: RandomState,
    blanks: Blanks,
    workers: usize,
    sources: Vec<S>,
    gate: &G,
    writer: &mut Counted<W, M>,
) -> Result<FarmEnd<V>, NoMemory>
    requires opened { (blanks.opened.name ≡ N.opened) × (blanks.opened.parts ≡ N.workers) }
    requires ended { (blanks.ended.name ≡ N.ended) × (blanks.ended.parts ≡ N.workers) }
    requires calls { (blanks.calls.name ≡ N.calls) × (blanks.calls.parts ≡ N.seats) }
    requires claims { N.claims ≡ Some blanks.claims }
    requires receipts { N.receipts ≡ Some blanks.receipts }
    requires looks { N.looks ≡ Some blanks.looks }
    requires workers { (0 < workers) × (workers < N.workers) }
    requires seats { MOST_SEATS < N.seats }
    requires sources { (0 < vec_len sources) × (vec_len sources ≤ MOST_SEATS) }
    ensures answered { IfOk result (λ end. IfOk end.status (λ status. FarmPrints (λ k. S.gives) (λ k. S.lacks)
        S.File.remaining V.contents sources.items end.replies.items status
        (W.contents writer.old.inner) (W.contents writer.new.inner))) }
    ensures fault { IfOk result (λ end. IfErr end.status (λ e. FarmLeaves (λ k. S.gives) (λ k. S.lacks)
        S.File.remaining V.contents sources.items end.replies.items e
        (W.contents writer.old.inner) (W.contents writer.new.inner)
        writer.old.failures.total writer.new.failures.total)) }
    ensures kept { IfOk result (λ end. OnOk end.status (writer.new.failures.total ≡ writer.old.failures.total)) }
    ensures counted { IfOk result (λ end. IfErr end.status (λ e.
        CountsFault e writer.old.failures.total writer.new.failures.total)) }
    ensures none { OnErr result (writer.new ≡ writer.old) }
{
    let OpenFarm {
        mut farm,
        mut floor,
        mut seats,
    } = Farm::<N>::open(alloc, keys, blanks, workers)?;
    let mut clients = seated(alloc, &mut farm, &mut floor, sources)?;
    let room = ClientSeats {
        seats: Vec::with_capacity(alloc, clients.len())?,
        answers: Vec::with_capacity(alloc, clients.len())?,
        replies: Vec::with_capacity(alloc, clients.len())?,
    };
    let start = FarmStart::new();
    let begun = serve(alloc, rt, &floor, gate, &start, &mut clients, &mut seats);
    notify_work(&seats, gate);
    let ClientSeats {
        seats: reported,
        answers,
        replies,
    } = parted(clients, room);
    let closing = farm.close(floor, reported, seats);
    closing.look_up();
    if !begun {
        let error = Error::new(ErrorKind::Other, "no thread can be started");
        gate.not_begun(&error);
        let status = Err(OrNoMemory::Fault(StreamFault::Read(error)));
        return Ok(FarmEnd { status, replies });
    }
    let status = write_all(alloc, answers, writer);
    Ok(FarmEnd { status, replies })
}

/// A client with a seat for each source.
fn seated<N: FarmNames, S: Drop, V: Drop>(
    alloc: Global,
    farm: &mut Farm<N>,
    floor: &mut Floor<N>,
    sources: Vec<S>,
) -> Result<Vec<Client<N, S, V>>, NoMemory>
    requires none { farm.old.given ≡ 0 }
    requires sources { vec_len sources ≤ MOST_SEATS }
    ensures clients { IfOk result (λ v. vec_len v ≡ vec_len sources) }
    ensures seated { IfOk result (λ v. EachTwo (λ k x c.
        (c.seat ≡ empty_client k) × (c.source ≡ Some x) × (c.replies ≡ None) × (c.reported.items ≡ []))
        1 sources.items v.items) }
    ensures new { IfOk result (λ v. All (λ c. IsNew c.seat c.replies c.reported.items) v.items) }
    ensures given { IfOk result (λ v. farm.new ≡ opened_farm farm.old.workers (vec_len sources)) }
{
    let mut clients = Vec::new(alloc);
    let mut project = 0;
    'sources: for source in sources {
        project += 1;
        let seat = match farm.seat(floor, alloc, project) {
            Ok(seat) => seat,
            Err(OrNoMemory::Fault(NoSeat)) => unreachable!(),
            Err(OrNoMemory::NoMemory) => return Err(NoMemory),
        };
        clients.push(Client {
            seat,
            source: Some(source),
            replies: None,
            reported: Vec::new(alloc),
            ended: FileEnd::Answered,
        })?;
    }
    Ok(clients)
}

/// Has all workers and all clients work side by side, until all clients are done; whether they did. Where the system
/// starts no thread beside this one, none of them works.
fn serve<
    'a,
    N: FarmNames + Send + Sync,
    V: Write + Send + Drop,
    S: Source<Replies = V> + Send + Drop,
    T: Threads + Wait + Clock + Sync,
    G: Gate + Watch + Sync,
>(
    alloc: Global,
    rt: &'a T,
    floor: &'a Floor<N>,
    gate: &'a G,
    start: &'a FarmStart,
    clients: &'a mut [Client<N, S, V>],
    seats: &'a mut [WorkSeat<N>],
) -> bool
    requires some { (0 < length clients.old) × (0 < length seats.old) }
    requires new { All (λ c. IsNew c.seat c.replies c.reported.items) clients.old }
    requires idle { AllIdle seats.old }
    ensures clients { length clients.new ≡ length clients.old }
    ensures served { OnTrue result (EachTwo (λ k c d. IsServed S.gives S.lacks S.File.remaining V.contents c.source
        d.replies c.seat.project d.seat d.reported.items d.ended) 1 clients.old clients.new) }
    ensures seats { length seats.new ≡ length seats.old }
    ensures ring { IsRing seats.old → IsRing seats.new }
    ensures idle { AllIdle seats.new }
{
    let mut work = ||
        requires { (0 < length seats.now) × AllIdle seats.now }
        ensures len { length seats.exit.now ≡ length seats.entry.now }
        ensures ring { IsRing seats.entry.now → IsRing seats.exit.now }
        ensures idle { AllIdle seats.exit.now }
    { farm_out(alloc, rt, floor, gate, start, seats) };
    let mut answer = || -> bool
        requires { (0 < length clients.now) × All (λ c. IsNew c.seat c.replies c.reported.items) clients.now }
        ensures len { length clients.exit.now ≡ length clients.entry.now }
        ensures served { OnTrue result (EachTwo (λ k c d. IsServed S.gives S.lacks S.File.remaining V.contents c.source
            d.replies c.seat.project d.seat d.reported.items d.ended) 1 clients.entry.now clients.exit.now) }
    { answer_all(alloc, rt, floor, gate, start, clients) };
    join_mut(rt, &mut work, &mut answer).1
}

/// Has all workers work, unless the clients have stopped early.
fn farm_out<N: FarmNames + Send + Sync, T: Threads + Wait + Sync, G: Gate + Sync>(
    alloc: Global,
    rt: &T,
    floor: &Floor<N>,
    gate: &G,
    start: &FarmStart,
    seats: &mut [WorkSeat<N>],
)
    requires some { 0 < length seats.old }
    requires idle { AllIdle seats.old }
    ensures len { length seats.new ≡ length seats.old }
    ensures ring { IsRing seats.old → IsRing seats.new }
    ensures idle { AllIdle seats.new }
{
    if start.begin(rt) {
        work_all(alloc, rt, floor, seats, gate);
    }
}

/// Has all clients work side by side, once the workers have begun; whether they have. Then the farm stops.
fn answer_all<
    N: FarmNames + Send + Sync,
    V: Write + Send + Drop,
    S: Source<Replies = V> + Send + Drop,
    T: Threads + Wait + Clock + Sync,
    G: Watch + Sync,
>(
    alloc: Global,
    rt: &T,
    floor: &Floor<N>,
    watch: &G,
    start: &FarmStart,
    clients: &mut [Client<N, S, V>],
) -> bool
    requires some { 0 < length clients.old }
    requires new { All (λ c. IsNew c.seat c.replies c.reported.items) clients.old }
    ensures len { length clients.new ≡ length clients.old }
    ensures served { OnTrue result (EachTwo (λ k c d. IsServed S.gives S.lacks S.File.remaining V.contents c.source
        d.replies c.seat.project d.seat d.reported.items d.ended) 1 clients.old clients.new) }
{
    let begun = start.wait(rt);
    if begun {
        answer_each(alloc, rt, floor, watch, clients);
        floor.stop(rt);
    }
    begun
}

/// Has all clients work side by side.
fn answer_each<
    N: FarmNames + Send + Sync,
    V: Write + Send + Drop,
    S: Source<Replies = V> + Send + Drop,
    T: Threads + Wait + Sync,
    G: Watch + Sync,
>(alloc: Global, rt: &T, floor: &Floor<N>, watch: &G, clients: &mut [Client<N, S, V>])
    requires some { 0 < length clients.old }
    requires new { All (λ c. IsNew c.seat c.replies c.reported.items) clients.old }
    ensures len { length clients.new ≡ length clients.old }
    ensures served { EachTwo (λ k c d. IsServed S.gives S.lacks S.File.remaining V.contents c.source
        d.replies c.seat.project d.seat d.reported.items d.ended) 1 clients.old clients.new }
{
    let count = clients.len();
    let work_one = move |_: usize, client: &mut Client<N, S, V>|
        requires { IsNew client.now.seat client.now.replies client.now.reported.items }
        ensures { IsServed S.gives S.lacks S.File.remaining V.contents client.entry.now.source
            client.exit.now.replies client.entry.now.seat.project
            client.exit.now.seat client.exit.now.reported.items client.exit.now.ended }
    { client.work(alloc, rt, floor, watch) };
    for_each_mut(rt, clients, count, &work_one);
}

/// Reports what each worker did.
fn notify_work<N: FarmNames, G: Watch>(seats: &[WorkSeat<N>], watch: &G) {
    for (worker, seat) in seats.iter().enumerate() {
        watch.worked(worker, seat.tally());
    }
}

/// The seats of clients, what was kept of their answers, and the writers of the others.
#[derive(Drop)]
struct ClientSeats<N: FarmNames, V> {
    seats: Vec<ClientSeat<N>>,
    answers: Vec<ClientAnswers>,
    replies: Vec<Option<V>>,
}

/// The clients' seats apart from what was kept of their answers and from their writers, in room that was made before.
fn parted<N: FarmNames, S: Drop, V: Drop>(
    clients: Vec<Client<N, S, V>>,
    room: ClientSeats<N, V>,
) -> ClientSeats<N, V>
    requires none { (room.seats.items ≡ []) × (room.answers.items ≡ []) × (room.replies.items ≡ []) }
    requires seats { vec_len clients ≤ vec_capacity room.seats }
    requires answers { vec_len clients ≤ vec_capacity room.answers }
    requires replies { vec_len clients ≤ vec_capacity room.replies }
    ensures len { vec_len result.seats ≡ vec_len clients }
    ensures seats { result.seats.items ≡ map (λ c. c.seat) clients.items }
    ensures answers { result.answers.items ≡ map (λ c. answers_of c.reported c.ended) clients.items }
    ensures replies { result.replies.items ≡ map (λ c. c.replies) clients.items }
{
    let ClientSeats {
        mut seats,
        mut answers,
        replies: mut writers,
    } = room;
    'clients: for client in clients {
        let Client {
            seat,
            source: _,
            replies,
            reported,
            ended,
        } = client;
        seats.push_reserved(seat);
        answers.push_reserved(ClientAnswers { reported, ended });
        writers.push_reserved(replies);
    }
    ClientSeats {
        seats,
        answers,
        replies: writers,
    }
}
