//! A farm with its gate and its clients, from its opening to its end.

ghost use Rattle.std.specs.Prelude.{◌≡◌, ◌<◌, ◌≤◌, IfOk, Some, length, vec_len};
ghost use Rattle.pf_farm.specs.Farms.{opened_farm};
ghost use Rattle.pf_farm.specs.Seats.{AllIdle, IsRing};

use crate::missed::Missed;
use crate::waiting::GateMark;
use pf_errors::OrNoMemory;
use pf_farm::{
    Blanks, ClientSeat, Closing, Farm, Floor, Gate, MOST_SEATS, NoSeat, OpenFarm, WorkSeat,
    work_all,
};
use pf_farm_accounts::{FarmNames, NewRegister};
use std::alloc::Global;
use std::hash::RandomState;
use std::marker::Brand;
use std::sync::Wait;
use std::sync::ledger::Blank;
use std::test::Fail;
use std::thread::{Threads, for_each_mut, join_mut};

/// What each client of a farm does, in a thread of its own, and what is at the gate meanwhile. A client ends whatever
/// happens.
pub(crate) trait Scene: Gate + Sync {
    fn client<N: FarmNames, R: Wait>(
        &self,
        alloc: Global,
        rt: &R,
        floor: &Floor<N>,
        seat: &mut ClientSeat<N>,
    ) -> Result<(), Missed>;
}

/// A seat for a client of each of these projects.
pub(crate) fn seated<N: FarmNames>(
    alloc: Global,
    farm: &mut Farm<N>,
    floor: &mut Floor<N>,
    projects: &[u32],
) -> Result<Vec<ClientSeat<N>>, Missed>
    requires none { farm.old.given ≡ 0 }
    requires few { length projects.now ≤ MOST_SEATS }
    ensures seats { IfOk result (λ v. vec_len v ≡ length projects.now) }
    ensures given { IfOk result (λ v. farm.new ≡ opened_farm farm.old.workers (length projects.now)) }
{
    let mut seats = Vec::new(alloc);
    'projects: for project in projects {
        match farm.seat(floor, alloc, *project) {
            Ok(seat) => seats.push(seat)?,
            Err(OrNoMemory::Fault(NoSeat)) => return Err(Missed::that("no seat is left")),
            Err(OrNoMemory::NoMemory) => return Err(Missed::that("memory ran out")),
        }
    }
    Ok(seats)
}

/// Has one client do its part. If it fails, the farm stops, so that nobody waits for what won't come.
fn client_plays<N: FarmNames, R: Wait, S: Scene>(
    alloc: Global,
    rt: &R,
    floor: &Floor<N>,
    scene: &S,
    failed: &GateMark,
    seat: &mut ClientSeat<N>,
) {
    if scene.client(alloc, rt, floor, seat).is_err() {
        failed.set();
        floor.stop(rt);
    }
}

/// Has all clients do their parts side by side. Then the farm stops.
fn clients_play<N: FarmNames + Send + Sync, R: Threads + Wait + Sync, S: Scene>(
    alloc: Global,
    rt: &R,
    floor: &Floor<N>,
    scene: &S,
    failed: &GateMark,
    seats: &mut [ClientSeat<N>],
)
    requires { 0 < length seats.old }
    ensures { length seats.new ≡ length seats.old }
{
    let count = seats.len();
    for_each_mut(
        rt,
        seats,
        count,
        &move |_, seat| client_plays(alloc, rt, floor, scene, failed, seat),
    );
    floor.stop(rt);
}

/// Has all workers work side by side.
fn workers_play<N: FarmNames + Send + Sync, R: Threads + Wait + Sync, S: Scene>(
    alloc: Global,
    rt: &R,
    floor: &Floor<N>,
    scene: &S,
    seats: &mut [WorkSeat<N>],
)
    requires some { 0 < length seats.old }
    requires idle { AllIdle seats.old }
    ensures len { length seats.new ≡ length seats.old }
    ensures ring { IsRing seats.old → IsRing seats.new }
    ensures idle { AllIdle seats.new }
{
    work_all(alloc, rt, floor, seats, scene);
}

/// Has workers and clients work side by side.
fn all_play<'a, N: FarmNames + Send + Sync, R: Threads + Wait + Sync, S: Scene>(
    alloc: Global,
    rt: &'a R,
    floor: &'a Floor<N>,
    scene: &'a S,
    failed: &'a GateMark,
    clients: &'a mut [ClientSeat<N>],
    seats: &'a mut [WorkSeat<N>],
)
    requires some { (0 < length clients.old) × (0 < length seats.old) }
    requires idle { AllIdle seats.old }
    ensures clients { length clients.new ≡ length clients.old }
    ensures seats { length seats.new ≡ length seats.old }
    ensures ring { IsRing seats.old → IsRing seats.new }
    ensures idle { AllIdle seats.new }
{
    let mut work = ||
        requires { (0 < length seats.now) × AllIdle seats.now }
        ensures len { length seats.exit.now ≡ length seats.entry.now }
        ensures ring { IsRing seats.entry.now → IsRing seats.exit.now }
        ensures idle { AllIdle seats.exit.now }
    { workers_play(alloc, rt, floor, scene, seats) };
    let mut play = ||
        requires { 0 < length clients.now }
        ensures { length clients.exit.now ≡ length clients.entry.now }
    { clients_play(alloc, rt, floor, scene, failed, clients) };
    join_mut(rt, &mut work, &mut play);
}

/// Plays a scene with so many workers, and a client of each of these projects; what is left of the farm.
fn play_by<N: FarmNames + Send + Sync, R: Threads + Wait + Sync, S: Scene>(
    alloc: Global,
    rt: &R,
    keys: RandomState,
    blanks: Blanks,
    workers: usize,
    projects: &[u32],
    scene: &S,
) -> Result<Closing, Missed>
    requires opened { (blanks.opened.name ≡ N.opened) × (blanks.opened.parts ≡ N.workers) }
    requires ended { (blanks.ended.name ≡ N.ended) × (blanks.ended.parts ≡ N.workers) }
    requires calls { (blanks.calls.name ≡ N.calls) × (blanks.calls.parts ≡ N.seats) }
    requires claims { N.claims ≡ Some blanks.claims }
    requires receipts { N.receipts ≡ Some blanks.receipts }
    requires looks { N.looks ≡ Some blanks.looks }
    requires workers { (0 < workers) × (workers < N.workers) }
    requires seats { MOST_SEATS < N.seats }
    requires few { (0 < length projects.now) × (length projects.now ≤ MOST_SEATS) }
{
    let OpenFarm {
        mut farm,
        mut floor,
        mut seats,
    } = Farm::<N>::open(alloc, keys, blanks, workers)?;
    let mut clients = seated(alloc, &mut farm, &mut floor, projects)?;
    let failed = GateMark::new();
    all_play(alloc, rt, &floor, scene, &failed, &mut clients, &mut seats);
    let closing = farm.close(floor, clients, seats);
    if failed.count() > 0 {
        return Err(Missed::that("a client failed"));
    }
    Ok(closing)
}

/// Unused ledgers and registers for a farm of at most 64 workers and 4,096 seats.
pub(crate) fn blanks(alloc: Global) -> Result<Blanks, Fail>
    ensures { IfOk result (λ b. (b.opened.parts ≡ 65) × (b.ended.parts ≡ 65) × (b.calls.parts ≡ 4_097)) }
{
    Ok(Blanks {
        opened: Blank::new(65),
        ended: Blank::new(65),
        calls: Blank::new(4_097),
        claims: NewRegister::new(alloc)?,
        receipts: NewRegister::new(alloc)?,
        looks: NewRegister::new(alloc)?,
    })
}

/// Plays a scene.
pub(crate) fn play<R: Threads + Wait + Sync, S: Scene>(
    alloc: Global,
    rt: &R,
    keys: RandomState,
    workers: usize,
    projects: &[u32],
    scene: &S,
) -> Result<Closing, Fail>
    requires workers { (0 < workers) × (workers < 65) }
    requires few { (0 < length projects.now) × (length projects.now ≤ MOST_SEATS) }
{
    let blanks = blanks(alloc)?;
    match play_by::<Brand, R, S>(alloc, rt, keys, blanks, workers, projects, scene) {
        Ok(closing) => Ok(closing),
        Err(missed) => Err(Fail::from(missed.what)),
    }
}
