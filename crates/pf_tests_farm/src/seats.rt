//! How many seats a farm gives.

ghost use Rattle.std.specs.Prelude.{◌≡◌, ◌<◌, Some};

use crate::missed::Missed;
use crate::scene::{blanks, seated};
use pf_errors::OrNoMemory;
use pf_farm::{Blanks, Farm, MOST_SEATS, NoSeat, OpenFarm};
use pf_farm_accounts::FarmNames;
use std::alloc::Global;
use std::hash::RandomState;
use std::marker::Brand;
use std::test::Fail;

/// Whether a farm that gave 4,096 seats refuses one more, since no seat is left and not since memory ran out.
fn refuses_one_more<N: FarmNames>(
    alloc: Global,
    keys: RandomState,
    blanks: Blanks,
) -> Result<bool, Missed>
    requires opened { (blanks.opened.name ≡ N.opened) × (blanks.opened.parts ≡ N.workers) }
    requires ended { (blanks.ended.name ≡ N.ended) × (blanks.ended.parts ≡ N.workers) }
    requires calls { (blanks.calls.name ≡ N.calls) × (blanks.calls.parts ≡ N.seats) }
    requires claims { N.claims ≡ Some blanks.claims }
    requires receipts { N.receipts ≡ Some blanks.receipts }
    requires looks { N.looks ≡ Some blanks.looks }
    requires workers { 1 < N.workers }
    requires seats { MOST_SEATS < N.seats }
{
    let OpenFarm {
        mut farm,
        mut floor,
        seats: _,
    } = Farm::<N>::open(alloc, keys, blanks, 1)?;
    let _seats = seated(alloc, &mut farm, &mut floor, &[7; 4_096])?;
    match farm.seat(&mut floor, alloc, 7) {
        Err(OrNoMemory::Fault(NoSeat)) => Ok(true),
        Err(OrNoMemory::NoMemory) => Err(Missed::that("memory ran out")),
        Ok(_) => Ok(false),
    }
}

#[test]
fn the_seat_after_the_last_is_refused(rt: HostRuntime) -> Result<(), Fail> {
    let alloc = rt.alloc();
    let keys = RandomState::new(&rt)?;
    let blanks = blanks(alloc)?;
    match refuses_one_more::<Brand>(alloc, keys, blanks) {
        Ok(refused) => assert!(rt; refused),
        Err(missed) => return Err(Fail::from(missed.what)),
    }
    Ok(())
}
