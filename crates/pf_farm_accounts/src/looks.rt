//! What clients saw under the farm's lock.

ghost use Rattle.std.specs.Prelude.{◌≡◌, [], ◌∷◌, ◌++◌, Some};
ghost use Rattle.pf_farm_accounts.specs.Places.{AreAmong};

use crate::knowledge::Knowledge;
use crate::{FarmNames, LookRegister, NewRegister, Register, RegisterToken};
use crossbeam_deque::Pass;
use std::marker::Model;

/// All that clients saw, in order. It lies under the farm's lock. What they saw is known to proofs alone, and takes no
/// room.
#[derive(Drop)]
pub struct LookLog<N: FarmNames, L> {
    register: Register<L, LookRegister<N>>,
}

impl<N: FarmNames, L> Model for LookLog<N, L> {
    ghost use Rattle.std.specs.Prelude.{List};

    ghost Value = { List L };

    ghost view = { λ l. l.register.0 };
}

/// What one client saw, in order.
#[derive(Drop)]
pub struct SeatLooks<N: FarmNames, L> {
    token: RegisterToken<L, LookRegister<N>>,
}

impl<N: FarmNames, L> Model for SeatLooks<N, L> {
    ghost use Rattle.std.specs.Prelude.{List, length};
    ghost use Rattle.pf_farm_accounts.specs.Places.{standing_at, AreBelow};

    ghost Value = { List L };

    ghost view = { λ s. standing_at s.token.0 s.token.1 };

    ghost invariant = { λ s. AreBelow s.token.0 (length s.token.1) };
}

/// What a client saw whose seat is closed, in order.
#[derive(Drop)]
pub struct ClosedLooks<L> {
    pass: Pass<(), Knowledge<L>>,
}

impl<L> Model for ClosedLooks<L> {
    ghost use Rattle.std.specs.Prelude.{List};
    ghost use Rattle.pf_farm_accounts.specs.Passes.{borne_by, seen_by};
    ghost use Rattle.pf_farm_accounts.specs.Places.{standing_at};

    ghost Value = { List L };

    ghost view = { λ s. standing_at (borne_by s.pass) (seen_by s.pass) };
}

impl<N: FarmNames, L> LookLog<N, L> {
    /// Nobody saw anything yet.
    pub fn new(register: NewRegister<L>) -> LookLog<N, L>
        requires { N.looks ≡ Some register }
        ensures { result ≡ [] }
    {
        LookLog {
            register: register.named::<LookRegister<N>>(),
        }
    }

    /// What a client saw that saw nothing yet.
    pub fn seat(&mut self) -> SeatLooks<N, L>
        ensures looks { result ≡ [] }
        ensures same { self.new ≡ self.old }
    {
        SeatLooks {
            token: self.register.token(),
        }
    }

    /// A client sees this. It takes no memory.
    pub fn look(&mut self, looks: &mut SeatLooks<N, L>, look: &L)
        ensures log { self.new ≡ self.old ++ look.now ∷ [] }
        ensures looks { looks.new ≡ looks.old ++ look.now ∷ [] }
    {
        self.register.enter(&mut looks.token, look);
    }

    /// Closes what a client saw, all of which is in the log.
    pub fn close(&mut self, looks: SeatLooks<N, L>) -> ClosedLooks<L>
        ensures looks { result ≡ looks }
        ensures among { AreAmong looks self.old }
        ensures same { self.new ≡ self.old }
    {
        let SeatLooks { mut token } = looks;
        self.register.show(&mut token);
        let RegisterToken { pass, name: _ } = token;
        ClosedLooks { pass }
    }
}
