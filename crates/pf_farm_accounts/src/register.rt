//! The register, and what bears its places.

ghost use Rattle.std.specs.Prelude.{◌≡◌, List, [], ◌∷◌, ◌++◌, length, Some, IfOk, OnOk, OnErr};
ghost use Rattle.pf_farm_accounts.specs.Places.{AreBelow, StartsWith};

use crate::knowledge::{
    AllReturned, AllSeen, Blank, EachBorneOnce, Entering, IsEntered, Knowledge, Lent, OwnBorne,
    Returned, SeenSoFar,
};
use crossbeam_deque::{Pass, Worker};
use pf_errors::NoMemory;
use std::alloc::Global;
use std::marker::{Brand, Model, PhantomData};
use std::mem;

/// Which register it is: proofs know it by the deque that it is built on.
pub trait RegisterName {
    ghost use Rattle.std.specs.Prelude.{ℕ, Option};
    ghost use Rattle.std.specs.Global.{Global};

    ghost home: { Option ((ℕ × ℕ) × Global) };
}

impl RegisterName for Brand {
    ghost use Rattle.std.specs.Prelude.{None};

    ghost home = { None };
}

/// A register of entries, each at its place, counted from 0. Contracts see the entries, and the places that tokens
/// brought back. It keeps no entry: which entries there are is known to proofs alone.
#[derive(Drop)]
pub struct Register<T, R: RegisterName> {
    deque: Worker<(), Global, Knowledge<T>, EachBorneOnce>,
    name: PhantomData<R>,
}

impl<T, R: RegisterName> Model for Register<T, R> {
    ghost use Rattle.std.specs.Prelude.{◌≡◌, ℕ, List, true, [], Some};
    ghost use Rattle.crossbeam_deque.specs.Handles.{worker_deque, worker_view, worker_flavor};

    ghost Value = { List T × List ℕ };

    ghost view = { λ r. ((worker_view r.deque).entries, (worker_view r.deque).returned) };

    ghost invariant = { λ r. (R.home ≡ Some (worker_deque r.deque))
        × ((worker_view r.deque).is_register ≡ true)
        × ((worker_view r.deque).borne ≡ [])
        × (worker_flavor r.deque ≡ 0) };
}

/// What bears places of a register. Contracts see the places, and the entries that it saw, with which the register
/// begins.
#[derive(Drop)]
pub struct RegisterToken<T, R: RegisterName> {
    pub(crate) pass: Pass<(), Knowledge<T>>,
    pub(crate) name: PhantomData<R>,
}

impl<T, R: RegisterName> Model for RegisterToken<T, R> {
    ghost use Rattle.std.specs.Prelude.{◌≡◌, ℕ, List, []};
    ghost use Rattle.pf_farm_accounts.specs.Passes.{borne_by, returned_to, seen_by, IsAtHome};

    ghost Value = { List ℕ × List T };

    ghost view = { λ t. (borne_by t.pass, seen_by t.pass) };

    ghost invariant = { λ t. IsAtHome R.home t.pass × (returned_to t.pass ≡ []) };
}

/// A register that has no name yet. Contracts see where it is.
#[derive(Drop)]
pub struct NewRegister<T> {
    deque: Worker<(), Global, Knowledge<T>, EachBorneOnce>,
}

impl<T> Model for NewRegister<T> {
    ghost use Rattle.std.specs.Prelude.{◌≡◌, ℕ};
    ghost use Rattle.std.specs.Global.{Global};
    ghost use Rattle.crossbeam_deque.specs.Handles.{worker_deque, worker_view, worker_flavor};
    ghost use Rattle.pf_farm_accounts.specs.Knowing.{first_knowledge};

    ghost Value = { (ℕ × ℕ) × Global };

    ghost view = { λ n. worker_deque n.deque };

    ghost invariant = { λ n. (worker_view n.deque ≡ first_knowledge) × (worker_flavor n.deque ≡ 0) };
}

impl<T> NewRegister<T> {
    /// A register with no entry.
    pub fn new(alloc: Global) -> Result<NewRegister<T>, NoMemory> {
        Ok(NewRegister {
            deque: Worker::fifo_as(alloc, 1)?,
        })
    }

    /// The register under its name.
    pub fn named<R: RegisterName>(self) -> Register<T, R>
        requires { R.home ≡ Some self }
        ensures { result ≡ ([], []) }
    {
        let NewRegister { deque } = self;
        Register {
            deque,
            name: PhantomData,
        }
    }
}

impl<T, R: RegisterName> Register<T, R> {
    /// A token that bears no place and has seen no entry.
    pub fn token(&mut self) -> RegisterToken<T, R>
        ensures token { result ≡ ([], []) }
        ensures same { self.new ≡ self.old }
    {
        RegisterToken {
            pass: self.deque.another::<Blank>(),
            name: PhantomData,
        }
    }

    /// Enters one entry more, whose place the token bears from now on. The token has seen all entries then, that one
    /// among them. It takes no memory.
    pub fn enter(&mut self, token: &mut RegisterToken<T, R>, entry: &T)
        ensures register { self.new ≡ (self.old.0 ++ entry.now ∷ [], self.old.1) }
        ensures token { token.new ≡ (token.old.0 ++ length self.old.0 ∷ [], self.new.0) }
        ensures below { AreBelow token.new.0 (length self.new.0) }
        ensures seen { StartsWith self.old.0 token.old.1 }
    {
        enter_as::<T, R, Brand>(self, token, entry);
    }

    /// Shows all entries to a token. It takes no memory.
    pub fn show(&mut self, token: &mut RegisterToken<T, R>)
        ensures token { token.new ≡ (token.old.0, self.old.0) }
        ensures same { self.new ≡ self.old }
        ensures seen { StartsWith self.old.0 token.old.1 }
    {
        let blank = self.token();
        let RegisterToken { pass, name: _ } = mem::replace(token, blank);
        self.deque.absorb::<Lent>(pass);
        self.deque.len_as::<SeenSoFar>();
        let pass = self.deque.another::<AllSeen>();
        *token = RegisterToken {
            pass,
            name: PhantomData,
        };
    }

    /// Takes a token back. The places that came back are places of entries, each at most once.
    pub fn take_back(&mut self, token: RegisterToken<T, R>)
        ensures register { self.new ≡ (self.old.0, self.old.1 ++ token.0) }
        ensures below { AreBelow self.new.1 (length self.new.0) }
        ensures seen { StartsWith self.new.0 token.1 }
    {
        let RegisterToken { pass, name: _ } = token;
        self.deque.absorb::<Returned>(pass);
        self.deque.len_as::<SeenSoFar>();
        self.deque.len_as::<AllReturned>();
    }
}

/// Enters an entry that a type names.
fn enter_as<T, R: RegisterName, E: IsEntered<T>>(
    register: &mut Register<T, R>,
    token: &mut RegisterToken<T, R>,
    entry: &T,
)
    requires { E.entry ≡ Some entry.now }
    ensures register { register.new ≡ (register.old.0 ++ entry.now ∷ [], register.old.1) }
    ensures token { token.new ≡ (token.old.0 ++ length register.old.0 ∷ [], register.new.0) }
    ensures below { AreBelow token.new.0 (length register.new.0) }
    ensures seen { StartsWith register.old.0 token.old.1 }
{
    let _ = entry;
    let blank = register.token();
    let RegisterToken { pass, name: _ } = mem::replace(token, blank);
    register.deque.absorb::<Lent>(pass);
    register.deque.len_as::<SeenSoFar>();
    let _ = register.deque.another::<Entering<E>>();
    register.deque.len_as::<OwnBorne>();
    let pass = register.deque.another::<AllSeen>();
    *token = RegisterToken {
        pass,
        name: PhantomData,
    };
}
