//! Where code is made: in which module, with which variables in which registers, and where it leads.

use pf_syntax::Module;

/// The module, and the registers of the variables in scope.
#[derive(Clone, Copy)]
pub struct Scope<'a> {
    pub code: &'a Module,
    pub slots: &'a [u32],
}

/// Where tests lead, on or elsewhere, and the first register that is free there.
#[derive(Clone, Copy)]
pub struct Exits {
    pub free: u32,
    pub next: u32,
    pub otherwise: u32,
}
