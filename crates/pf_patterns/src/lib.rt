//! Patterns: whether a value fits one, and what it binds, over the slots of the variables in scope.
#![tactic(auto)]

mod finding;
mod fitting;
pub mod laws;
mod sameness;
mod seen;
mod slots;
mod trying;

pub use fitting::{bind, bind_all};
pub use sameness::same_patterns;
pub use slots::{copied, operand, slot};
pub use trying::fits;
