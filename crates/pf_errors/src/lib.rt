//! What stops a call: a failed allocation, or a refusal with its code.
#![tactic(auto)]

mod code;
mod fault;
mod laws;
mod memory;
mod refusal;

pub use code::Code;
pub use fault::OrNoMemory;
pub use laws::codes_are_apart;
pub use memory::NoMemory;
pub use refusal::SourceRefusal;
