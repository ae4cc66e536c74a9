//! Kernels as data: programs that are given as instructions over registers, each of which is lawful.
#![tactic(auto)]

mod call;
mod exit;
mod instruction;
mod kernel;
mod looking;
mod machine;
mod operator;
mod source;

pub use call::Call;
pub use instruction::Instruction;
pub use kernel::Kernel;
pub use operator::Operator;
pub use source::Source;
