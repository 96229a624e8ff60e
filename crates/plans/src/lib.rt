//! What a stream is planned with: its rate, its kind of unit, the units of a block, and the method
//! by which it is sent.

#![tactic(auto)]

mod delay;
mod fault;
mod method;
mod plan;
mod rate;

pub use delay::default_delay;
pub use fault::PlanFault;
pub use method::{Blocking, Method, NonBlocking};
pub use plan::Plan;
pub use rate::Rate;
