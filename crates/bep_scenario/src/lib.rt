//! The scenario document: from bytes to a cluster and the list of its steps, or to the one fault for which it is refused.
//!
//! A caller reads a scenario so:
//!
//!     match read_scenario(alloc, bytes) {
//!         Ok(scenario) => run(scenario.config, scenario.steps.as_slice()),
//!         Err(DocError::Refused(fault)) => tell(fault.fault.number(), fault.fault.name()),
//!         Err(DocError::Memory) => give_up(),
//!     }
//!
//! `read_lazy_scenario` reads the same, and makes each step when the caller asks for it, so it takes less memory where there
//! are very many.
#![tactic(auto)]

mod behind;
mod faults;
mod fresh;
mod laws;
mod lazy;
mod making;
mod members;
mod parts;
mod reading;
mod scenario;
mod start;
mod step;
mod words;

pub use laws::{faultless_scenarios_start, scenarios_are_faultless, scenarios_begin_empty};
pub use lazy::{LazyScenario, read_lazy_scenario};
pub use making::{Steps, steps_of};
pub use parts::{ScenarioParts, StepParts};
pub use reading::read_scenario_parts;
pub use scenario::{Scenario, read_scenario};
pub use start::config_of;
