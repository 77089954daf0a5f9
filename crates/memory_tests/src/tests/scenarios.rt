//! `bep_scenario`.
use super::made::SCENARIO;
use bep_scenario::{config_of, read_lazy_scenario, read_scenario, read_scenario_parts};
use std::alloc::Global;

fn read(alloc: Global) -> Option<[bool; 3]> {
    let parts = read_scenario_parts(alloc, SCENARIO.as_bytes()).ok()?;
    Some([
        config_of(alloc, &parts.cluster).is_ok(),
        read_lazy_scenario(alloc, SCENARIO.as_bytes()).is_ok(),
        read_scenario(alloc, SCENARIO.as_bytes()).is_ok(),
    ])
}

#[test]
fn scenarios_find_memory(rt: HostRuntime) {
    assert!(rt; read(rt.alloc()) == Some([true; 3]));
}
