//! What a scenario says, as plain lists.
use bep_document::CheckParts;
use bep_json::NamedParts;
use bep_machine::Step;
use bep_record::{DeviceId, FolderName, Items};

/// What a scenario says of a step.
#[derive(Debug, Drop)]
pub enum StepParts {
    /// A node is put into a device's folder, whether its parts fit together or not.
    Edit(DeviceId, FolderName, NamedParts),
    /// Any other step.
    Other(Step),
}

/// What a scenario says: a cluster, and its steps.
#[derive(Debug, Drop)]
pub struct ScenarioParts {
    /// The document's version, and the cluster before the first step, as a cut in which nothing is recorded, kept, known or
    /// on its way, without rows.
    pub cluster: CheckParts,
    /// The steps, the first one first.
    pub steps: Items<StepParts>,
}
