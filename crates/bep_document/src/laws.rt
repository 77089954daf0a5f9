//! What holds of each document that is read, as laws.
ghost use Rattle.bep_document.specs.Faultless.{ReadingsAreFaultless, RowsAreInRange, CutsAreFaultless, CutDocumentsAreFaultless, FaultlessHasNoFault, FaultlessHasFewDevices};
ghost use Rattle.bep_document.specs.Short.{CutsOfDocumentsAreShort};
ghost use Rattle.bep_document.specs.Laws.{RecordsAreTold, NodesAreTold};

/// That what is read has no fault: folders, devices, views, links and names stand once, views and messages are of what is
/// shared, records and nodes are well formed, sequences are numbered, links join two devices and are empty while they are
/// down, and all is within its limits, files within those of the document's version too. A law, which does nothing when it
/// runs.
pub fn readings_are_faultless()
    ensures documents { ReadingsAreFaultless }
    ensures rows { RowsAreInRange }
    ensures cuts { CutsAreFaultless }
    ensures cut_documents { CutDocumentsAreFaultless }
    ensures short { CutsOfDocumentsAreShort }
{}

/// That nothing else is asked of what is read: in parts of which all this holds, no fault that has a place is found, and
/// their different devices are counted as few. A law, which does nothing when it runs.
pub fn faultless_parts_are_read()
    ensures no_fault { FaultlessHasNoFault }
    ensures few_devices { FaultlessHasFewDevices }
{}

/// That the tests by which records and nodes are found bad tell what fields are a record and what parts are a node: a
/// law, which does nothing when it runs.
pub fn records_are_told()
    ensures records { RecordsAreTold }
    ensures nodes { NodesAreTold }
{}
