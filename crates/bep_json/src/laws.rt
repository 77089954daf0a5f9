//! What the tests and the blocks of what is read tell, and that devices are read again, as laws.
ghost use Rattle.bep_json.specs.Laws.{NamesAreTold, TargetsAreTold, FolderNamesAreTold, VersionsAreTold, BlocksCutWhole, BlocksHaveHashes};
ghost use Rattle.bep_json.specs.Numbers.{is_whole, read_number, greatest_id};
ghost use Rattle.bep_json.specs.Says.{Says};
ghost use Rattle.bep_json.specs.Written.{whole};

use bep_record::DeviceId;

/// The tests by which a document is read tell which bytes are names, targets and folder names, and which pairs are a
/// version vector: a law, which does nothing when it runs.
pub fn texts_are_told()
    ensures names { NamesAreTold }
    ensures targets { TargetsAreTold }
    ensures folder_names { FolderNamesAreTold }
    ensures versions { VersionsAreTold }
{}

/// A record's hashes are those of its blocks. The blocks cut the file whole exactly if there are as many of them as the
/// file's size asks: a law, which does nothing when it runs.
pub fn hashes_make_blocks()
    ensures hashes { BlocksHaveHashes }
    ensures cut { BlocksCutWhole }
{}

/// A device is read again from what is written of it: a law, which does nothing when it runs.
pub fn device_is_told(device: DeviceId)
    ensures { Says is_whole (read_number 1 greatest_id) device (whole device) }
{
    device.number();
}
