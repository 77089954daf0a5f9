//! What holds of the devices and links of every cluster. The function does nothing; its contract is the law.
ghost use Rattle.bep_peer.specs.network.Sharing.{FoundByEnds, FoundByNumber, SharingIsHaving};

/// A device shares a folder exactly where it is there and has it, each device is the one that its number
/// finds, and each link the one that its ends find.
pub fn sharing_is_having()
    ensures sharing { SharingIsHaving }
    ensures found { FoundByNumber }
    ensures ends { FoundByEnds }
{}
