//! Small cuts on which the definitions are tried out: each call says what holds of one, and what doesn't.
ghost use Rattle.std.specs.Prelude.{◌≡◌, ◌∷◌, [], List, true, Some, None};
ghost use Rattle.bep_record.specs.declared.folder_kind.FolderKind.TheVariants.{SendReceive, ReceiveOnly};
ghost use Rattle.bep_choice.specs.Choice.{Candidate};
ghost use Rattle.bep_record.specs.Content.{Deleted};
ghost use Rattle.bep_record.specs.Node.{IsClean};
ghost use Rattle.bep_model.specs.declared.reason.Reason.TheVariants.{CertificateOrder, NameMissing, NameUnknown, NotWinner, RecordMissing, RecordDiffers, LocalOnly, StoreDiffers, StoreUnclean, ViewAhead, FlightAhead, PullAhead};
ghost use Rattle.bep_model.specs.Foreign.{IsHarmless};
ghost use Rattle.bep_model.specs.Winner.{IsWinner};
ghost use Rattle.bep_model.specs.WithoutWinner.{IsFirstWithoutWinner};
ghost use Rattle.bep_model.specs.Reasons.{Asks};
ghost use Rattle.bep_model.specs.Verdict.{Settled, Not, IsVerdict};
ghost use Rattle.bep_model.specs.Calm.{SameFile};
ghost use Rattle.bep_model.specs.Examples.{folder_f, name_a, by_one, twice_by_one, by_two, deletion, link, empty_file, link_node, file_node, two_devices, shared_deletion, send_only, crossed_links, old_link_flies, files_of, deletion_viewing, deletion_pulling, row_of, place_of, place_of_name};

/// Two devices know a deletion, and no store holds the name: settled with the row of the deletion. Without it the name
/// is missing, and that is the verdict.
pub fn deletion_known_by_two()
    ensures settled { IsVerdict shared_deletion (row_of 1 (deletion by_one) ∷ []) Settled }
    ensures without_the_row { IsVerdict shared_deletion [] (Not NameMissing folder_f name_a None) }
{}

/// A certificate is in order with one row of the name, but not where that row stands twice.
pub fn row_stands_twice()
    ensures once { Asks shared_deletion (row_of 1 (deletion by_one) ∷ []) CertificateOrder place_of_name }
    ensures twice { ¬ Asks
        shared_deletion
        (row_of 1 (deletion by_one) ∷ row_of 1 (deletion by_one) ∷ [])
        CertificateOrder
        place_of_name }
{}

/// A row's name is known where a device has a record of it, and is at fault where no device has one.
pub fn row_of_an_unknown_name()
    ensures known { Asks shared_deletion (row_of 1 (deletion by_one) ∷ []) NameUnknown place_of_name }
    ensures unknown { ¬ Asks
        (two_devices SendReceive None None)
        (row_of 1 (deletion by_one) ∷ [])
        NameUnknown
        place_of_name }
{}

/// Where the name is deleted, an old version is harmless beside a newer record, but not beside none or a concurrent one.
pub fn old_version_is_known()
    ensures beside_a_newer_record { IsHarmless (Some (deletion twice_by_one)) Deleted (link 1 98 by_one) }
    ensures beside_none { ¬ IsHarmless None Deleted (link 1 98 by_one) }
    ensures beside_a_concurrent_record { ¬ IsHarmless (Some (deletion by_two)) Deleted (link 1 98 by_one) }
{}

/// An old version on its way is no fault at a device that has the deletion. At a device without a record it is one.
pub fn old_version_flies()
    ensures to_a_device_with_the_deletion { Asks
        (old_link_flies (Some (deletion twice_by_one)))
        (row_of 1 (deletion twice_by_one) ∷ [])
        FlightAhead
        (place_of 2) }
    ensures to_a_device_without_a_record { ¬ Asks
        (old_link_flies None)
        (row_of 1 (deletion twice_by_one) ∷ [])
        FlightAhead
        (place_of 2) }
{}

/// A local-only record is invalid and doesn't win, even if there is no other record: its name has no winner then. A
/// valid one wins.
pub fn local_only_record_is_no_candidate()
    ensures local_only { (one : Candidate) → ¬ IsWinner
        (two_devices SendReceive (Some (record (link 1 98 by_one) { invalid = true })) None)
        folder_f name_a one }
    ensures without_winner { IsFirstWithoutWinner
        (two_devices SendReceive (Some (record (link 1 98 by_one) { invalid = true })) None)
        folder_f name_a }
    ensures valid { IsWinner
        (two_devices SendReceive (Some (link 1 98 by_one)) None)
        folder_f name_a (1, link 1 98 by_one) }
{}

/// Two concurrent records have one time: the one of the smaller `modified_by` wins, whichever device has it. A row with
/// the other one is at fault.
pub fn tie_goes_to_the_smaller_author()
    ensures smaller { IsWinner crossed_links folder_f name_a (2, link 1 98 by_one) }
    ensures larger { ¬ IsWinner crossed_links folder_f name_a (1, link 2 99 by_two) }
    ensures row_of_the_smaller { Asks crossed_links (row_of 2 (link 1 98 by_one) ∷ []) NotWinner place_of_name }
    ensures row_of_the_larger { ¬ Asks crossed_links (row_of 1 (link 2 99 by_two) ∷ []) NotWinner place_of_name }
{}

/// A send-only device that keeps another content than the winner's is at fault; one with another version of the same
/// content isn't, as long as its store holds it.
pub fn send_only_device_differs()
    ensures another_content { ¬ Asks
        (send_only (link 1 99 by_one))
        (row_of 1 (link 1 98 twice_by_one) ∷ [])
        RecordDiffers
        (place_of 2) }
    ensures same_content { Asks
        (send_only (link 1 98 by_one))
        (row_of 1 (link 1 98 twice_by_one) ∷ [])
        RecordDiffers
        (place_of 2) }
    ensures empty_store { ¬ Asks
        (send_only (link 1 98 by_one))
        (row_of 1 (link 1 98 twice_by_one) ∷ [])
        StoreDiffers
        (place_of 2) }
{}

/// A device without a record is no fault beside a deletion, and one beside what isn't deleted.
pub fn record_is_missing()
    ensures of_a_deletion { Asks
        (two_devices SendReceive (Some (deletion by_one)) None)
        (row_of 1 (deletion by_one) ∷ [])
        RecordMissing
        (place_of 2) }
    ensures of_a_symlink { ¬ Asks
        (two_devices SendReceive (Some (link 1 98 by_one)) None)
        (row_of 1 (link 1 98 by_one) ∷ [])
        RecordMissing
        (place_of 2) }
{}

/// A local-only record of a receive-only folder is at fault, whatever its content; a valid one isn't.
pub fn local_change_of_a_receive_only_folder()
    ensures valid { Asks
        (two_devices ReceiveOnly (Some (link 1 98 by_one)) (Some (link 1 98 by_one)))
        (row_of 1 (link 1 98 by_one) ∷ [])
        LocalOnly
        (place_of 2) }
    ensures local_only { ¬ Asks
        (two_devices ReceiveOnly (Some (link 1 98 by_one)) (Some (record (link 1 98 by_one) { invalid = true })))
        (row_of 1 (link 1 98 by_one) ∷ [])
        LocalOnly
        (place_of 2) }
{}

/// Where the name is deleted, a device may still see or pull a record that is older than the deletion, and no other.
pub fn another_record_is_seen_or_pulled()
    ensures older_in_a_view { Asks (deletion_viewing (link 1 98 by_one)) (row_of 1 (deletion twice_by_one) ∷ []) ViewAhead (place_of 2) }
    ensures concurrent_in_a_view { ¬ Asks (deletion_viewing (link 2 98 by_two)) (row_of 1 (deletion twice_by_one) ∷ []) ViewAhead (place_of 2) }
    ensures older_as_target { Asks (deletion_pulling (link 1 98 by_one)) (row_of 1 (deletion twice_by_one) ∷ []) PullAhead (place_of 2) }
    ensures concurrent_as_target { ¬ Asks (deletion_pulling (link 2 98 by_two)) (row_of 1 (deletion twice_by_one) ∷ []) PullAhead (place_of 2) }
{}

/// What is touched is kept, and is clean where it is a symlink, but not where it is a file. What leads elsewhere or is
/// gone isn't kept.
pub fn touched_file_is_unclean()
    ensures kept { SameFile (Some (link_node 98 1)) (Some (link_node 98 2)) }
    ensures elsewhere { ¬ SameFile (Some (link_node 98 1)) (Some (link_node 99 1)) }
    ensures gone { ¬ SameFile (Some (link_node 98 1)) None }
    ensures symlink { IsClean (Some (link_node 98 1)) (Some (link 1 98 by_one)) }
    ensures file { ¬ IsClean (Some (file_node 1)) (Some (empty_file by_one)) }
    ensures untouched_file { IsClean (Some (file_node 0)) (Some (empty_file by_one)) }
    ensures untouched_store { Asks (files_of 0) (row_of 1 (empty_file by_one) ∷ []) StoreUnclean (place_of 2) }
    ensures touched_store { ¬ Asks (files_of 1) (row_of 1 (empty_file by_one) ∷ []) StoreUnclean (place_of 2) }
{}
