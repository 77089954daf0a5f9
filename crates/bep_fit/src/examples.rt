//! Small logs on which the definitions are tried out: each call says which verdict they have.
ghost use Rattle.std.specs.Prelude.{◌∷◌, [], Option};
ghost use Rattle.bep_machine.specs.declared.logged.Traffic.{Traffic};
ghost use Rattle.bep_fit.specs.declared.object.Object.TheVariants as objects;
ghost use Rattle.bep_fit.specs.declared.verdict.RunVerdict.TheVariants.{Fits, Misfit};
ghost use Rattle.bep_fit.specs.Examples.{begins, comes_up, logs_of};
ghost use Rattle.bep_fit.specs.Fit.{IsRunVerdict};

/// All were copied after a link came up and a device began a session over it: the logs fit, with two events.
pub fn copied_after_both()
    ensures { (traffic : Option Traffic) → IsRunVerdict (logs_of (begins traffic ∷ []) (comes_up ∷ begins traffic ∷ []) 0) (Fits 2) }
{}

/// The device was copied before it began the session, the link after: the link's second event is at fault.
pub fn device_copied_before()
    ensures { (traffic : Option Traffic) → IsRunVerdict (logs_of [] (comes_up ∷ begins traffic ∷ []) 0) (Misfit (objects.Link 1 2) 2) }
{}

/// The link was copied before the session began, the device after: the device's event is at fault.
pub fn link_copied_before()
    ensures { (traffic : Option Traffic) → IsRunVerdict (logs_of (begins traffic ∷ []) (comes_up ∷ []) 0) (Misfit (objects.Device 1) 2) }
{}

/// The other device alone has a new base, of the next round: that is its misfit, at ticket 0.
pub fn one_has_new_base()
    ensures { (traffic : Option Traffic) →
        IsRunVerdict (logs_of (begins traffic ∷ []) (comes_up ∷ begins traffic ∷ []) 1) (Misfit (objects.Device 2) 0) }
{}
