//! Laws of the choice, each stated by a function that does nothing. They hold of any lists of candidates.
ghost use Rattle.std.specs.Prelude.{◌≡◌, ◌↔◌, ℕ, List};
ghost use Rattle.bep_record.specs.Vector.{IsBelow};
ghost use Rattle.bep_choice.specs.Choice.{Candidate, IsValidAmong, IsChoice, HasOneEach, HasNoneLeft, SameSet};

/// There is a choice exactly where a candidate is valid.
pub fn choice_exists()
    ensures { (chooser : ℕ) (candidates : List Candidate)
        → ((one : Candidate) × IsChoice chooser candidates one)
        ↔ ((one : Candidate) × IsValidAmong candidates one) }
{}

/// Where each device has one record at most, there is one choice at most.
pub fn choice_is_unique()
    ensures { (chooser : ℕ) (candidates : List Candidate) (one other : Candidate) → HasOneEach candidates
        → IsChoice chooser candidates one → IsChoice chooser candidates other → one ≡ other }
{}

/// The choice is one of the candidates and isn't invalid, and no valid candidate's version is strictly above its own.
pub fn choice_is_on_top()
    ensures valid { (chooser : ℕ) (candidates : List Candidate) (one : Candidate)
        → IsChoice chooser candidates one → IsValidAmong candidates one }
    ensures on_top { (chooser : ℕ) (candidates : List Candidate) (one other : Candidate)
        → IsChoice chooser candidates one → IsValidAmong candidates other
        → ¬ IsBelow one.1.version other.1.version }
{}

/// The choice depends on the set of candidates, not on their order or on how often each of them stands.
pub fn choice_is_of_the_set()
    ensures { (chooser : ℕ) (candidates others : List Candidate) (one : Candidate) → SameSet candidates others
        → IsChoice chooser candidates one → IsChoice chooser others one }
{}

/// Two devices choose the same, if no candidate that is left is one of theirs.
pub fn choice_is_shared()
    ensures { (chooser other : ℕ) (candidates : List Candidate) (one : Candidate)
        → HasNoneLeft chooser candidates → HasNoneLeft other candidates
        → IsChoice chooser candidates one → IsChoice other candidates one }
{}
