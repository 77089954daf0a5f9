//! Which event comes next.
ghost use Rattle.std.specs.Prelude.{◌≡◌};
ghost use Rattle.std.specs.Option.{option_copied};
ghost use Rattle.bep_run_check.specs.inner.Next.{first_of, lesser, next_of};
ghost use Rattle.bep_run_check.specs.inner.Rest.{lefts};

use crate::rest::Rest;
use bep_fit::Stamped;

// The event of the least ticket that comes next, if anything is left.
pub(crate) fn next_event<'a>(walk: &[Rest<'a>]) -> Option<&'a Stamped>
    ensures { option_copied result ≡ next_of (lefts walk.now) }
{
    let mut least = None;
    for one in walk {
        least = lesser(least, first_of(one.events));
    }
    least
}

fn first_of(events: &[Stamped]) -> Option<&Stamped>
    ensures { option_copied result ≡ first_of events.now }
{
    events.first()
}

// The one of the lesser ticket; the first of two alike.
fn lesser<'a>(one: Option<&'a Stamped>, other: Option<&'a Stamped>) -> Option<&'a Stamped>
    ensures { option_copied result ≡ lesser (option_copied one.entry) (option_copied other.entry) }
{
    match (one, other) {
        (None, other) => other,
        (Some(one), None) => Some(one),
        (Some(one), Some(other)) => {
            if other.ticket < one.ticket {
                Some(other)
            } else {
                Some(one)
            }
        }
    }
}
