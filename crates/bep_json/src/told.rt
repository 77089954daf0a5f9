//! What is told of a value: the thing that it says, or why it says none.
ghost use Rattle.std.specs.Prelude.{◌≡◌};
ghost use Rattle.bep_json.specs.Taking.{due, due_or, noted, both};

/// Why a value says no thing.
#[derive(Clone, Copy, Debug, PartialEq, Eq)]
pub enum Misread {
    /// It has another shape: a member is missing or not known, or a value is of another kind.
    Shape,
    /// A number, text, hash or list in it is outside its range.
    Range,
}

/// The thing that a value says, or why it says none.
pub type Told<T> = Result<T, Misread>;

/// What is told of a member that must be there.
pub fn due<T: Drop>(found: Option<Told<T>>) -> Told<T>
    ensures { result ≡ due found }
{
    match found {
        Some(told) => told,
        None => Err(Misread::Shape),
    }
}

/// What is told of a member that may be left out. The default stands for it then.
pub fn due_or<T: Drop>(found: Option<Told<T>>, default: T) -> Told<T>
    ensures { result ≡ due_or default found }
{
    match found {
        Some(told) => told,
        None => Ok(default),
    }
}

/// What is told of a member that must be there in its shape. What it says isn't kept, and may be out of range.
pub fn noted<T: Drop>(found: Option<Told<T>>) -> Told<bool>
    ensures { result ≡ noted found }
{
    match found {
        Some(Ok(_)) => Ok(true),
        Some(Err(Misread::Range)) => Ok(true),
        Some(Err(Misread::Shape)) => Err(Misread::Shape),
        None => Err(Misread::Shape),
    }
}

/// Both things, or what is told of one of them. Another shape is told before a range.
pub fn both<A: Drop, B: Drop>(first: Told<A>, second: Told<B>) -> Told<(A, B)>
    ensures { result ≡ both first second }
{
    match first {
        Ok(one) => match second {
            Ok(other) => Ok((one, other)),
            Err(misread) => Err(misread),
        },
        Err(Misread::Shape) => Err(Misread::Shape),
        Err(Misread::Range) => match second {
            Ok(_) => Err(Misread::Range),
            Err(misread) => Err(misread),
        },
    }
}
