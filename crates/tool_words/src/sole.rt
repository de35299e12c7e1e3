ghost use Rattle.std.specs.Prelude.{◌≡◌};
ghost use Rattle.tool_words.specs.Sole.{and_if, at_most_one, one_command, sole_and};

use crate::UsageKind;

/// What there is of things that may be there any number of times.
#[derive(Drop)]
pub enum Sole<T> {
    Nothing,
    One(T),
    Many,
}

/// The same, after one more.
pub fn sole_and<T: Drop>(sole: Sole<T>, one: T) -> Sole<T>
    ensures { result ≡ sole_and sole one }
{
    match sole {
        Sole::Nothing => Sole::One(one),
        Sole::One(_) | Sole::Many => Sole::Many,
    }
}

/// The same, after one more, if there is one.
pub fn and_if<T: Drop>(sole: Sole<T>, one: Option<T>) -> Sole<T>
    ensures { result ≡ and_if sole one }
{
    match one {
        Some(one) => sole_and(sole, one),
        None => sole,
    }
}

/// What may be there once, or `None` where it is there more often.
pub fn at_most_one<T: Drop>(sole: Sole<T>) -> Option<Option<T>>
    ensures { result ≡ at_most_one sole }
{
    match sole {
        Sole::Nothing => Some(None),
        Sole::One(one) => Some(Some(one)),
        Sole::Many => None,
    }
}

/// The command, where there is one.
pub fn one_command<T: Drop>(sole: Sole<T>) -> Result<T, UsageKind>
    ensures { result ≡ one_command sole }
{
    match sole {
        Sole::Nothing => Err(UsageKind::NoCommand),
        Sole::One(command) => Ok(command),
        Sole::Many => Err(UsageKind::ManyCommands),
    }
}
