// What a call answers: a status.
ghost use Rattle.c_api.specs.Answers.{StatusOf};
ghost use Rattle.std.specs.Prelude.{◌≡◌};

use refusals::{Cause, Fault};

/// All of a refusal that crosses to C, which takes no enums: the number of its cause.
#[derive(Clone, Copy, PartialEq, Eq, Debug)]
pub(crate) struct Refused(pub u8);

impl Refused {
    pub(crate) fn by<C: Cause>(cause: C) -> Refused
        ensures { result.0 ≡ C.number_of cause }
    {
        Refused(cause.number())
    }
}

impl<C: Cause + Copy, T: Copy> From<Fault<C, T>> for Refused {
    ghost from_gives = { λ f r. r.0 ≡ C.number_of f.cause };

    fn from(fault: Fault<C, T>) -> Refused {
        Refused::by(fault.cause)
    }
}

/// 0 where a call is granted, else the number of the cause.
pub(crate) fn status<E: Into<Refused>>(answer: Result<(), E>) -> usize
    ensures { StatusOf E.converts answer result }
{
    match answer {
        Ok(()) => 0,
        Err(refused) => {
            let Refused(number) = refused.into();
            usize::from(number)
        }
    }
}
