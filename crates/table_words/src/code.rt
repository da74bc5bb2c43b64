// What the calls of the library come to, and the number that C is told.
ghost use Rattle.std.specs.Prelude.{◌≡◌};
ghost use Rattle.refusal.specs.declared.Refusal.{Refusal};
ghost use Rattle.table_words.specs.declared.code.CallError.TheVariants.{Refused};
ghost use Rattle.table_words.specs.Code.{code_of, error_code};

use refusal::Refusal;

const DONE: u8 = 0;

// Why a call is not done.
#[derive(Clone, Copy, PartialEq, Eq)]
pub enum CallError {
    Refused(Refusal),
    // A lent buffer is too short.
    NoRoom,
    // A number or a length stands for nothing.
    BadNumber,
    // The words of a table stand for none.
    BadTable,
}

impl CallError {
    // The refusal's number, 1 to 29, or one of its own.
    pub fn code(self) -> u8
        ensures { result ≡ error_code self }
    {
        match self {
            CallError::Refused(refusal) => refusal.number(),
            CallError::NoRoom => 253,
            CallError::BadNumber => 254,
            CallError::BadTable => 255,
        }
    }
}

impl From<Refusal> for CallError {
    ghost from_gives = { λ refusal error. error ≡ Refused refusal };

    fn from(refusal: Refusal) -> CallError {
        CallError::Refused(refusal)
    }
}

// 0 where the call is done.
pub fn code_of(answer: Result<(), CallError>) -> u8
    ensures { result ≡ code_of answer }
{
    match answer {
        Ok(()) => DONE,
        Err(error) => error.code(),
    }
}
