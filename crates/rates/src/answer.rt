// The answers of every call: done, or one refusal for each number.
ghost use Rattle.std.specs.Prelude.{◌≡◌, Err};
ghost use Rattle.rates.specs.declared.answer.Refusal.{Refusal};
ghost use Rattle.rates.specs.Answers.{number_of, refusal_number};

#[derive(Clone, Copy)]
pub enum Refusal {
    UnknownRate,
    UnknownDuration,
    CoefficientCount,
    CoefficientNotFinite,
    SampleCount,
    TooManyBits,
    IndexTooLarge,
    SampleOutOfRange,
    UnfitState,
    MalformedLine,
    WrongFrameNumber,
    PaddingSet,
    EarsDiffer,
    TooFewBytes,
}

pub type Answer = Result<(), Refusal>;

// What may stand where there is no value: a refusal, or any answer. A test that hands it on makes its own refusals into it.
pub trait Reason: Copy {
    ghost of: { Refusal → Self };

    fn refused(refusal: Refusal) -> Self
        ensures { result ≡ of refusal };
}

impl Reason for Refusal {
    ghost of = { λ r. r };

    fn refused(refusal: Refusal) -> Refusal {
        refusal
    }
}

impl Reason for Answer {
    ghost of = { λ r. Err r };

    fn refused(refusal: Refusal) -> Answer {
        Err(refusal)
    }
}

impl Refusal {
    // The number under which a refusal is listed: the customer's, in docs/SCOPE.md. Only rows and calls for C tell it.
    fn number(self) -> u64
        ensures { result ≡ refusal_number self }
    {
        match self {
            Refusal::UnknownRate => 1,
            Refusal::UnknownDuration => 2,
            Refusal::CoefficientCount => 3,
            Refusal::CoefficientNotFinite => 4,
            Refusal::SampleCount => 5,
            Refusal::TooManyBits => 6,
            Refusal::IndexTooLarge => 7,
            Refusal::SampleOutOfRange => 8,
            Refusal::UnfitState => 9,
            Refusal::MalformedLine => 10,
            Refusal::WrongFrameNumber => 11,
            Refusal::PaddingSet => 12,
            Refusal::EarsDiffer => 13,
            Refusal::TooFewBytes => 15,
        }
    }
}

// The number under which an answer is listed.
pub fn number(answer: Answer) -> u64
    ensures { result ≡ number_of answer }
{
    match answer {
        Ok(()) => 0,
        Err(refusal) => refusal.number(),
    }
}
