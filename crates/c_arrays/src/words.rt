// Flags and answers as C has them.
ghost use Rattle.std.specs.Prelude.{◌≡◌, ◌<◌, ◌^◌};
ghost use Rattle.rates.specs.Answers.{number_of};
ghost use Rattle.c_arrays.specs.Words.{is_yes, as_flag, narrowed};

use rates::answer::{Answer, number};

// 0 is no, anything else is yes: C's flags, which no conversion of the library knows.
pub fn is_yes(word: u32) -> bool
    ensures { result ≡ is_yes word }
{
    word != 0
}

// Yes is 1, no is 0.
pub fn as_flag(on: bool) -> u32
    ensures { result ≡ as_flag on }
{
    u32::from(on)
}

// The number of an answer.
#[tactic(auto, using(crate::proofs::AnswerNumbers::two_digits))]
pub fn answer_word(answer: Answer) -> u32
    ensures { result ≡ number_of answer }
{
    number(answer) as u32
}

// A number of 32 bits, wherever more are asked for. The library has no From for it, since a usize may be narrower elsewhere.
pub fn wide(word: u32) -> usize
    ensures { (result ≡ word) × (result < 2 ^ 32) }
{
    word as usize
}

// Its lowest 32 bits, wherever no more are taken: a conversion that can fail would have a failure that no call meets.
pub fn narrow(number: usize) -> u32
    ensures { result ≡ narrowed number }
{
    (number % 4294967296) as u32
}
