// An answer, built step by step: what it holds so far, and then its action.
#![tactic(auto)]

ghost use Rattle.std.specs.Prelude.{◌≡◌, ◌≤◌, pos, Some};
ghost use Rattle.rules.specs.Numbers.{time_limit};
ghost use Rattle.rules.specs.Answers.{doing, plain, refusing};
ghost use Rattle.answers.specs.Parts.{with_result, newborn_told, woken_told, device_told, ended_told};

use rules::{Action, Answer, Refusal};

// The answer so far, with nothing in it and no action yet.
pub fn bare() -> Answer
    ensures { result ≡ plain }
{
    Answer {
        refusal: None,
        action: Action::Nothing,
        result: None,
        newborn: None,
        device: None,
        woken: 0,
        ended: 0,
        idled: 0,
    }
}

// A result alone.
pub fn gives(res: Option<i64>) -> Answer
    ensures { result ≡ with_result res }
{
    Answer {
        result: res,
        ..bare()
    }
}

// A newborn's slot, and the result that is its id.
pub fn bears(res: Option<i64>, slot: u8) -> Answer
    ensures { result ≡ newborn_told res slot }
{
    Answer {
        newborn: Some(slot),
        ..gives(res)
    }
}

// The mask of who woke.
pub fn wakes(woken: u64) -> Answer
    ensures { result ≡ woken_told woken }
{
    Answer { woken, ..bare() }
}

// The sub-device commanded or acknowledged, and the mask of who woke.
pub fn serves(device: u8, woken: u64) -> Answer
    ensures { result ≡ device_told device woken }
{
    Answer {
        device: Some(device),
        ..wakes(woken)
    }
}

// The masks of who ended and of the processors left idle, and the result for a caller that lives on.
pub fn ends(res: Option<i64>, ended: u64, idled: u8) -> Answer
    ensures { result ≡ ended_told res ended idled }
{
    Answer {
        ended,
        idled,
        ..gives(res)
    }
}

// The answer so far, with its action.
pub fn does(action: Action, x: Answer) -> Answer
    ensures { result ≡ doing action x }
{
    Answer { action, ..x }
}

// "A refusal's action is none, its masks are zero, its other parts absent."
pub fn refusal(why: Refusal) -> Answer
    ensures { result ≡ refusing why plain }
{
    Answer {
        refusal: Some(why),
        ..bare()
    }
}

// A number as a result.
pub fn says(n: u64) -> Option<i64>
    requires { n ≤ time_limit }
    ensures { result ≡ Some (pos n) }
{
    Some(n as i64)
}
