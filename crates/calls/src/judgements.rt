// What columns and calls are judged to, in each form that says it.
ghost use Rattle.std.specs.Prelude.{◌≡◌, false};
ghost use Rattle.calls.specs.declared.Judgement.{Judgement};
ghost use Rattle.calls.specs.Judgements.{Joined};
ghost use Rattle.calls.specs.Outcomes.{judgement_of, answer_of};

use crate::{Judgement, Refusal, Success, Verdict, accepted};

// What a call ends with.
pub trait Answer: Copy {
    ghost answer: { Self → Judgement };

    fn judgement(self) -> Judgement
        ensures { result ≡ answer self };
}

impl Answer for Judgement {
    ghost answer = { λ judgement. judgement };

    fn judgement(self) -> Judgement {
        self
    }
}

// Where no root was taken.
impl Answer for Verdict {
    ghost answer = { λ verdict. record { verdict = verdict; exact = false } };

    fn judgement(self) -> Judgement {
        Judgement {
            verdict: self,
            exact: false,
        }
    }
}

impl Answer for Result<Success, Refusal> {
    ghost answer = { answer_of };

    fn judgement(self) -> Judgement {
        match self {
            Ok(success) => Judgement {
                verdict: Verdict {
                    code: 0,
                    place: 0,
                    value: success.value,
                },
                exact: success.exact,
            },
            Err(refusal) => Judgement {
                verdict: Verdict::from(refusal),
                exact: false,
            },
        }
    }
}

// What columns are judged to.
pub trait JudgedColumns: Copy {
    ghost judged: { Self → Judgement };

    // Those before a column and that one itself, judged together.
    fn join(self, column: Self) -> Self
        ensures { Joined (judged self) (judged column) (judged result) };
}

impl JudgedColumns for Judgement {
    ghost judged = { λ judgement. judgement };

    fn join(self, column: Judgement) -> Judgement {
        if !accepted(self.verdict) {
            return self;
        }
        Judgement {
            verdict: column.verdict,
            exact: self.exact & column.exact,
        }
    }
}

impl JudgedColumns for Result<bool, Refusal> {
    ghost judged = { judgement_of };

    fn join(self, column: Result<bool, Refusal>) -> Result<bool, Refusal> {
        Ok(self? & column?)
    }
}
