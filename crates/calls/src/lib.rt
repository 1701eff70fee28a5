// What the calls share: the layouts, the kinds of calls, and a call's result. The states are in states.rt, the refusals in outcomes.rt, and in judgements.rt what
// a call or its columns are judged to, in each form that says it.
#![tactic(auto)]

ghost use Rattle.std.specs.Prelude.{◌≡◌};
ghost use Rattle.calls.specs.Refusals as Refusals;
ghost use Rattle.calls.specs.Calls as Calls;
ghost use Rattle.calls.specs.Judgements.{Joined};

mod judgements;
mod outcomes;
mod states;

pub use judgements::{Answer, JudgedColumns};
pub use outcomes::Refusal;
use shape::Shape;
use states::State;
pub use states::next;

// Where the entries of a matrix are kept. The plain calls work on packed memory, the blocked ones on blocked memory.
#[derive(Clone, Copy, PartialEq, Eq)]
pub enum Layout {
    Packed,
    Blocked,
}

// A rearranger moves a matrix from one layout to another, a converter from one memory to another; the last one strikes unknowns from a matrix.
#[derive(Clone, Copy)]
pub enum Call {
    Rearranger(Layout, Layout),
    Factor(Layout),
    Solver(Layout),
    Variance(Layout),
    Converter,
    Strike,
}

// Between packed memory and rectangular full packed memory.
#[derive(Clone, Copy)]
pub enum Conversion {
    PackedToRfp,
    RfpToPacked,
}

// A code, a place and a value, as a call returns them: 0, 0 and +0 where nothing refuses it and it gives no value.
#[derive(Clone, Copy)]
pub struct Verdict {
    pub code: usize,
    pub place: usize,
    pub value: f64,
}

// What columns or a call are judged to: the verdict, and whether nothing is refused and every root is exact.
#[derive(Clone, Copy)]
pub struct Judgement {
    pub verdict: Verdict,
    pub exact: bool,
}

// What a call that is not refused gives beside its memories: the value of a variance, and whether every root of a factor is exact.
#[derive(Clone, Copy)]
pub struct Success {
    pub value: f64,
    pub exact: bool,
}

impl Success {
    // Of a call that gives neither.
    pub const PLAIN: Success = Success {
        value: 0.0,
        exact: false,
    };
}

// What a call returns, with the shape for the next call.
#[repr(C)]
#[derive(Clone, Copy)]
pub struct CallResult {
    pub code: usize,
    pub place: usize,
    pub value: f64,
    pub exact: bool,
    pub shape: Shape,
}

impl From<CallResult> for Verdict {
    ghost from_gives = { λ res verdict. verdict ≡ (Calls.answer res).verdict };

    fn from(res: CallResult) -> Verdict {
        Verdict {
            code: res.code,
            place: res.place,
            value: res.value,
        }
    }
}

// The columns before one and that one itself, judged together: none after the first that is refused decides, and all roots are exact or not.
pub fn joined<C: JudgedColumns>(before: C, column: C) -> C
    ensures { Joined (C.judged before) (C.judged column) (C.judged result) }
{
    before.join(column)
}

pub fn accepted(verdict: Verdict) -> bool
    ensures { result ≡ Refusals.accepted verdict }
{
    verdict.code == 0
}

// Whether the matrix is spent: after 10, 11 and 16 it may be neither what it was nor a factor.
fn spends(verdict: Verdict) -> bool
    ensures { result ≡ Calls.spends verdict }
{
    matches!(verdict.code, 10 | 11 | 16)
}

// The number of the state that a call returns: its new one on success.
fn state_after(call: Call, state: usize, verdict: Verdict) -> usize
    ensures { result ≡ Calls.state_after call state verdict }
{
    if accepted(verdict) {
        return match next(call, state) {
            Some(given) => usize::from(given),
            None => state,
        };
    }
    if spends(verdict) {
        return usize::from(State::Spent);
    }
    state
}

// Every call makes its result here.
pub fn judged_result(call: Call, shape: Shape, judgement: Judgement) -> CallResult
    ensures { result ≡ Calls.judged_result call shape judgement }
{
    let Judgement { verdict, exact } = judgement;
    CallResult {
        code: verdict.code,
        place: verdict.place,
        value: verdict.value,
        exact,
        shape: Shape {
            state: state_after(call, shape.state, verdict),
            ..shape
        },
    }
}

pub fn result<A: Answer>(call: Call, shape: Shape, answer: A) -> CallResult
    ensures { result ≡ Calls.judged_result call shape (A.answer answer) }
{
    judged_result(call, shape, answer.judgement())
}
