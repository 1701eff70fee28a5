// What a matrix memory holds, and what each call wants and gives.
ghost use Rattle.std.specs.Prelude.{◌≡◌, ◌∷◌, []};
ghost use Rattle.calls.specs.States as States;
ghost use Rattle.calls.specs.States.{state_number, look_up};

use crate::{Call, Layout};

// A raw matrix or a factor in a layout, or neither.
#[derive(Clone, Copy, PartialEq, Eq)]
pub enum State {
    Raw(Layout),
    Factored(Layout),
    Spent,
}

// The number of a state in a shape.
impl From<State> for usize {
    ghost from_gives = { λ state number. number ≡ state_number state };

    fn from(state: State) -> usize {
        match state {
            State::Raw(Layout::Packed) => 0,
            State::Raw(Layout::Blocked) => 1,
            State::Factored(Layout::Packed) => 2,
            State::Factored(Layout::Blocked) => 3,
            State::Spent => 4,
        }
    }
}

// A row of the table.
fn row(state: usize, wanted: State, given: State) -> Option<State>
    ensures { result ≡ look_up ((wanted, given) ∷ []) state }
{
    if state == usize::from(wanted) {
        Some(given)
    } else {
        None
    }
}

// The table: what a call gives for a state that it wants, where it succeeds; no other state suits it.
pub fn next(call: Call, state: usize) -> Option<State>
    ensures { result ≡ States.next call state }
{
    match call {
        Call::Rearranger(from, to) => {
            let raw = row(state, State::Raw(from), State::Raw(to));
            raw.or(row(state, State::Factored(from), State::Factored(to)))
        }
        Call::Factor(layout) => row(state, State::Raw(layout), State::Factored(layout)),
        Call::Solver(layout) | Call::Variance(layout) => {
            row(state, State::Factored(layout), State::Factored(layout))
        }
        Call::Converter => {
            let packed = Layout::Packed;
            let raw = row(state, State::Raw(packed), State::Raw(packed));
            raw.or(row(state, State::Factored(packed), State::Factored(packed)))
        }
        Call::Strike => {
            let raw = State::Raw(Layout::Packed);
            row(state, raw, raw)
        }
    }
}
