// Why a call refuses. Its code, place and value are made of it here alone.
ghost use Rattle.std.specs.Prelude.{◌≡◌};
ghost use Rattle.calls.specs.Calls as Calls;
ghost use Rattle.calls.specs.Outcomes.{verdict_of_refusal};

use crate::{Verdict, spends};

// The conditions of the list of refusals, each with the place and the value that it states.
#[derive(Clone, Copy)]
pub enum Refusal {
    Order,
    BlockLength,
    MatrixLength,
    WorkLength,
    RhsCount,
    RhsLength,
    MatrixValue(usize),
    RhsValue(usize),
    Diagonal(usize),
    Pivot(usize, f64),
    Overflow(usize),
    Solution(usize),
    Unknown,
    Unsuited,
    Weak(usize, f64),
    Form,
    StrikeList(usize),
}

impl From<Refusal> for Verdict {
    ghost from_gives = { λ refusal verdict. verdict ≡ verdict_of_refusal refusal };

    fn from(refusal: Refusal) -> Verdict {
        let (code, place, value) = match refusal {
            Refusal::Order => (1, 0, 0.0),
            Refusal::BlockLength => (2, 0, 0.0),
            Refusal::MatrixLength => (3, 0, 0.0),
            Refusal::WorkLength => (4, 0, 0.0),
            Refusal::RhsCount => (5, 0, 0.0),
            Refusal::RhsLength => (6, 0, 0.0),
            Refusal::MatrixValue(position) => (7, position, 0.0),
            Refusal::RhsValue(position) => (8, position, 0.0),
            Refusal::Diagonal(column) => (9, column, 0.0),
            Refusal::Pivot(column, pivot) => (10, column, pivot),
            Refusal::Overflow(column) => (11, column, 0.0),
            Refusal::Solution(rhs) => (12, rhs, 0.0),
            Refusal::Unknown => (14, 0, 0.0),
            Refusal::Unsuited => (15, 0, 0.0),
            Refusal::Weak(column, pivot) => (16, column, pivot),
            Refusal::Form => (17, 0, 0.0),
            Refusal::StrikeList(position) => (20, position, 0.0),
        };
        Verdict { code, place, value }
    }
}

impl Refusal {
    // Whether the matrix is spent.
    pub fn spends(self) -> bool
        ensures { result ≡ Calls.spends (verdict_of_refusal self) }
    {
        spends(Verdict::from(self))
    }
}
