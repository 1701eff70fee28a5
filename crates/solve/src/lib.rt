// The two solvers: each right-hand side is solved in work memory by two substitutions, on a packed factor (plain) or on a blocked one. A factor is public
// for the calls that need only a part of a solution. Work memory is lent to each method beside its struct, and its length is a clause: of a `&mut` field each
// contract would also have to say that it still holds the same memory.
#![tactic(auto)]

mod block_column;
mod blocked;
mod packed;
mod rhs;
mod runs;

pub use rhs::{Factor, solve};
