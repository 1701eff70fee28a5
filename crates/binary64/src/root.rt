// The square root of a positive finite value, by its bit pattern: normalise, take the integer root digit by digit, round and assemble.
ghost use Rattle.std.specs.Prelude.{◌*◌, ◌^◌, ◌<◌};
ghost use Rattle.binary64.specs.RootSteps.{PositiveFinite, Normalised, IntegerRoot, RootFound};

use crate::kinds::{HIDDEN_BIT, Kind, kind_of_bits};

// significand · 2^exponent, with a significand of 53 binary digits
#[derive(Clone, Copy)]
pub struct Scaled {
    pub significand: u64,
    pub exponent: u64,
}

// a whole number's root, rounded down, and what its square leaves
#[derive(Clone, Copy)]
pub struct Floor {
    pub root: u64,
    pub remainder: u64,
}

// the root's bit pattern, and whether its square is the argument exactly
#[derive(Clone, Copy)]
pub struct Found {
    pub bits: u64,
    pub exact: bool,
}

// The pattern's value on the scale of `scaled`. A subnormal's fraction is brought to 53 digits: its leading zeros beyond 11 give the shift,
// by which the exponent is less. The other patterns that the contract lets in are normal, and without a sign the quotient is the exponent field.
fn normalise(bits: u64) -> Scaled
    requires { PositiveFinite bits }
    ensures { Normalised bits result.significand result.exponent }
{
    let fraction = bits % HIDDEN_BIT;
    match kind_of_bits(bits) {
        Kind::Subnormal => {
            let shift = u64::from(fraction.leading_zeros()) - 11;
            Scaled {
                significand: fraction << shift,
                exponent: 1076 - shift,
            }
        }
        _ => Scaled {
            significand: fraction + HIDDEN_BIT,
            exponent: bits / HIDDEN_BIT + 1075,
        },
    }
}

// The root of s · 2^54, rounded down. Each turn brings down two binary digits of s and finds one of the root.
fn integer_root(s: u64) -> Floor
    requires { s < 2 ^ 54 }
    ensures { IntegerRoot (s * 2 ^ 54) result.root result.remainder }
{
    let mut rest = s;
    let mut root: u64 = 0;
    let mut remainder: u64 = 0;
    for i in 0..54u64 {
        remainder = 4 * remainder + rest / HIDDEN_BIT;
        rest = rest % HIDDEN_BIT * 4;
        root = 2 * root;
        if remainder > 2 * root {
            remainder = remainder - (2 * root + 1);
            root = root + 1;
        }
    }
    Floor { root, remainder }
}

// Of 54 digits the last rounds the others up. It is never a tie: an odd integer root has a remainder. The exponent is halved, and the
// significand's leading digit adds one to its field.
pub fn root_of_bits(bits: u64) -> Found
    requires { PositiveFinite bits }
    ensures { RootFound bits result.bits result.exact }
{
    let x = normalise(bits);
    let exponent = x.exponent;
    let floor = integer_root(x.significand << (exponent % 2));
    let root = floor.root;
    Found {
        bits: (root + 1) / 2 + (exponent - 54) / 2 * HIDDEN_BIT,
        exact: floor.remainder == 0,
    }
}
