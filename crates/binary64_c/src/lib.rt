// The root and the kinds of crate binary64 for other languages: each function under its name.
#![tactic(auto)]

ghost use Rattle.std.specs.Prelude.{◌≡◌};
ghost use Rattle.binary64.specs.Kinds.{kind, kind_of_bits, kind_number};
ghost use Rattle.binary64.specs.Root.{root, exact};

use binary64::{kind_of, kind_of_bits, square_root};

#[unsafe(no_mangle)]
pub extern "C" fn metsovary_square_root(x: f64) -> f64
    ensures { result ≡ root x }
{
    square_root(x).value
}

#[unsafe(no_mangle)]
pub extern "C" fn metsovary_root_is_exact(x: f64) -> bool
    ensures { result ≡ exact x }
{
    square_root(x).exact
}

#[unsafe(no_mangle)]
pub extern "C" fn metsovary_kind(x: f64) -> u64
    ensures { result ≡ kind_number (kind x) }
{
    u64::from(kind_of(x))
}

#[unsafe(no_mangle)]
pub extern "C" fn metsovary_kind_of_bits(bits: u64) -> u64
    ensures { result ≡ kind_number (kind_of_bits bits) }
{
    u64::from(kind_of_bits(bits))
}
