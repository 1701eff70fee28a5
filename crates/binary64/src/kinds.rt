// IEEE 754's kinds of binary64, told by the exponent field and the fraction of a bit pattern.
ghost use Rattle.std.specs.Prelude.{◌≡◌};
ghost use Rattle.binary64.specs.Kinds.{kind_of_bits, kind, kind_number};

#[derive(Clone, Copy, PartialEq, Eq)]
pub enum Kind {
    Zero,
    Subnormal,
    Normal,
    Infinite,
    NaN,
}

// the weight of the exponent field, and of a significand's leading digit, which a pattern does not hold
pub const HIDDEN_BIT: u64 = 0x0010_0000_0000_0000;

// the weight of the sign
const SIGN: u64 = 0x8000_0000_0000_0000;

// The row of the table: by the exponent field, and by whether the fraction is zero.
pub fn kind_of_bits(bits: u64) -> Kind
    ensures { result ≡ kind_of_bits bits }
{
    match (bits % SIGN / HIDDEN_BIT, bits % HIDDEN_BIT == 0) {
        (0, true) => Kind::Zero,
        (0, false) => Kind::Subnormal,
        (1..=2046, _) => Kind::Normal,
        (_, true) => Kind::Infinite,
        (_, false) => Kind::NaN,
    }
}

// A NaN, which alone differs from itself, has no bits to ask for: it comes first, under its own row.
pub fn kind_of(x: f64) -> Kind
    ensures { result ≡ kind x }
{
    if x != x {
        return Kind::NaN;
    }
    kind_of_bits(f64::to_bits(x))
}

// The number of a kind, by which C is told it.
impl From<Kind> for u64 {
    ghost from_gives = { λ kind number. number ≡ kind_number kind };

    fn from(kind: Kind) -> u64 {
        match kind {
            Kind::Zero => 0,
            Kind::Subnormal => 1,
            Kind::Normal => 2,
            Kind::Infinite => 3,
            Kind::NaN => 4,
        }
    }
}
