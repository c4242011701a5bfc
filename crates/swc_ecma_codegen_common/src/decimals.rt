//! Decimal numbers.

ghost use Rattle.std.specs.Prelude.{◌≡◌, true, false, MatchOption, IfSome};
ghost use Rattle.std.specs.Char.{is_ascii_digit};
ghost use Rattle.std.specs.List.{list_all};
ghost use Rattle.std.specs.String.{string_bytes};
ghost use Rattle.swc_ecma_codegen_common.specs.DecimalParts.{is_decimal, is_significand};

/// A finite number: its digits times ten to its exponent. `12` with the exponent -1 is 1.2.
#[derive(Debug, Drop)]
pub struct Decimal {
    negative: bool,
    digits: String,
    exponent: i32,
    pub ghost normal: { is_decimal (string_bytes digits) exponent ≡ true },
}

impl Decimal {
    /// The number `digits` times ten to `exponent`, below zero (or negative zero) where `negative`. `None` unless the
    /// digits are 1 to 800 ASCII digits without a leading or trailing zero, or `0` times ten to 0, and `exponent` lies
    /// between -1100 and 1100 (both allowed): so each number has one form. Takes no memory.
    pub fn new(negative: bool, digits: String, exponent: i32) -> Option<Decimal>
        ensures exactly { MatchOption result (is_decimal (string_bytes digits) exponent ≡ false)
            (λ _. is_decimal (string_bytes digits) exponent ≡ true) }
        ensures parts { IfSome result (λ number. (number.negative ≡ negative)
            × (number.digits ≡ digits) × (number.exponent ≡ exponent)) }
    {
        if is_normal(digits.as_bytes(), exponent) {
            Some(Decimal {
                negative,
                digits,
                exponent,
            })
        } else {
            None
        }
    }

    /// Whether a `-` comes before it; true of negative zero.
    pub fn negative(&self) -> bool
        ensures { result ≡ self.now.negative }
    {
        self.negative
    }

    /// Its digits, as a whole number.
    pub fn digits(&self) -> &str
        ensures { result.now ≡ string_bytes self.now.digits }
    {
        self.digits.as_str()
    }

    /// The power of ten that its digits are taken times.
    pub fn exponent(&self) -> i32
        ensures { result ≡ self.now.exponent }
    {
        self.exponent
    }
}

#[tactic(auto, unfolding(crate::specs::DecimalParts::is_decimal))]
fn is_normal(digits: &[u8], exponent: i32) -> bool
    ensures { result ≡ is_decimal digits.now exponent }
{
    -1100 <= exponent
        && exponent <= 1100
        && (has_no_outer_zeros(digits) || (digits == b"0".as_slice() && exponent == 0))
}

// 1 to 800 digits, of which neither the first nor the last is zero.
#[tactic(auto, unfolding(crate::specs::DecimalParts::is_significand))]
fn has_no_outer_zeros(digits: &[u8]) -> bool
    ensures { result ≡ is_significand digits.now }
{
    !digits.is_empty()
        && digits.len() <= 800
        && digits[0] != b'0'
        && digits[digits.len() - 1] != b'0'
        && all_digits(digits)
}

fn all_digits(digits: &[u8]) -> bool
    ensures { result ≡ list_all is_ascii_digit digits.now }
{
    digits.iter().all(|digit| digit.is_ascii_digit())
}
