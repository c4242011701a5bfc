//! Numbers.

ghost use Rattle.std.specs.Prelude.{◌≡◌, ◌++◌, replicate, IfOk, IfErr, OnOk, option_map};
ghost use Rattle.std.specs.String.{string_bytes};
ghost use Rattle.std.specs.Str.{IsAscii};
ghost use Rattle.swc_ecma_codegen_common.specs.declared.errors.Error.TheVariants.{OutOfMemory};
ghost use Rattle.swc_ecma_codegen_grammar.specs.DecimalValues.{decimal_digits};
ghost use Rattle.swc_ecma_codegen_literals.specs.NumberTexts.{plain_text, minified_text, plain_size, with_point, short_size, short_fraction, hexadecimal_size, whole_size, shorter_size, sign_text, option_text, SpellsDecimal};

use std::alloc::{AllocError, Global};
use swc_ecma_codegen_common::{Decimal, Error};

/// The shortest of the spellings of a number that a minifier writes: `1e3`, `.5`, `123e-6`,
/// `0x38d7ea4c68001`. `Error::OutOfMemory` where there is no room for a text.
///
/// Source: `minify_number` of swc, but a number above 2 to the 63 in size has no hexadecimal
/// spelling, and a negative one has the sign before its size.
#[tactic(auto, unfolding(crate::specs::NumberTexts::minified_text, crate::specs::NumberTexts::minified_size, crate::specs::NumberTexts::plain_text))]
pub fn minified_number(alloc: Global, number: &Decimal) -> std::result::Result<String, Error>
    ensures exactly { IfOk result (λ text. string_bytes text ≡ minified_text number.now) }
    ensures value { IfOk result (λ text. SpellsDecimal number.now (string_bytes text)) }
    ensures ascii { IfOk result (λ text. IsAscii (string_bytes text)) }
    ensures refused { IfErr result (λ error. error ≡ OutOfMemory) }
{
    let plain = plain_number(alloc, number)?;
    let hexadecimal = hexadecimal_number(alloc, number)?;
    let short = short_number(alloc, number)?;
    Ok(shorter(short, shorter(hexadecimal, plain)))
}

/// All digits of a number, without an exponent: `1000`, `0.000123`, `-0`. `Error::OutOfMemory`
/// where there is no room for the text.
///
/// Source: `Display` of Rust's `f64`, as swc writes numbers.
#[tactic(auto, unfolding(crate::specs::NumberTexts::plain_text))]
pub fn plain_number(alloc: Global, number: &Decimal) -> std::result::Result<String, Error>
    ensures exactly { IfOk result (λ text. string_bytes text ≡ plain_text number.now) }
    ensures value { IfOk result (λ text. SpellsDecimal number.now (string_bytes text)) }
    ensures ascii { IfOk result (λ text. IsAscii (string_bytes text)) }
    ensures refused { IfErr result (λ error. error ≡ OutOfMemory) }
{
    let mut text = String::new(alloc);
    text.push_str(sign(number))?;
    push_plain(&mut text, number)?;
    Ok(text)
}

fn sign(number: &Decimal) -> &'static str
    ensures { result.now ≡ sign_text number.now.negative }
{
    sign_of(number.negative())
}

// `-` of a number below zero, and of negative zero.
#[tactic(auto, unfolding(crate::specs::NumberTexts::sign_text))]
pub(crate) fn sign_of(negative: bool) -> &'static str
    ensures { result.now ≡ sign_text negative }
{
    if negative { "-" } else { "" }
}

// The one text where there is one and it is shorter than the other.
#[tactic(auto, unfolding(crate::specs::NumberTexts::shorter_size))]
fn shorter(text: Option<String>, other: String) -> String
    ensures { string_bytes result ≡ shorter_size (option_text text) (string_bytes other) }
{
    match text {
        Some(text) => {
            if text.len() < other.len() {
                text
            } else {
                other
            }
        }
        None => other,
    }
}

fn push_zeros(text: &mut String, count: usize) -> Result<(), AllocError>
    ensures { OnOk result (string_bytes text.new ≡ string_bytes text.old ++ replicate count 48) }
{
    for _ in 0..count {
        text.push('0')?;
    }
    Ok(())
}

// `12` with the exponent 1 is `120`, with -1 `1.2` and with -3 `0.012`.
#[tactic(auto, unfolding(crate::specs::NumberTexts::plain_size))]
fn push_plain(text: &mut String, number: &Decimal) -> Result<(), AllocError>
    ensures { OnOk result (string_bytes text.new
        ≡ string_bytes text.old ++ plain_size (decimal_digits number.now) number.now.exponent) }
{
    let digits = number.digits();
    let places = number.exponent().unsigned_abs() as usize;
    if number.exponent() >= 0 {
        text.push_str(digits)?;
        push_zeros(text, places)
    } else {
        push_fraction(text, digits, places)
    }
}

// `12` with the point before its last digit is `1.2`, and before its last three `0.012`.
#[tactic(auto, unfolding(crate::specs::NumberTexts::with_point))]
fn push_fraction(text: &mut String, digits: &str, places: usize) -> Result<(), AllocError>
    requires { IsAscii digits.now }
    ensures { OnOk result (string_bytes text.new
        ≡ string_bytes text.old ++ with_point digits.now places) }
{
    if places < digits.len() {
        let point = digits.len() - places;
        text.push_str(&digits[..point])?;
        text.push('.')?;
        text.push_str(&digits[point..])
    } else {
        text.push_str("0.")?;
        push_zeros(text, places - digits.len())?;
        text.push_str(digits)
    }
}

// `12e3`, `.012` and `12e-6` in place of `12000`, `0.012` and `0.000012`.
#[tactic(auto, unfolding(crate::specs::NumberTexts::short_size, crate::specs::NumberTexts::short_whole))]
fn short_number(alloc: Global, number: &Decimal) -> Result<Option<String>, AllocError>
    ensures { IfOk result (λ text. option_text text
        ≡ option_map (λ size. sign_text number.now.negative ++ size)
        (short_size number.now.negative (decimal_digits number.now) number.now.exponent)) }
{
    let places = number.exponent().unsigned_abs() as usize;
    if number.exponent() < 0 {
        short_fraction_number(alloc, number, places)
    } else if places < 3 {
        Ok(None)
    } else {
        let sign = sign(number);
        let digits = number.digits();
        Ok(Some(format!(in alloc; "{sign}{digits}e{places}")?))
    }
}

#[tactic(auto, unfolding(crate::specs::NumberTexts::short_fraction, crate::specs::NumberTexts::sign_text))]
fn short_fraction_number(
    alloc: Global,
    number: &Decimal,
    places: usize,
) -> Result<Option<String>, AllocError>
    ensures { IfOk result (λ text. option_text text
        ≡ option_map (λ size. sign_text number.now.negative ++ size)
        (short_fraction number.now.negative (decimal_digits number.now) places)) }
{
    let digits = number.digits();
    if places < digits.len() {
        return Ok(None);
    }
    let zeros = places - digits.len();
    if zeros >= 3 && !number.negative() {
        return Ok(Some(format!(in alloc; "{digits}e-{places}")?));
    }
    let mut text = String::new(alloc);
    text.push_str(sign(number))?;
    text.push('.')?;
    push_zeros(&mut text, zeros)?;
    text.push_str(digits)?;
    Ok(Some(text))
}

// `0xff` for 255, and none where a number has a fraction or is above 2 to the 63 in size.
#[tactic(auto, unfolding(crate::specs::NumberTexts::hexadecimal_size))]
fn hexadecimal_number(alloc: Global, number: &Decimal) -> Result<Option<String>, AllocError>
    ensures { IfOk result (λ text. option_text text
        ≡ option_map (λ size. sign_text number.now.negative ++ size)
        (hexadecimal_size (decimal_digits number.now) number.now.exponent)) }
{
    match whole_size(alloc, number)? {
        Some(size) => {
            let sign = sign(number);
            Ok(Some(format!(in alloc; "{sign}0x{size:x}")?))
        }
        None => Ok(None),
    }
}

// The size of a whole number of at most 2 to the 63.
#[tactic(auto, unfolding(crate::specs::NumberTexts::whole_size))]
fn whole_size(alloc: Global, number: &Decimal) -> Result<Option<u64>, AllocError>
    ensures { IfOk result (λ size. size
        ≡ whole_size (decimal_digits number.now) number.now.exponent) }
{
    if number.exponent() < 0 {
        return Ok(None);
    }
    let mut digits = String::new(alloc);
    push_plain(&mut digits, number)?;
    match digits.parse::<u64>() {
        Ok(size) => {
            if size <= 1 << 63 {
                Ok(Some(size))
            } else {
                Ok(None)
            }
        }
        Err(_) => Ok(None),
    }
}
