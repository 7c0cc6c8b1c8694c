//! Whole numbers of 64 bits as mathematics: each operator gives the number that its definition on
//! unbounded numbers gives, or says that this number doesn't fit.
#![tactic(auto)]

ghost use Rattle.std.specs.Prelude.{◌≡◌, ◌≢◌, ◌↔◌, ◌+◌, ◌-◌, ◌^◌, ◌%◌, ℕ, ℤ, pos, negsuc, neg_ℤ};
ghost use Rattle.std.specs.Prelude.{◌+ℤ◌, ◌-ℤ◌, ◌*ℤ◌, ◌<ℤ◌, ◌≤ℤ◌, ◌<◌, min, max, unsigned_abs};
ghost use Rattle.std.specs.Prelude.{int_rem, IfOk, IfErr, FitsSigned};
ghost use Rattle.std.specs.Int.{w64, CanDivide, int_shr};
ghost use Rattle.tcl_arithmetic.specs.Division.{IsDivision, OneDivision, is_across};
ghost use Rattle.tcl_arithmetic.specs.Powers.{power, reduced};
ghost use Rattle.tcl_arithmetic.specs.Digits.{digit, DigitsTell};
ghost use Rattle.tcl_arithmetic.specs.Results.{IsChecked};

use thiserror::Error;

/// Why an operator has no result.
#[derive(Clone, Copy, Debug, Eq, Error, PartialEq)]
pub enum ArithmeticFault {
    /// The result doesn't fit 64 bits.
    #[error("212: integer overflow")]
    Overflow,
    /// The divisor is zero.
    #[error("213: divide by zero")]
    DivideByZero,
    /// A number is to be shifted by less than no places.
    #[error("215: negative shift argument")]
    NegativeShift,
    /// A whole number has no power below zero.
    #[error("216: negative exponent")]
    NegativeExponent,
}

/// A divisor other than zero divides a number in one way (the quotient rounded down, the remainder
/// with the divisor's sign), and zero in none.
pub fn one_division()
    ensures { OneDivision }
{}

/// Numbers of the same two's complement digits are the same.
pub fn digits_tell()
    ensures { DigitsTell }
{}

/// `a + b`.
///
/// # Errors
/// `Overflow` where the sum doesn't fit.
pub fn sum(a: i64, b: i64) -> Result<i64, ArithmeticFault>
    ensures { IsChecked result (a +ℤ b) }
{
    a.checked_add(b).ok_or(ArithmeticFault::Overflow)
}

/// `a - b`.
///
/// # Errors
/// `Overflow` where the difference doesn't fit.
pub fn difference(a: i64, b: i64) -> Result<i64, ArithmeticFault>
    ensures { IsChecked result (a -ℤ b) }
{
    a.checked_sub(b).ok_or(ArithmeticFault::Overflow)
}

/// `a * b`.
///
/// # Errors
/// `Overflow` where the product doesn't fit.
pub fn product(a: i64, b: i64) -> Result<i64, ArithmeticFault>
    ensures { IsChecked result (a *ℤ b) }
{
    a.checked_mul(b).ok_or(ArithmeticFault::Overflow)
}

/// `-a`.
///
/// # Errors
/// `Overflow` for the least number.
pub fn negation(a: i64) -> Result<i64, ArithmeticFault>
    ensures { IsChecked result (neg_ℤ a) }
{
    a.checked_neg().ok_or(ArithmeticFault::Overflow)
}

/// The size of a number.
///
/// # Errors
/// `Overflow` for the least number.
pub fn absolute(a: i64) -> Result<i64, ArithmeticFault>
    ensures { IsChecked result (pos (unsigned_abs a)) }
{
    a.checked_abs().ok_or(ArithmeticFault::Overflow)
}

/// `a / b`, rounded down.
///
/// # Errors
/// `DivideByZero`; `Overflow` where the quotient doesn't fit.
pub fn quotient(a: i64, b: i64) -> Result<i64, ArithmeticFault>
    ensures quotient { IfOk result (λ q. (r : ℤ) × IsDivision a b q r) }
    ensures zero { (result ≡ Err ArithmeticFault.DivideByZero) ↔ (b ≡ pos 0) }
    ensures fault { IfErr result
        (λ e. b ≢ pos 0 → (e ≡ ArithmeticFault.Overflow) ×
        ((q r : ℤ) → IsDivision a b q r → FitsSigned w64 q → Prim.⊥)) }
{
    if b == 0 {
        return Err(ArithmeticFault::DivideByZero);
    }
    let toward_zero = a.checked_div(b).ok_or(ArithmeticFault::Overflow)?;
    if is_across(b, rest_of(a, b)) {
        Ok(toward_zero - 1)
    } else {
        Ok(toward_zero)
    }
}

/// What a division that rounds toward zero leaves.
fn rest_of(a: i64, b: i64) -> i64
    requires { CanDivide w64 a b }
    ensures { result ≡ int_rem a b }
{
    a % b
}

/// Whether a rest is neither zero nor of the divisor's sign.
fn is_across(divisor: i64, rest: i64) -> bool
    ensures { result ≡ is_across divisor rest }
{
    if divisor < 0 { 0 < rest } else { rest < 0 }
}

/// What `a / b` leaves, which has the sign of `b`.
///
/// # Errors
/// `DivideByZero`.
pub fn remainder(a: i64, b: i64) -> Result<i64, ArithmeticFault>
    ensures remainder { IfOk result (λ r. (q : ℤ) × IsDivision a b q r) }
    ensures fault { IfErr result (λ e. (e ≡ ArithmeticFault.DivideByZero) × (b ≡ pos 0)) }
{
    if b == 0 {
        return Err(ArithmeticFault::DivideByZero);
    }
    if b == -1 {
        return Ok(0);
    }
    let rest = rest_of(a, b);
    if is_across(b, rest) {
        Ok(rest + b)
    } else {
        Ok(rest)
    }
}

/// `base ** exponent`.
///
/// # Errors
/// `NegativeExponent` where the exponent is below zero; `Overflow` where the power doesn't fit.
pub fn power_of(base: i64, exponent: i64) -> Result<i64, ArithmeticFault>
    ensures power { (n : ℕ) → exponent ≡ pos n → IsChecked result (power base n) }
    ensures negative { exponent <ℤ pos 0 → result ≡ Err ArithmeticFault.NegativeExponent }
{
    if exponent < 0 {
        return Err(ArithmeticFault::NegativeExponent);
    }
    small_power(base, reduced(exponent))
}

/// The power, where the exponent is small.
fn small_power(base: i64, exponent: u32) -> Result<i64, ArithmeticFault>
    ensures power { IsChecked result (power base exponent) }
    ensures fits { IfOk result (λ p. FitsSigned w64 p) }
{
    base.checked_pow(exponent).ok_or(ArithmeticFault::Overflow)
}

/// An exponent below 66 that does as well: from 64 on only 0, 1 and -1 have powers that fit, and
/// only whether the exponent is even tells.
fn reduced(exponent: i64) -> u32
    requires { pos 0 ≤ℤ exponent }
    ensures { (n : ℕ) → exponent ≡ pos n → result ≡ reduced n }
{
    if exponent < 64 {
        exponent as u32
    } else if exponent & 1 == 0 {
        64
    } else {
        65
    }
}

/// `a << places`: `a` times a power of two.
///
/// # Errors
/// `NegativeShift`; `Overflow` where the product doesn't fit.
pub fn shift_left(a: i64, places: i64) -> Result<i64, ArithmeticFault>
    ensures product { (n : ℕ) → places ≡ pos n → IsChecked result (a *ℤ pos (2 ^ n)) }
    ensures negative { places <ℤ pos 0 → result ≡ Err ArithmeticFault.NegativeShift }
{
    if places < 0 {
        return Err(ArithmeticFault::NegativeShift);
    }
    if a == 0 {
        return Ok(0);
    }
    if places < 63 {
        return product(a, two_to(places));
    }
    if a == -1 && places == 63 {
        return Ok(i64::MIN);
    }
    Err(ArithmeticFault::Overflow)
}

/// A power of two.
fn two_to(exponent: i64) -> i64
    requires least { pos 0 ≤ℤ exponent }
    requires most { exponent <ℤ pos 63 }
    ensures { (n : ℕ) → exponent ≡ pos n → result ≡ pos (2 ^ n) }
{
    1i64 << exponent as u32
}

/// `a >> places`: `a` divided by a power of two, rounded down.
///
/// # Errors
/// `NegativeShift`.
pub fn shift_right(a: i64, places: i64) -> Result<i64, ArithmeticFault>
    ensures quotient { (n : ℕ) → places ≡ pos n → IfOk result
        (λ q. (r : ℤ) × IsDivision a (pos (2 ^ n)) q r) }
    ensures negative { places <ℤ pos 0 → result ≡ Err ArithmeticFault.NegativeShift }
    ensures fault { IfErr result (λ e. (e ≡ ArithmeticFault.NegativeShift) × (places <ℤ pos 0)) }
{
    if places < 0 {
        return Err(ArithmeticFault::NegativeShift);
    }
    if places < 63 {
        Ok(halved(a, places as u32))
    } else if a < 0 {
        Ok(-1)
    } else {
        Ok(0)
    }
}

/// `a` halved so many times, each time rounded down.
fn halved(a: i64, times: u32) -> i64
    requires { times < 63 }
    ensures { result ≡ int_shr a times }
{
    a >> times
}

/// `a & b`: a digit is 1 where it is in both.
pub fn bitwise_and(a: i64, b: i64) -> i64
    ensures { (i : ℕ) → digit result i ≡ min (digit a i) (digit b i) }
{
    a & b
}

/// `a | b`: a digit is 1 where it is in either.
pub fn bitwise_or(a: i64, b: i64) -> i64
    ensures { (i : ℕ) → digit result i ≡ max (digit a i) (digit b i) }
{
    a | b
}

/// `a ^ b`: a digit is 1 where it is in one of the two alone.
pub fn bitwise_xor(a: i64, b: i64) -> i64
    ensures { (i : ℕ) → digit result i ≡ (digit a i + digit b i) % 2 }
{
    a ^ b
}

/// `~a`: each digit is the other.
pub fn complement(a: i64) -> i64
    ensures { (i : ℕ) → digit result i ≡ 1 - digit a i }
{
    !a
}
