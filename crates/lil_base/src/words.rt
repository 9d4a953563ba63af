ghost use Rattle.std.specs.Prelude.{◌≡◌, ◌+ℤ◌, ◌-ℤ◌, ◌*ℤ◌, pos, false};
ghost use Rattle.lil_base.specs.Words.{Cardinal, Integer, kept, sum, difference, product, quotient, remainder, negation, absolute, cardinal_result, is_zero, whole_quotient as spec_quotient, whole_rest as spec_rest};

use crate::ArithFault;

/// A whole number as a CARDINAL.
fn cardinal(whole: i64) -> Result<u16, ArithFault>
    ensures { cardinal_result result ≡ kept Cardinal whole }
{
    if whole < 0 || whole > 65535 {
        return Err(ArithFault::Overflow);
    }
    Ok(whole as u16)
}

/// A whole number as an INTEGER.
fn integer(whole: i64) -> Result<i16, ArithFault>
    ensures { result ≡ kept Integer whole }
{
    if whole < -32768 || whole > 32767 {
        return Err(ArithFault::Overflow);
    }
    Ok(whole as i16)
}

/// The sum of two whole numbers.
pub fn whole_sum(a: i32, b: i32) -> i64
    ensures { result ≡ (a +ℤ b) }
{
    i64::from(a) + i64::from(b)
}

/// The difference of two whole numbers.
pub fn whole_difference(a: i32, b: i32) -> i64
    ensures { result ≡ (a -ℤ b) }
{
    i64::from(a) - i64::from(b)
}

/// The product of two whole numbers.
pub fn whole_product(a: i32, b: i32) -> i64
    ensures { result ≡ (a *ℤ b) }
{
    i64::from(a) * i64::from(b)
}

/// The quotient of two whole numbers, rounded toward zero.
pub fn whole_quotient(a: i32, b: i32) -> i64
    requires { is_zero b ≡ false }
    ensures { result ≡ spec_quotient a b }
{
    i64::from(a) / i64::from(b)
}

/// What the quotient of two whole numbers leaves. It has the sign of the dividend.
pub fn whole_rest(a: i32, b: i32) -> i64
    requires { is_zero b ≡ false }
    ensures { result ≡ spec_rest a b }
{
    i64::from(a) % i64::from(b)
}

/// The sum of two CARDINALs.
pub fn add_card(a: u16, b: u16) -> Result<u16, ArithFault>
    ensures { cardinal_result result ≡ sum Cardinal (pos a) (pos b) }
{
    cardinal(i64::from(a) + i64::from(b))
}

/// The difference of two CARDINALs.
pub fn sub_card(a: u16, b: u16) -> Result<u16, ArithFault>
    ensures { cardinal_result result ≡ difference Cardinal (pos a) (pos b) }
{
    cardinal(i64::from(a) - i64::from(b))
}

/// The product of two CARDINALs.
pub fn mul_card(a: u16, b: u16) -> Result<u16, ArithFault>
    ensures { cardinal_result result ≡ product Cardinal (pos a) (pos b) }
{
    cardinal(i64::from(a) * i64::from(b))
}

/// The quotient of two CARDINALs.
pub fn div_card(a: u16, b: u16) -> Result<u16, ArithFault>
    ensures { cardinal_result result ≡ quotient Cardinal (pos a) (pos b) }
{
    if b == 0 {
        return Err(ArithFault::DivZero);
    }
    Ok(a / b)
}

/// What the quotient of two CARDINALs leaves.
pub fn mod_card(a: u16, b: u16) -> Result<u16, ArithFault>
    ensures { cardinal_result result ≡ remainder Cardinal (pos a) (pos b) }
{
    if b == 0 {
        return Err(ArithFault::DivZero);
    }
    Ok(a % b)
}

/// The sum of two INTEGERs.
pub fn add_int(a: i16, b: i16) -> Result<i16, ArithFault>
    ensures { result ≡ sum Integer a b }
{
    integer(i64::from(a) + i64::from(b))
}

/// The difference of two INTEGERs.
pub fn sub_int(a: i16, b: i16) -> Result<i16, ArithFault>
    ensures { result ≡ difference Integer a b }
{
    integer(i64::from(a) - i64::from(b))
}

/// The product of two INTEGERs.
pub fn mul_int(a: i16, b: i16) -> Result<i16, ArithFault>
    ensures { result ≡ product Integer a b }
{
    integer(whole_product(i32::from(a), i32::from(b)))
}

/// The quotient of two INTEGERs, rounded toward zero.
pub fn div_int(a: i16, b: i16) -> Result<i16, ArithFault>
    ensures { result ≡ quotient Integer a b }
{
    if b == 0 {
        return Err(ArithFault::DivZero);
    }
    integer(whole_quotient(i32::from(a), i32::from(b)))
}

/// What the quotient of two INTEGERs leaves.
pub fn mod_int(a: i16, b: i16) -> Result<i16, ArithFault>
    ensures { result ≡ remainder Integer a b }
{
    if b == 0 {
        return Err(ArithFault::DivZero);
    }
    integer(whole_rest(i32::from(a), i32::from(b)))
}

/// An INTEGER with the other sign.
pub fn neg_int(a: i16) -> Result<i16, ArithFault>
    ensures { result ≡ negation Integer a }
{
    integer(-i64::from(a))
}

/// An INTEGER without its sign.
pub fn abs_int(a: i16) -> Result<i16, ArithFault>
    ensures { result ≡ absolute Integer a }
{
    if a < 0 { neg_int(a) } else { Ok(a) }
}
