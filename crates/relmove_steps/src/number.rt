//! Numbers without a greatest one.
ghost use Rattle.std.specs.Prelude.{◌≡◌, ◌<◌, ◌+◌, ℕ, ◌++◌, All, IfOk, OnOk, map, string_bytes};
ghost use mathlib.Core.List.{reverse};
ghost use Rattle.relmove_steps.specs.Numbers.{AreDigits, number_of, numeral, units_first};

use std::alloc::{AllocError, Global};
use std::marker::Model;

// A number.
#[derive(Drop)]
pub(crate) struct Number {
    // Its decimal digits, the units first. 0 has none.
    digits: Vec<u8>,
}

impl Model for Number {
    // contracts see the number
    ghost Value = { ℕ };

    // the number with these digits
    ghost view = { λ number. number_of number.digits.items };

    // they are the number's digits
    ghost invariant = { λ number. AreDigits number.digits.items };
}

impl Number {
    // Returns 0. Allocates nothing.
    pub(crate) fn zero(alloc: Global) -> Number
        ensures { result ≡ 0 }
    {
        Number {
            digits: Vec::new(alloc),
        }
    }

    // Returns the next number.
    pub(crate) fn next(&self, alloc: Global) -> Result<Number, AllocError>
        ensures { IfOk result (λ next. next ≡ self.now + 1) }
    {
        let digits = next_digits(alloc, &self.digits)?;
        Ok(Number { digits })
    }

    // Adds the number to a text.
    pub(crate) fn push_onto(&self, text: &mut String) -> Result<(), AllocError>
        requires { 0 < self.now }
        ensures { OnOk result (string_bytes text.new ≡ string_bytes text.old ++ numeral self.now) }
    {
        push_digits(text, &self.digits)
    }
}

// Returns the digits of the next number.
fn next_digits(alloc: Global, digits: &[u8]) -> Result<Vec<u8>, AllocError>
    requires { AreDigits digits.now }
    ensures { IfOk result (λ next. next.items ≡ units_first (number_of digits.now + 1)) }
{
    let mut next = Vec::with_capacity(alloc, digits.len())?;
    let mut carry = 1u8;
    for digit in digits {
        let sum = *digit + carry;
        next.push(sum % 10)?;
        carry = sum / 10;
    }
    if carry > 0 {
        next.push(carry)?;
    }
    Ok(next)
}

// Adds digits to a text, from the last to the first.
fn push_digits(text: &mut String, digits: &[u8]) -> Result<(), AllocError>
    requires { All (λ digit. digit < 10) digits.now }
    ensures { OnOk result (string_bytes text.new
        ≡ string_bytes text.old ++ map (λ digit. 48 + digit) (reverse digits.now)) }
{
    let mut left = digits.len();
    while left > 0 {
        left -= 1;
        text.push(char::from(b'0' + digits[left]))?;
    }
    Ok(())
}
