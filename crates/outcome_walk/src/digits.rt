// Numbers as decimal digits, the least first.
ghost use Rattle.std.specs.Prelude.{◌≡◌, ◌+◌, ◌^◌, ◌<◌, ◌++◌, ◌∷◌, [], ◌||◌, if◌then◌else◌, IfOk, OnOk, nat_le, nat_lt, slice_index};
ghost use Rattle.outcome_walk.specs.Numbers.{AreDigits, numeral, value_of};

use nvm_base::Bytes;
use std::alloc::{AllocError, Global};

pub fn sum_of(alloc: Global, digits: &[u8], others: &[u8]) -> Result<Vec<u8>, AllocError>
    requires digits { AreDigits digits.now }
    requires others { AreDigits others.now }
    ensures sum { IfOk result (λ sum. value_of sum.items ≡ value_of digits.now + value_of others.now) }
    ensures digits { IfOk result (λ sum. AreDigits sum.items) }
{
    let count = digits.len().max(others.len());
    let mut sum = Vec::with_capacity(alloc, count)?;
    let mut carry = 0;
    for i in 0..count {
        let here = digit_at(digits, i) + digit_at(others, i) + carry;
        sum.push(here % 10)?;
        carry = here / 10;
    }
    if carry > 0 {
        sum.push(carry)?;
    }
    Ok(sum)
}

fn digit_at(digits: &[u8], place: usize) -> u8
    requires { AreDigits digits.now }
    ensures value { result ≡ slice_index digits.now place }
    ensures digit { result < 10 }
{
    match digits.get(place) {
        Some(digit) => *digit,
        None => 0,
    }
}

/// Whether their number is at most that one.
pub fn at_most(digits: &[u8], most: u64) -> bool
    requires digits { AreDigits digits.now }
    requires few { most < 2 ^ 32 }
    ensures { result ≡ nat_le (value_of digits.now) most }
{
    let mut value = 0;
    for n in 0..digits.len() {
        value = 10 * value + u64::from(digit_at(digits, digits.len() - 1 - n));
        if value > most {
            return false;
        }
    }
    true
}

/// Appends them, the greatest first, without zeros before it.
pub fn print_digits(digits: &[u8], out: &mut Bytes) -> Result<(), AllocError>
    requires { AreDigits digits.now }
    ensures { OnOk result (out.new.items ≡ out.old.items ++ numeral (value_of digits.now)) }
{
    let mut any = false;
    for n in 0..digits.len() {
        any = print_digit(digit_at(digits, digits.len() - 1 - n), any, out)?;
    }
    if !any {
        out.push(b'0')?;
    }
    Ok(())
}

// Appends it, unless it is a zero with nothing before it; whether there is anything before the next.
fn print_digit(digit: u8, any: bool, out: &mut Bytes) -> Result<bool, AllocError>
    requires { digit < 10 }
    ensures text { OnOk result (out.new.items ≡ out.old.items ++ (if any || nat_lt 0 digit then (48 + digit) ∷ [] else [])) }
    ensures any { IfOk result (λ later. later ≡ (any || nat_lt 0 digit)) }
{
    let any = any || digit > 0;
    if any {
        out.push(b'0' + digit)?;
    }
    Ok(any)
}
