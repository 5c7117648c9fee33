//! Printing decimals.

ghost use Rattle.std.specs.Prelude.{◌≡◌, ◌≤◌, ◌<◌, ◌+◌, ◌/◌, ◌%◌, ◌++◌, decimal, vec_len};
ghost use Rattle.std.specs.Prelude.{vec_capacity};
ghost use Rattle.acl_names.specs.Digits.{pair};
ghost use Rattle.acl_names.specs.Pushing.{PushesInRoom};
ghost use Rattle.acl_names.specs.declared.limits.TheConstants.{MAX_DIGITS};

use itoa::Buffer;
use std::alloc::AllocError;

/// Appends the number in decimal. Fails only if memory runs out, and never if `out` has room for
/// the text; what `out` held stays in front.
pub fn push_decimal(number: u32, out: &mut Vec<u8>) -> Result<(), AllocError>
    ensures { PushesInRoom (decimal number) result out.old out.new }
{
    out.extend_from_slice(Buffer::new().format(number).as_bytes())
}

/// Appends the number in decimal. `out` must have room for `MAX_DIGITS` bytes.
#[inline(always)]
pub fn put_decimal(number: u32, out: &mut Vec<u8>)
    requires { vec_len out.old + MAX_DIGITS ≤ vec_capacity out.old }
    ensures text { out.new.items ≡ out.old.items ++ decimal number }
    ensures len { vec_len out.new ≤ vec_len out.old + MAX_DIGITS }
    ensures capacity { vec_capacity out.new ≡ vec_capacity out.old }
{
    if number < 10_000 {
        put_first_four(number, out);
    } else if number < 100_000_000 {
        put_first_four(number / 10_000, out);
        put_four(number % 10_000, out);
    } else {
        put_first_two(number / 100_000_000, out);
        put_four(number / 10_000 % 10_000, out);
        put_four(number % 10_000, out);
    }
}

/// Appends a number of at most four digits.
#[inline(always)]
fn put_first_four(number: u32, out: &mut Vec<u8>)
    requires small { number < 10000 }
    requires room { vec_len out.old + 4 ≤ vec_capacity out.old }
    ensures text { out.new.items ≡ out.old.items ++ decimal number }
    ensures len { vec_len out.new ≤ vec_len out.old + 4 }
    ensures capacity { vec_capacity out.new ≡ vec_capacity out.old }
{
    if number < 100 {
        put_first_two(number, out);
    } else {
        put_first_two(number / 100, out);
        put_two(number % 100, out);
    }
}

/// Appends a number of at most two digits.
#[inline(always)]
fn put_first_two(number: u32, out: &mut Vec<u8>)
    requires small { number < 100 }
    requires room { vec_len out.old + 2 ≤ vec_capacity out.old }
    ensures text { out.new.items ≡ out.old.items ++ decimal number }
    ensures len { vec_len out.new ≤ vec_len out.old + 2 }
    ensures capacity { vec_capacity out.new ≡ vec_capacity out.old }
{
    if number < 10 {
        out.push_reserved(b'0' + number as u8);
    } else {
        put_two(number, out);
    }
}

/// Appends four digits.
#[inline(always)]
fn put_four(number: u32, out: &mut Vec<u8>)
    requires small { number < 10000 }
    requires room { vec_len out.old + 4 ≤ vec_capacity out.old }
    ensures text { out.new.items ≡ out.old.items ++ (pair (number / 100) ++ pair (number % 100)) }
    ensures len { vec_len out.new ≡ vec_len out.old + 4 }
    ensures capacity { vec_capacity out.new ≡ vec_capacity out.old }
{
    put_two(number / 100, out);
    put_two(number % 100, out);
}

/// Appends two digits.
#[inline(always)]
fn put_two(number: u32, out: &mut Vec<u8>)
    requires small { number < 100 }
    requires room { vec_len out.old + 2 ≤ vec_capacity out.old }
    ensures text { out.new.items ≡ out.old.items ++ pair number }
    ensures len { vec_len out.new ≡ vec_len out.old + 2 }
    ensures capacity { vec_capacity out.new ≡ vec_capacity out.old }
{
    out.push_reserved(b'0' + (number / 10) as u8);
    out.push_reserved(b'0' + (number % 10) as u8);
}
