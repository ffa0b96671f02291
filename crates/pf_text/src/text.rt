//! Text that grows at its end.

ghost use Rattle.std.specs.Prelude.{◌≡◌, ◌+◌, ◌<◌, ◌≤◌, ◌++◌, ◌∷◌, [], length, vec_capacity, vec_len, OnErr, OnOk};
ghost use Rattle.std.specs.Fmt.{decimal, signed_decimal};

use itoa::Buffer;
use pf_errors::NoMemory;

/// The longest text that goes byte by byte: to hand on a few bytes as one piece costs more.
const SHORT: usize = 16;

/// Puts bytes for which there is room, one by one.
#[inline(always)]
fn put_each(out: &mut Vec<u8>, bytes: &[u8])
    requires { vec_len out.old + length bytes.now ≤ vec_capacity out.old }
    ensures { out.new.items ≡ out.old.items ++ bytes.now }
{
    for byte in bytes {
        out.push_reserved(*byte);
    }
}

/// Puts bytes at the end, or nothing if there is no room and an allocation failed.
#[inline(always)]
pub fn put(out: &mut Vec<u8>, bytes: &[u8]) -> Result<(), NoMemory>
    ensures ok { OnOk result (out.new.items ≡ out.old.items ++ bytes.now) }
    ensures err { OnErr result (out.new.items ≡ out.old.items) }
    ensures full { OnErr result (vec_capacity out.old < vec_len out.old + length bytes.now) }
{
    if bytes.len() <= SHORT && bytes.len() <= out.capacity() - out.len() {
        put_each(out, bytes);
        return Ok(());
    }
    out.extend_from_slice(bytes)?;
    Ok(())
}

/// Puts one byte at the end, or nothing if there is no room and an allocation failed.
#[inline(always)]
pub fn put_byte(out: &mut Vec<u8>, byte: u8) -> Result<(), NoMemory>
    ensures ok { OnOk result (out.new.items ≡ out.old.items ++ byte ∷ []) }
    ensures err { OnErr result (out.new.items ≡ out.old.items) }
    ensures full { OnErr result (vec_capacity out.old ≤ vec_len out.old) }
{
    if out.len() < out.capacity() {
        out.push_reserved(byte);
        return Ok(());
    }
    out.push(byte)?;
    Ok(())
}

/// Puts the digits of a number from 100 on, or nothing if an allocation failed.
#[inline(never)]
fn put_long_number(out: &mut Vec<u8>, number: u64) -> Result<(), NoMemory>
    ensures ok { OnOk result (out.new.items ≡ out.old.items ++ decimal number) }
    ensures err { OnErr result (out.new.items ≡ out.old.items) }
{
    let mut digits = Buffer::new();
    put(out, digits.format(number).as_bytes())
}

/// Puts the digits of a number, or nothing if an allocation failed.
#[inline(always)]
pub fn put_number(out: &mut Vec<u8>, number: u64) -> Result<(), NoMemory>
    ensures ok { OnOk result (out.new.items ≡ out.old.items ++ decimal number) }
    ensures err { OnErr result (out.new.items ≡ out.old.items) }
{
    if number < 10 {
        return put_byte(out, b'0' + number as u8);
    }
    if number < 100 {
        return put(
            out,
            &[b'0' + (number / 10) as u8, b'0' + (number % 10) as u8],
        );
    }
    put_long_number(out, number)
}

/// Puts a number below zero, or nothing if an allocation failed.
#[inline(never)]
fn put_negative(out: &mut Vec<u8>, value: i64) -> Result<(), NoMemory>
    ensures ok { OnOk result (out.new.items ≡ out.old.items ++ signed_decimal value) }
    ensures err { OnErr result (out.new.items ≡ out.old.items) }
{
    let mut digits = Buffer::new();
    put(out, digits.format(value).as_bytes())
}

/// Puts a number that may have a sign, or nothing if an allocation failed.
pub fn put_signed(out: &mut Vec<u8>, value: i64) -> Result<(), NoMemory>
    ensures ok { OnOk result (out.new.items ≡ out.old.items ++ signed_decimal value) }
    ensures err { OnErr result (out.new.items ≡ out.old.items) }
{
    if value < 0 {
        return put_negative(out, value);
    }
    put_number(out, value.unsigned_abs())
}
