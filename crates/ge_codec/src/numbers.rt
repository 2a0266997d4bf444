// Numbers: big-endian in their width, signed ones in two's complement.
ghost use Rattle.std.specs.Prelude.{◌≡◌, ◌≤◌, length};
ghost use Rattle.byteorder.specs.Endian.{big_number};

use crate::canon::Canon;
use byteorder::{BigEndian, ByteOrder};
use ge_model_codec::TakeFault;
use ge_rows::Text;
use std::alloc::{AllocError, Global};

// The number in the first 4 bytes.
fn first_u32(bytes: &[u8]) -> u32
    requires { 4 ≤ length bytes.now }
    ensures { result ≡ big_number 4 bytes.now }
{
    u32::from_be_bytes([bytes[0], bytes[1], bytes[2], bytes[3]])
}

// The number in the first 8 bytes.
fn first_u64(bytes: &[u8]) -> u64
    requires { 8 ≤ length bytes.now }
    ensures { result ≡ big_number 8 bytes.now }
{
    u64::from_be_bytes([
        bytes[0], bytes[1], bytes[2], bytes[3], bytes[4], bytes[5], bytes[6], bytes[7],
    ])
}

// The number in the first 16 bytes.
fn first_u128(bytes: &[u8]) -> u128
    requires { 16 ≤ length bytes.now }
    ensures { result ≡ big_number 16 bytes.now }
{
    u128::from_be_bytes([
        bytes[0], bytes[1], bytes[2], bytes[3], bytes[4], bytes[5], bytes[6], bytes[7], bytes[8],
        bytes[9], bytes[10], bytes[11], bytes[12], bytes[13], bytes[14], bytes[15],
    ])
}

impl Canon for u8 {
    ghost use Rattle.std.proofs.Common.{lit<};
    ghost use Rattle.ge_model_codec.specs.Code.{number_code};
    ghost use Rattle.ge_codec.specs.Numbers.{number_canonical};

    ghost code = { number_code 1 };

    ghost canonical = { number_canonical 1 (lit< tt) };

    fn put(&self, out: &mut Text) -> Result<(), AllocError> {
        out.push(*self)
    }

    fn take(_alloc: Global, bytes: &[u8], at: usize) -> Result<(u8, usize), TakeFault> {
        if at >= bytes.len() {
            return Err(TakeFault::Short);
        }
        Ok((bytes[at], at + 1))
    }
}

impl Canon for u32 {
    ghost use Rattle.std.proofs.Common.{lit<};
    ghost use Rattle.ge_model_codec.specs.Code.{number_code};
    ghost use Rattle.ge_codec.specs.Numbers.{number_canonical};

    ghost code = { number_code 4 };

    ghost canonical = { number_canonical 4 (lit< tt) };

    fn put(&self, out: &mut Text) -> Result<(), AllocError> {
        let mut number = [0; 4];
        BigEndian::write_u32(&mut number, *self);
        out.append(&number)
    }

    fn take(_alloc: Global, bytes: &[u8], at: usize) -> Result<(u32, usize), TakeFault> {
        if bytes.len() - at < 4 {
            return Err(TakeFault::Short);
        }
        Ok((first_u32(&bytes[at..]), at + 4))
    }
}

impl Canon for u64 {
    ghost use Rattle.std.proofs.Common.{lit<};
    ghost use Rattle.ge_model_codec.specs.Code.{number_code};
    ghost use Rattle.ge_codec.specs.Numbers.{number_canonical};

    ghost code = { number_code 8 };

    ghost canonical = { number_canonical 8 (lit< tt) };

    fn put(&self, out: &mut Text) -> Result<(), AllocError> {
        let mut number = [0; 8];
        BigEndian::write_u64(&mut number, *self);
        out.append(&number)
    }

    fn take(_alloc: Global, bytes: &[u8], at: usize) -> Result<(u64, usize), TakeFault> {
        if bytes.len() - at < 8 {
            return Err(TakeFault::Short);
        }
        Ok((first_u64(&bytes[at..]), at + 8))
    }
}

impl Canon for u128 {
    ghost use Rattle.std.proofs.Common.{lit<};
    ghost use Rattle.ge_model_codec.specs.Code.{number_code};
    ghost use Rattle.ge_codec.specs.Numbers.{number_canonical};

    ghost code = { number_code 16 };

    ghost canonical = { number_canonical 16 (lit< tt) };

    fn put(&self, out: &mut Text) -> Result<(), AllocError> {
        let mut number = [0; 16];
        BigEndian::write_u128(&mut number, *self);
        out.append(&number)
    }

    fn take(_alloc: Global, bytes: &[u8], at: usize) -> Result<(u128, usize), TakeFault> {
        if bytes.len() - at < 16 {
            return Err(TakeFault::Short);
        }
        Ok((first_u128(&bytes[at..]), at + 16))
    }
}

impl Canon for i32 {
    ghost use Rattle.ge_model_codec.specs.Code.{signed_code};
    ghost use Rattle.ge_codec.specs.Variants.{signed_canonical};

    ghost code = { signed_code };

    ghost canonical = { signed_canonical };

    fn put(&self, out: &mut Text) -> Result<(), AllocError> {
        self.cast_unsigned().put(out)
    }

    fn take(alloc: Global, bytes: &[u8], at: usize) -> Result<(i32, usize), TakeFault> {
        let (number, end) = u32::take(alloc, bytes, at)?;
        Ok((number.cast_signed(), end))
    }
}
