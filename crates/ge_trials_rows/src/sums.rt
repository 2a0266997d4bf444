//! A checksum.

/// The checksum of Fowler, Noll and Vo, of 64 bits, in the order that xors first.
pub fn checksum(bytes: &[u8]) -> u64 {
    let mut sum: u64 = 14_695_981_039_346_656_037;
    for byte in bytes {
        sum = (sum ^ u64::from(*byte)).wrapping_mul(1_099_511_628_211);
    }
    sum
}
