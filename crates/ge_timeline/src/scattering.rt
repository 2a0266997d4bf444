// Limits are scattered over buckets.
ghost use Rattle.std.specs.Prelude.{◌≡◌, ◌*◌, ◌/◌, ◌^◌, ◌<◌, fold};
ghost use Rattle.ge_timeline.specs.Scattered.{with_number, with_four, with_text, with_instance, with_filters, scattered, bucket_of};

use ge_rows::{InstanceId, LimitId, QuotaKey, Text};

#[tactic(auto, unfolding(crate::specs::Scattered::with_number))]
fn add_number(sum: u64, number: u32) -> u64
    ensures { result ≡ with_number sum number }
{
    sum.wrapping_add(u64::from(number))
        .wrapping_mul(6_364_136_223_846_793_005)
}

fn add_byte(sum: u64, byte: u8) -> u64
    ensures { result ≡ with_number sum byte }
{
    add_number(sum, u32::from(byte))
}

#[tactic(auto, unfolding(crate::specs::Scattered::with_four))]
fn add_four(sum: u64, bytes: &[u8; 4]) -> u64
    ensures { result ≡ with_four sum bytes.now }
{
    add_number(sum, u32::from_le_bytes(*bytes))
}

fn add_fours(sum: u64, fours: &[[u8; 4]]) -> u64
    ensures { result ≡ fold with_four sum fours.now }
{
    fours.iter().fold(sum, |sum, bytes| add_four(sum, bytes))
}

fn add_each(sum: u64, bytes: &[u8]) -> u64
    ensures { result ≡ fold with_number sum bytes.now }
{
    bytes.iter().fold(sum, |sum, byte| add_byte(sum, *byte))
}

#[tactic(auto, unfolding(crate::specs::Scattered::with_text))]
fn add_text(sum: u64, text: &Text) -> u64
    ensures { result ≡ with_text sum text.now }
{
    let (fours, rest) = text.bytes().as_chunks::<4>();
    add_each(add_fours(sum, fours), rest)
}

#[tactic(auto, unfolding(crate::specs::Scattered::with_instance))]
fn add_instance(sum: u64, at: &InstanceId) -> u64
    ensures { result ≡ with_instance sum at.now }
{
    add_text(add_text(sum, &at.queue), &at.host)
}

#[tactic(auto, unfolding(crate::specs::Scattered::with_filters))]
fn add_filters(sum: u64, key: &QuotaKey) -> u64
    ensures { result ≡ with_filters sum key.now }
{
    let sum = add_text(add_text(sum, &key.user), &key.project);
    add_text(add_text(add_text(sum, &key.pe), &key.queue), &key.host)
}

#[tactic(auto, unfolding(crate::specs::Scattered::scattered))]
fn scatter(limit: &LimitId) -> u64
    ensures { result ≡ scattered limit.now }
{
    match limit {
        LimitId::Instance(at, name) => add_text(add_instance(0, at), name),
        LimitId::Host(host, name) => add_text(add_text(0, host), name),
        LimitId::Global(name) | LimitId::Pe(name) => add_text(0, name),
        LimitId::Quota(key) => {
            let sum = add_text(u64::from(key.rule), &key.set);
            add_text(add_filters(sum, key), &key.resource)
        }
        LimitId::Advance(number, at) => add_instance(u64::from(*number), at),
    }
}

// The part of so many that a number is of all numbers. It costs less than a remainder, which divides.
#[tactic(auto, using(crate::proofs::Parted::part_fits, crate::proofs::Parted::part_within))]
fn part_of(size: usize, number: u64) -> usize
    requires { 0 < size }
    ensures part { result ≡ number * size / 2 ^ 64 }
    ensures within { result < size }
{
    ((u128::from(number) * size as u128) >> 64) as usize
}

/// The bucket of a limit among so many.
#[tactic(auto, unfolding(crate::specs::Scattered::bucket_of))]
pub(crate) fn bucket_among(size: usize, limit: &LimitId) -> usize
    requires { 0 < size }
    ensures bucket { result ≡ bucket_of size limit.now }
    ensures within { result < size }
{
    part_of(size, scatter(limit))
}
