//! Each call once, with values worked out by hand.

use super::{Refusal, code, halved, product_of, sum_of};

#[test]
fn each_call_once(rt: HostRuntime) {
    assert_eq!(rt; code(Refusal::Syntax), 11);
    assert_eq!(rt; code(Refusal::StaleReport), 22);
    assert_eq!(rt; code(Refusal::NoMemory), 99);
    assert_eq!(rt; sum_of(7, 8), 15);
    assert_eq!(rt; sum_of(u128::MAX - 1, 2), u128::MAX);
    assert_eq!(rt;
        product_of(1_000_000_000_000, 1_000_000_000_000),
        1_000_000_000_000_000_000_000_000
    );
    assert_eq!(rt; product_of(1 << 100, 1 << 28), u128::MAX);
    assert_eq!(rt; halved(1000, 3), 125);
    assert_eq!(rt; halved(u128::MAX, 127), 1);
    assert_eq!(rt; halved(u128::MAX, 128), 0);
    assert_eq!(rt; halved(u128::MAX, u64::MAX), 0);
}
