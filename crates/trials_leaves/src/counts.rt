//! Counts that are longer than a machine's numbers.

use long_count::LongCount;
use std::test::Fail;

#[test]
fn counts_grow_past_64_bits(rt: HostRuntime) -> Result<(), Fail> {
    let alloc = rt.alloc();
    let one = LongCount::of(alloc, 1)?;
    let past = LongCount::of(alloc, u64::MAX)?.plus(alloc, &one)?;
    assert_eq!(rt;
        past.text(alloc)?.as_slice(),
        b"18446744073709551616".as_slice()
    );
    let square = LongCount::zero(alloc)
        .plus_times(alloc, &past, u64::MAX)?
        .plus(alloc, &past)?;
    assert_eq!(rt;
        square.text(alloc)?.as_slice(),
        b"340282366920938463463374607431768211456".as_slice()
    );
    Ok(())
}

#[test]
fn counts_have_no_zeros_before_them(rt: HostRuntime) -> Result<(), Fail> {
    let alloc = rt.alloc();
    let zero = LongCount::zero(alloc);
    assert_eq!(rt; zero.text(alloc)?.as_slice(), b"0".as_slice());
    let one = LongCount::of(alloc, 1)?.plus_times(alloc, &LongCount::of(alloc, 100)?, 0)?;
    assert_eq!(rt; one.text(alloc)?.as_slice(), b"1".as_slice());
    Ok(())
}
