// Texts, lists and numbers at both ends of their sizes.
use prof_base::{
    FuncId, Micros, Sequence, SessionId, Text, TextRefused, gcd, rounded, source_interval,
};
use std::test::Fail;

#[test]
fn a_text_is_up_to_200_printable_bytes(rt: HostRuntime) -> Result<(), Fail> {
    let alloc = rt.alloc();
    let mut bytes = vec![in alloc; b' '; 201]?;
    bytes[199] = b'~';
    for printable in [b"".as_slice(), &bytes[..200]] {
        let text = Text::new(alloc, printable)?;
        assert_eq!(rt; text.copy()?.as_str().as_bytes(), printable);
    }
    assert_eq!(rt; Text::new(alloc, &bytes).err(), Some(TextRefused::TooLong));
    bytes[199] = 0x7F;
    let refused = Text::new(alloc, &bytes[..200]).err();
    assert_eq!(rt; refused, Some(TextRefused::NotPrintable { at: 199 }));
    Ok(())
}

#[test]
fn a_sequence_keeps_its_elements_in_order(rt: HostRuntime) -> Result<(), Fail> {
    let mut numbers = Sequence::new(rt.alloc());
    numbers.push(FuncId(3))?;
    numbers.push(FuncId(1))?;
    let again = Sequence::from_vec(numbers.copy()?.into_vec());
    assert_eq!(rt; again.as_slice(), [FuncId(3), FuncId(1)].as_slice());
    Ok(())
}

#[test]
fn numbers_at_both_ends(rt: HostRuntime) {
    for (base, interval, want) in [
        (1, 0, 1),
        (1000, 1001, 2000),
        (1, 1_000_000_000, 1_000_000_000),
        (1_000_000_000, 1, 1_000_000_000),
        (999_999_999, 1_000_000_000, 1_999_999_998),
    ] {
        assert_eq!(rt; rounded(base, interval), want, "{interval} at base {base}");
    }
    assert_eq!(rt; source_interval(1000, &[]), 0);
    assert_eq!(rt;
        source_interval(999_999_999, &[1_000_000_000, 1]),
        999_999_999
    );
    assert_eq!(rt; gcd(u64::MAX, 0), u64::MAX);
    assert_eq!(rt; Micros::new(Micros::MAX).value(), 9_007_199_254_740_991);
    assert_eq!(rt; SessionId(u32::MAX).0, 4_294_967_295);
}
