// Ranges that are placed, freed and compacted, up to the most ranges of the greatest size.
use code_space::{CodeMove, CodeSpace, MAX_RANGES, MAX_SIZE};
use std::test::Fail;

#[test]
fn ranges_are_placed_freed_and_compacted(rt: HostRuntime) -> Result<(), Fail> {
    let mut space = CodeSpace::new(rt.alloc());
    assert_eq!(rt; space.place(8)?, 4_096);
    assert_eq!(rt; space.place(12)?, 4_104);
    assert!(rt; space.range_at(4_096).is_some());
    space.free(4_096);
    let moves = space.compact()?;
    let moved = CodeMove {
        from: 4_104,
        to: 4_096,
    };
    assert_eq!(rt; moves.as_slice(), [moved].as_slice());
    Ok(())
}

#[test]
fn the_space_takes_512_ranges_of_the_greatest_size(rt: HostRuntime) -> Result<(), Fail> {
    let mut space = CodeSpace::new(rt.alloc());
    for at in 0..512u32 {
        assert!(rt; space.len() < MAX_RANGES);
        assert_eq!(rt; space.place(MAX_SIZE)?, 4_096 + at * 16_384);
    }
    for pair in 0..256u32 {
        let start = 4_096 + pair * 32_768;
        assert!(rt; space.range_at(start).is_some());
        space.free(start);
    }
    for start in [4_096, 36_864] {
        assert!(rt; space.len() < MAX_RANGES);
        assert_eq!(rt; space.place(MAX_SIZE)?, start);
    }
    // Of the 258 ranges the first four already lie without holes.
    assert_eq!(rt; space.compact()?.len(), 254);
    assert_eq!(rt;
        space.as_slice().last().map(|range| range.start),
        Some(4_214_784)
    );
    Ok(())
}
