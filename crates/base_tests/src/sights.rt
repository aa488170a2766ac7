// Blocks as reads see them: that one can be kept at all.
use block_sights::{BlockChange, HeldBlock, Unreadable};
use std::test::Fail;

#[test]
fn a_lost_line_is_seen_until_the_block_is_written(rt: HostRuntime) -> Result<(), Fail> {
    let alloc = rt.alloc();
    let mut block = HeldBlock::of_bytes(alloc, &[7; 512])?;
    block.apply(4, &BlockChange::Lose { block: 4, line: 6 });
    block.apply(4, &BlockChange::Lose { block: 4, line: 3 });
    assert_eq!(rt;
        block.duplicate()?.read().err(),
        Some(Unreadable::BadLine(3))
    );
    assert_eq!(rt;
        HeldBlock::unreadable(alloc, Unreadable::Scarred)?
            .read()
            .err(),
        Some(Unreadable::Scarred)
    );
    let bytes = [1, 2].map(|byte| [byte; 512]);
    block.apply(
        4,
        &BlockChange::Write {
            at: 3,
            bytes: bytes.as_flattened(),
        },
    );
    let seen = block.read().ok().ok_or("read")?;
    assert_eq!(rt; seen.first(), Some(&2));
    Ok(())
}
