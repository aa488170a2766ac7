// Images that go to a device and come back.
use image_file::{Image, extract, fresh, install};
use line_device::{LineList, LineState, Lines, Plain};
use nvm_base::LineNo;
use std::test::*;
use word_tables::Geometry;

// 8 blocks, 2 pages of the volume and 32 pages of files: 5,056 lines.
const SMALL: Geometry = Geometry {
    blocks: 8,
    vpages: 2,
    fpages: 32,
};

#[test]
fn lines_go_to_a_device_and_come_back_as_last_stored(rt: HostRuntime) -> Result<(), Fail> {
    let image = fresh(rt.alloc(), SMALL)?;
    let mut device = Plain::new(rt.alloc());
    install(&mut device, &image)?;
    if !device.power() || device.lines() <= 7 {
        return Err("the device has 5,056 lines".into());
    }
    device.store(LineNo(7), 8, &[5; 8])?;
    let after = extract(rt.alloc(), &mut device, 8)?;
    assert_eq!(rt; after.unit, 8);
    assert_eq!(rt; after.lines.len(), 5056);
    let mut stored = [0; 64];
    stored[8..16].fill(5);
    for (n, (is, was)) in after
        .lines
        .as_slice()
        .iter()
        .zip(image.lines.as_slice())
        .enumerate()
    {
        let line = if n == 7 {
            LineState::Healthy(stored)
        } else {
            *was
        };
        assert_eq!(rt; *is, line, "line {n}");
    }
    Ok(())
}

#[test]
fn weak_and_bad_lines_go_to_a_device_and_come_back(rt: HostRuntime) -> Result<(), Fail> {
    let told = [
        LineState::Bad,
        LineState::Weak([3; 64]),
        LineState::Healthy([4; 64]),
    ];
    let mut lines = LineList::new(rt.alloc());
    lines.extend(&told)?;
    let mut device = Plain::new(rt.alloc());
    install(&mut device, &Image { unit: 8, lines })?;
    let after = extract(rt.alloc(), &mut device, 8)?;
    assert_eq!(rt; after.lines.as_slice(), told.as_slice());
    Ok(())
}
