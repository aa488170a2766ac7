// Sets of ranges of bytes.
use nvm_base::Span;
use range_sets::{RangeFault, RangeSet};
use std::alloc::Global;
use std::process::Abort;
use std::test::Fail;

fn span(start: u64, len: u64) -> Span {
    Span { start, len }
}

// The set of two ranges, each given by its start and its length.
fn two(rt: &impl Abort, alloc: Global, ranges: [u64; 4]) -> Result<RangeSet, RangeFault> {
    let [start, len, other, more] = ranges;
    assert!(rt; start < 1 << 32 && len < 1 << 32);
    assert!(rt; other < 1 << 32 && more < 1 << 32);
    let first = Span { start, len };
    let second = Span {
        start: other,
        len: more,
    };
    RangeSet::make(alloc, &[first, second])
}

// Offsets into a volume's two parts, and their addresses.
static PLACES: [(u64, u64); 4] = [(0, 147456), (4095, 151551), (4096, 188416), (8191, 192511)];

static OUTSIDE: [u64; 5] = [0, 147455, 151552, 188415, 192512];

#[test]
fn bytes_are_counted_through_both_parts_of_a_volume(rt: HostRuntime) -> Result<(), Fail> {
    let set = two(&rt, rt.alloc(), [147456, 4096, 188416, 4096])?;
    assert_eq!(rt; set.total(), 8192);
    assert_eq!(rt;
        set.ranges(),
        [span(147456, 4096), span(188416, 4096)].as_slice()
    );
    for &(offset, address) in &PLACES {
        assert_eq!(rt; set.place(offset), Some(address), "at {offset}");
        assert_eq!(rt; set.offset_of(address), Some(offset), "at {address}");
    }
    assert_eq!(rt; set.place(8192), None);
    for &address in &OUTSIDE {
        assert_eq!(rt; set.offset_of(address), None, "at {address}");
    }
    Ok(())
}

// Start and length of two ranges, and what is wrong with them.
static PAIRS: [([u64; 4], Option<RangeFault>); 6] = [
    ([64, 64, 128, 64], None),
    ([128, 64, 64, 64], None),
    ([64, 64, 127, 64], Some(RangeFault::Overlap(1))),
    ([127, 64, 64, 64], Some(RangeFault::Overlap(1))),
    ([64, 64, 64, 0], Some(RangeFault::Empty(1))),
    ([64, 0, 64, 0], Some(RangeFault::Empty(0))),
];

#[test]
fn ranges_that_meet_are_a_set_and_ranges_that_share_a_byte_are_none(rt: HostRuntime) {
    for &(ranges, fault) in &PAIRS {
        assert_eq!(rt; two(&rt, rt.alloc(), ranges).err(), fault, "at {ranges:?}");
    }
}

#[test]
fn the_smallest_and_the_largest_set_are_made(rt: HostRuntime) -> Result<(), Fail> {
    let nothing = RangeSet::make(rt.alloc(), &[])?;
    assert_eq!(rt; nothing.total(), 0);
    assert_eq!(rt; nothing.place(0), None);

    let most = Span {
        start: 0,
        len: 1 << 40,
    };
    let whole = RangeSet::make(rt.alloc(), &[most])?;
    assert_eq!(rt; whole.place((1 << 40) - 1), Some((1 << 40) - 1));
    assert_eq!(rt; whole.offset_of(1 << 40), None);
    Ok(())
}

// Start and length of two ranges, and whether they are whole lines of a device of six.
static LINES: [([u64; 4], bool); 5] = [
    ([64, 64, 256, 128], true),
    ([256, 128, 64, 64], true),
    ([64, 64, 256, 192], false),
    ([65, 64, 256, 64], false),
    ([64, 65, 256, 64], false),
];

#[test]
fn a_set_of_whole_lines_fits_a_device_that_has_them(rt: HostRuntime) -> Result<(), Fail> {
    for &(ranges, fits) in &LINES {
        let set = two(&rt, rt.alloc(), ranges)?;
        assert_eq!(rt; set.fits(6), fits, "at {ranges:?}");
    }
    Ok(())
}
