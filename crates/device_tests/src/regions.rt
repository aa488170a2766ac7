// Regions of lines in memory.
ghost use Rattle.std.specs.Prelude.{◌≡◌, ◌<◌, length, IfOk};

use raw_lines::Region;
use std::alloc::{AllocError, Global};
use std::test::Fail;

#[test]
fn each_line_of_three_is_held_written_and_bared_alone(rt: HostRuntime) -> Result<(), Fail> {
    let mut region = Region::new(rt.alloc(), 3)?;
    assert_eq!(rt; region.line(0), None);
    assert_eq!(rt; region.line(1), None);
    assert_eq!(rt; region.line(2), None);

    region.hold(0, &[3; 64]);
    region.hold(1, &[5; 64]);
    region.hold(2, &[7; 64]);
    assert_eq!(rt; region.line(1), Some([5; 64].as_slice()));

    if let Some(line) = region.line_mut(1) {
        line[0] = 1;
        line[63] = 9;
    }
    let mut written = [5; 64];
    written[0] = 1;
    written[63] = 9;
    assert_eq!(rt; region.line(1), Some(written.as_slice()));

    region.bare(1);
    assert_eq!(rt; region.line(1), None);
    assert!(rt; region.line_mut(1).is_none());

    region.hold(1, &[11; 64]);
    assert_eq!(rt; region.line(0), Some([3; 64].as_slice()));
    assert_eq!(rt; region.line(1), Some([11; 64].as_slice()));
    assert_eq!(rt; region.line(2), Some([7; 64].as_slice()));
    Ok(())
}

fn with_both_ends_held(alloc: Global, lines: u64) -> Result<Region, AllocError>
    requires { 0 < lines }
    ensures { IfOk result (λ region. length region ≡ lines) }
{
    let mut region = Region::new(alloc, lines)?;
    region.hold(0, &[1; 64]);
    region.hold(lines - 1, &[2; 64]);
    Ok(region)
}

#[test]
fn the_first_and_the_last_line_of_the_largest_medium_are_held(rt: HostRuntime) -> Result<(), Fail> {
    let region = with_both_ends_held(rt.alloc(), 236_032)?;
    let first = [1; 64];
    let last = [2; 64];
    assert_eq!(rt; region.line(0), Some(first.as_slice()));
    assert_eq!(rt; region.line(1), None);
    assert_eq!(rt; region.line(236_030), None);
    assert_eq!(rt; region.line(236_031), Some(last.as_slice()));
    Ok(())
}

#[test]
fn a_region_may_have_no_line(rt: HostRuntime) -> Result<(), Fail> {
    let _none = Region::new(rt.alloc(), 0)?;
    Ok(())
}
