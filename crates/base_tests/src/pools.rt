// Pools of units: taking, marking and giving back.
use free_pool::Pool;
use std::test::Fail;

#[test]
fn a_unit_that_comes_back_can_be_taken_again(rt: HostRuntime) -> Result<(), Fail> {
    let mut pool = Pool::new(rt.alloc(), 3)?;
    assert_eq!(rt; pool.free(), 3);
    assert!(rt; pool.is_free(1));
    assert!(rt; !pool.is_free(3));

    pool.mark(1);
    assert_eq!(rt; pool.free(), 2);
    assert!(rt; !pool.is_free(1));

    let units = [pool.take(), pool.take(), pool.take()];
    assert_eq!(rt; units.contains(&Some(0)), true);
    assert_eq!(rt; units.contains(&Some(2)), true);
    assert_eq!(rt; units[2], None);

    pool.give(1);
    assert_eq!(rt; pool.free(), 1);
    assert_eq!(rt; pool.take(), Some(1));
    Ok(())
}

#[test]
fn every_unit_of_the_smallest_and_the_largest_pool_is_taken_once(
    rt: HostRuntime,
) -> Result<(), Fail> {
    for units in [0, 1, 4160] {
        let mut pool = Pool::new(rt.alloc(), units)?;
        for _ in 0..units {
            assert!(rt; pool.take().is_some(), "of {units}");
        }
        assert_eq!(rt; pool.free(), 0, "of {units}");
        assert_eq!(rt; pool.take(), None, "of {units}");
    }
    Ok(())
}
