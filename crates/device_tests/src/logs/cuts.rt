// Commits and mounts behind fuses of 0, 1, 2 .. calls, until one ends with Ok.
use super::{CHANGES, OPEN, SMALL, changed_line, home, is_ready, mount_until, write};
use line_device::{Choice, LineDevice, Lines, Plain};
use line_words::Interruption;
use std::alloc::Global;
use std::test::Fail;
use test_devices::Fuse;
use word_log::{LogFault, mount};

// Mounts, and commits behind a fuse of so many calls.
fn commit_behind<D: LineDevice>(
    alloc: Global,
    mut dev: D,
    calls: u64,
) -> (Result<(), Interruption>, Fuse<D>) {
    if !is_ready(&dev) {
        return (Err(Interruption::Failed), Fuse::new(dev, calls));
    }
    let Ok(mut log) = mount(alloc, &mut dev, SMALL) else {
        return (Err(Interruption::Failed), Fuse::new(dev, calls));
    };
    let mut fuse = Fuse::new(dev, calls);
    let answer = log.commit(&mut fuse, &CHANGES);
    (answer, fuse)
}

fn mount_ready<L: Lines>(alloc: Global, dev: &mut L) -> Result<(), LogFault> {
    if !is_ready(dev) {
        return Err(LogFault::Failed);
    }
    mount(alloc, dev, SMALL)?;
    Ok(())
}

#[test]
fn a_cut_commit_leaves_the_old_words_or_the_new(rt: HostRuntime) -> Result<(), Fail> {
    for choice in [Choice::Firsts, Choice::Lasts] {
        let mut done = false;
        for calls in 0..40_u64 {
            let mut dev = Plain::new(rt.alloc());
            dev.reset(3, 8)?;
            let (answer, mut fuse) = commit_behind(rt.alloc(), dev, calls);
            done = answer.is_ok();
            assert!(rt; done || answer == Err(Interruption::PowerLost));
            let mounted = mount_until(rt.alloc(), &mut fuse, choice, 1000);
            assert_eq!(rt; mounted, Ok(()));
            let line = home(&fuse);
            assert!(rt; line == changed_line() || line == [0; 64] && !done);
            if calls == 0 {
                assert_eq!(rt; line, [0; 64]);
            }
            if done {
                break;
            }
        }
        assert!(rt; done);
    }
    Ok(())
}

#[test]
fn a_cut_mount_leaves_the_new_words_to_the_next(rt: HostRuntime) -> Result<(), Fail> {
    for choice in [Choice::Firsts, Choice::Lasts] {
        let mut done = false;
        for calls in 0..40_u64 {
            let mut dev = Plain::new(rt.alloc());
            dev.reset(3, 8)?;
            assert!(rt; write(&mut dev, &OPEN));
            let mut fuse = Fuse::new(dev, calls);
            let answer = mount_ready(rt.alloc(), &mut fuse);
            done = answer.is_ok();
            assert!(rt; done || answer == Err(LogFault::PowerLost));
            let mounted = mount_until(rt.alloc(), &mut fuse, choice, 1000);
            assert_eq!(rt; mounted, Ok(()));
            assert_eq!(rt; home(&fuse), changed_line());
            if done {
                break;
            }
        }
        assert!(rt; done);
    }
    Ok(())
}
