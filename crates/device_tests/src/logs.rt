// Commits and mounts on a small log.
ghost use Rattle.std.specs.Prelude.{◌≤◌, IsTrue};
ghost use Rattle.word_log.specs.Area.{Fits, IsStrong, IsWhole};

use line_device::{Choice, LineDevice, LineState, Lines, Peek, Plain};
use line_words::{Interruption, persist_line, store_word};
use nvm_base::{LineNo, Span};
use std::alloc::Global;
use std::test::Fail;
use word_log::{LogArea, LogFault, inspect, mount, replay};

mod cuts;

const SMALL: LogArea = LogArea {
    log: Span { start: 0, len: 2 },
    cap: 4,
    home: Span { start: 16, len: 8 },
};

const CHANGES: [(u64, u64); 2] = [(16, 5), (23, 9)];

// The words of a log with an open gate and these changes.
const OPEN: [(u64, u64); 6] = [(1, 2), (8, 16), (9, 5), (10, 23), (11, 9), (0, 1)];

// The home's line after the changes, where it was zeros.
fn changed_line() -> [u8; 64] {
    let mut line = [0; 64];
    line[0] = 5;
    line[56] = 9;
    line
}

// The small log's lines are there and good, and the power is on.
fn is_ready<L: Lines>(dev: &L) -> bool
    ensures fits { IsTrue result → Fits SMALL (L.state dev.now).medium }
    ensures strong { IsTrue result → IsStrong SMALL (L.state dev.now).medium }
    ensures whole { IsTrue result → IsWhole SMALL (L.state dev.now).medium }
    ensures on { IsTrue result → IsTrue (L.state dev.now).panel.power }
{
    if dev.lines() != 3 || !dev.power() {
        return false;
    }
    for line in 0..3_u64 {
        if dev.is_bad(LineNo(line)) || dev.is_weak(LineNo(line)) {
            return false;
        }
    }
    true
}

// A device with these words, durably.
fn write<L: Lines>(dev: &mut L, words: &[(u64, u64)]) -> bool {
    for (place, value) in words {
        if !is_ready(dev) || *place >= 24 {
            return false;
        }
        if store_word(dev, *place, *value).is_err() || !is_ready(dev) {
            return false;
        }
        if persist_line(dev, *place / 8).is_err() {
            return false;
        }
    }
    true
}

// The bytes of the home's line.
fn home<D: Peek>(dev: &D) -> [u8; 64] {
    if dev.lines() != 3 {
        return [255; 64];
    }
    match dev.peek(LineNo(2)) {
        LineState::Healthy(bytes) => bytes,
        LineState::Weak(_) | LineState::Bad => [255; 64],
    }
}

// Mounts and commits, with a cut at this counted call of the commit.
fn commit_until<D: LineDevice>(alloc: Global, dev: &mut D, calls: u64) -> Result<(), Interruption>
    requires { 1 ≤ calls }
{
    if !is_ready(dev) {
        return Err(Interruption::Failed);
    }
    let Ok(mut log) = mount(alloc, dev, SMALL) else {
        return Err(Interruption::Failed);
    };
    dev.arm_cut(calls);
    log.commit(dev, &CHANGES)
}

// The power comes back, and the log is mounted, with a cut at this counted call of the mount.
fn mount_until<D: LineDevice>(
    alloc: Global,
    dev: &mut D,
    choice: Choice,
    calls: u64,
) -> Result<(), LogFault>
    requires { 1 ≤ calls }
{
    if dev.power() {
        dev.power_off();
    }
    if dev.restart(choice).is_err() {
        return Err(LogFault::Memory);
    }
    dev.arm_cut(calls);
    if !is_ready(dev) {
        return Err(LogFault::Failed);
    }
    mount(alloc, dev, SMALL)?;
    Ok(())
}

// Words of a log, and the place of the first wrong one.
static WRONG: [(&[(u64, u64)], u64); 4] = [
    (&[(0, 2)], 0),
    (&[(0, 1)], 1),
    (&[(0, 1), (1, 1), (8, 15)], 8),
    (&[(0, 1), (1, 2), (8, 16), (10, 16)], 10),
];

#[test]
fn a_wrong_log_is_refused_at_its_first_wrong_place(rt: HostRuntime) -> Result<(), Fail> {
    for &(words, place) in &WRONG {
        let mut dev = Plain::new(rt.alloc());
        dev.reset(3, 8)?;
        assert!(rt; write(&mut dev, words));
        assert!(rt; is_ready(&dev));
        assert_eq!(rt;
            inspect(rt.alloc(), &mut dev, SMALL),
            Err(LogFault::Bad(place))
        );
        let answer = mount_until(rt.alloc(), &mut dev, Choice::Lasts, 1000);
        assert_eq!(rt; answer, Err(LogFault::Bad(place)));
    }
    Ok(())
}

#[test]
fn a_commit_gives_its_words_their_values_together(rt: HostRuntime) -> Result<(), Fail> {
    let cut = Err(Interruption::PowerLost);
    for (calls, answer, line) in [(1, cut, [0; 64]), (1000, Ok(()), changed_line())] {
        let mut dev = Plain::new(rt.alloc());
        dev.reset(3, 8)?;
        assert_eq!(rt; commit_until(rt.alloc(), &mut dev, calls), answer);
        let mounted = mount_until(rt.alloc(), &mut dev, Choice::Firsts, 1000);
        assert_eq!(rt; mounted, Ok(()));
        assert_eq!(rt; home(&dev), line);
    }
    Ok(())
}

#[test]
fn a_mount_replays_an_open_log(rt: HostRuntime) -> Result<(), Fail> {
    let mut dev = Plain::new(rt.alloc());
    dev.reset(3, 8)?;
    assert!(rt; is_ready(&dev));
    assert_eq!(rt; inspect(rt.alloc(), &mut dev, SMALL), Ok(()));
    assert!(rt; write(&mut dev, &OPEN));
    assert!(rt; is_ready(&dev));
    assert_eq!(rt; inspect(rt.alloc(), &mut dev, SMALL), Ok(()));
    let mounted = mount_until(rt.alloc(), &mut dev, Choice::Lasts, 1000);
    assert_eq!(rt; mounted, Ok(()));
    assert_eq!(rt; home(&dev), changed_line());
    Ok(())
}

#[test]
fn a_replay_on_lists_gives_the_listed_words(rt: HostRuntime) -> Result<(), Fail> {
    let log = [1, 2, 0, 0, 0, 0, 0, 0, 16, 5, 23, 9, 0, 0, 0, 0];
    let mut home = [7; 8];
    replay(SMALL, &log, &mut home);
    assert_eq!(rt; home, [5, 7, 7, 7, 7, 7, 7, 9]);
    Ok(())
}
