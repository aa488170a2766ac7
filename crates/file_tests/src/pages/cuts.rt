// Acts on fuses of 0, 1, 2 .. calls, until one ends well.
ghost use Rattle.std.specs.Prelude.{◌≡◌, IfOk, IsTrue};
ghost use Rattle.line_device.specs.Plain.{device_of};
ghost use Rattle.file_journal.specs.Tables.{known_units};
ghost use Rattle.file_pages.specs.Object.{PagesServe, is_settled};

use super::lines::weaken;
use super::{Act, Told, open, perform, with_file};
use file_actions::ActionFault;
use file_pages::{FilePages, PageFault};
use line_device::{Choice, LineDevice, Plain};
use std::alloc::Global;
use std::test::Fail;
use test_devices::Fuse;

// A store that makes the file's lines what they are, of which the line of one byte gets weak; an act on a fuse; and looks at
// what it left, of which each tells 1 for what is so.
#[derive(Clone, Copy)]
struct Trial {
    before: Act,
    weak: u64,
    during: Act,
    looks: [Act; 4],
}

// A device as the trial has it, and its files.
fn begun(alloc: Global, choice: Choice, trial: Trial) -> Result<(FilePages, Plain), Fail>
    ensures serves { IfOk result (λ r. PagesServe r.0 (device_of r.1).medium) }
    ensures held { IfOk result (λ r. known_units r.0.journal.tables.pages r.0.journal.free ≡ r.0.journal.geo.fpages) }
{
    let mut device = with_file(alloc)?;
    if !prepare(alloc, &mut device, choice, trial) {
        return Err(Fail::from("the act before"));
    }
    let files = open(alloc, &mut device, Choice::Lasts)?;
    Ok((files, device))
}

fn prepare(alloc: Global, device: &mut Plain, choice: Choice, trial: Trial) -> bool {
    let Ok(mut files) = open(alloc, device, choice) else {
        return false;
    };
    let told = perform(&mut files, device, trial.before);
    !matches!(told, Told::Page(_) | Told::Action(_))
        && (trial.weak == NONE || weaken(&files, device, trial.weak))
}

// No byte of the file.
const NONE: u64 = u64::MAX;

// Performs an act on a fuse of this number of calls.
fn perform_behind<D: LineDevice>(
    files: &mut FilePages,
    dev: D,
    calls: u64,
    act: Act,
) -> (Told, Fuse<D>)
    requires serves { IsTrue (is_settled files.old) → PagesServe files.old (D.state dev).medium }
    requires held { IsTrue (is_settled files.old) → known_units files.old.journal.tables.pages files.old.journal.free ≡ files.old.journal.geo.fpages }
{
    let mut fuse = Fuse::new(dev, calls);
    let told = perform(files, &mut fuse, act);
    (told, fuse)
}

// What the looks tell after a restart.
fn looked(
    alloc: Global,
    fuse: &mut Fuse<Plain>,
    choice: Choice,
    looks: [Act; 4],
) -> Result<[Told; 4], Fail> {
    let mut files = open(alloc, fuse, choice)?;
    let first = perform(&mut files, fuse, looks[0]);
    let second = perform(&mut files, fuse, looks[1]);
    let third = perform(&mut files, fuse, looks[2]);
    let fourth = perform(&mut files, fuse, looks[3]);
    Ok([first, second, third, fourth])
}

// Whether the power went in the act.
fn is_cut(told: Told) -> bool {
    told == Told::Page(PageFault::PowerLost) || told == Told::Action(ActionFault::PowerLost)
}

// Whether the act on a fuse of this number of calls ended well, and what the looks report after a restart.
fn outcome(
    alloc: Global,
    trial: Trial,
    choice: Choice,
    calls: u64,
) -> Result<(bool, [Told; 4]), Fail> {
    let (mut files, device) = begun(alloc, choice, trial)?;
    let (told, mut fuse) = perform_behind(&mut files, device, calls, trial.during);
    let done = told == Told::Done || told == Told::Filled;
    if files.settled() != done || !done && !is_cut(told) {
        return Err(Fail::from("the answer"));
    }
    let left = looked(alloc, &mut fuse, choice, trial.looks)?;
    Ok((done, left))
}

const HOLES: Trial = Trial {
    before: Act::Used,
    weak: NONE,
    during: Act::Store(4092, 8, 7),
    looks: [
        Act::Used,
        Act::Used,
        Act::Shows(4092, &[(8, 0)]),
        Act::Shows(4092, &[(8, 7)]),
    ],
};

#[test]
fn the_holes_of_a_store_are_filled_together_wherever_the_power_goes(
    rt: HostRuntime,
) -> Result<(), Fail> {
    for choice in [Choice::Firsts, Choice::Lasts] {
        let mut done = false;
        // The first calls make the lines of two pages zeros.
        for calls in 126..180_u64 {
            let (ended, [used, _, zeros, sevens]) = outcome(rt.alloc(), HOLES, choice, calls)?;
            done = ended;
            let filled = used == Told::Is(2);
            assert!(rt; filled || used == Told::Is(0) && !done);
            assert!(rt; zeros == Told::Is(1) || choice == Choice::Lasts && filled);
            assert!(rt; !done || choice == Choice::Firsts || sevens == Told::Is(1));
            if done {
                break;
            }
        }
        assert!(rt; done);
    }
    Ok(())
}

const RANGES: Trial = Trial {
    before: Act::Store(4096, 4097, 1),
    weak: 8192,
    during: Act::Both([4093, 8190]),
    looks: [
        Act::Shows(4093, &[(7, 7)]),
        Act::Shows(8190, &[(3, 3)]),
        Act::Shows(4093, &[(3, 0), (4, 1)]),
        Act::Shows(8190, &[(3, 1)]),
    ],
};

#[test]
fn two_ranges_are_there_together_wherever_the_power_goes(rt: HostRuntime) -> Result<(), Fail> {
    let so = Told::Is(1);
    for choice in [Choice::Firsts, Choice::Lasts] {
        let mut done = false;
        // Of the calls before these most load the old pages, and make the new ones.
        for calls in 504..560_u64 {
            let (ended, told) = outcome(rt.alloc(), RANGES, choice, calls)?;
            done = ended;
            let new = told[0] == so && told[1] == so;
            let old = told[2] == so && told[3] == so;
            assert!(rt; new || old && !done);
            if done {
                break;
            }
        }
        assert!(rt; done);
    }
    Ok(())
}
