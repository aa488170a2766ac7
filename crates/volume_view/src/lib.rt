//! Some lines of a borrowed device, as a device of lines of their own.
#![tactic(auto)]

ghost use Rattle.std.specs.Prelude.{◌≡◌, ◌<◌, true, Some};
ghost use Rattle.range_sets.specs.Lines.{fits};
ghost use Rattle.volume_view.specs.Shown.{shown_count, line_shown};

mod faults;
mod laws;
mod lines;

pub use laws::{
    a_view_counts_as_its_device, each_line_is_shown_once, frames_of_a_view_are_frames_of_the_device,
};
use line_device::Lines;
use nvm_base::{LINE, LineNo};
use range_sets::RangeSet;

/// The lines of a range set, in its order. Lines outside the set keep all but what the device writes back by itself.
#[derive(Drop)]
pub struct View<'a, L> {
    dev: &'a mut L,
    set: &'a RangeSet,
}

impl<'a, L: Lines> View<'a, L> {
    pub fn new(dev: &'a mut L, set: &'a RangeSet) -> View<'a, L>
        requires { fits set.now (L.state dev.old).medium.count ≡ true }
        ensures name { result.dev.ghost_name ≡ dev.entry.ghost_name }
        ensures dev { result.dev.now ≡ dev.old }
        ensures set { result.set.now ≡ set.now }
    {
        View { dev, set }
    }

    // The line of the device that is shown as this one.
    fn behind(&self, line: LineNo) -> LineNo
        requires { line.0 < shown_count self.now.set.now (L.state self.now.dev.now).medium.count }
        ensures shown { line_shown self.now.set.now line.0 ≡ Some result.0 }
        ensures within { result.0 < (L.state self.now.dev.now).medium.count }
    {
        match self.set.place(LINE * line.0) {
            Some(address) => LineNo(address / LINE),
            None => unreachable!(),
        }
    }
}
