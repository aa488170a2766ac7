// A device that tells how it was restarted and what it was last told to do.
ghost use Rattle.std.specs.Prelude.{◌≡◌, ◌+◌, ◌<◌, ◌≤◌, ℕ, [], Some, None, map, length, slice_get, IfSome, IfOk, OnOk};
ghost use Rattle.line_device.specs.Medium.{Shows};
ghost use Rattle.test_devices.specs.Starts.{told_start};
ghost use Rattle.test_devices.specs.Recorder.{recorded, recorded_device};

use crate::Start;
use line_device::{LineList, Order, Peek};
use nvm_base::{Buffer, LineNo};
use std::alloc::{AllocError, Global};

mod device;
mod lines;

/// A device of memory that keeps a record of its restarts and its last order. Else it is the inner device.
#[derive(Drop)]
pub struct Recorder<D> {
    inner: D,
    last: Option<Order>,
    starts: Buffer<Start>,
    alloc: Global,
}

impl<D: Peek> Recorder<D> {
    pub fn new(alloc: Global, inner: D) -> Self
        ensures device { recorded D.state result ≡ record {
          medium = (D.state inner).medium;
          panel = record (D.state inner).panel { starts = Some []; last_order = Some None };
        } }
        ensures behind { recorded_device result ≡ inner }
    {
        Recorder {
            inner,
            last: None,
            starts: Buffer::new(alloc),
            alloc,
        }
    }

    /// The last order, none before the first.
    pub fn last(&self) -> Option<Order>
        ensures { (recorded D.state self.now).panel.last_order ≡ Some result }
    {
        self.last
    }

    /// The starts so far, the first one first.
    pub fn starts(&self) -> &[Start]
        ensures { (recorded D.state self.now).panel.starts ≡ Some (map told_start result.now) }
    {
        self.starts.as_slice()
    }
}

impl<D: Peek> Recorder<D> {
    // Takes the room for one more start.
    fn room(&mut self) -> Result<LineList, AllocError>
        ensures same { recorded D.state self.new ≡ recorded D.state self.old }
        ensures inner { self.new.inner ≡ self.old.inner }
        ensures starts { OnOk result (0 < self.new.starts.spare) }
        ensures lines { IfOk result (λ lines. (lines.items ≡ []) × ((D.state self.new.inner).medium.count ≤ lines.spare)) }
    {
        self.starts.reserve(1)?;
        let mut lines = LineList::new(self.alloc);
        lines.reserve(self.inner.lines())?;
        Ok(lines)
    }
}

// Adds the state of each line.
fn look<D: Peek>(device: &D, lines: &mut LineList)
    requires empty { lines.old.items ≡ [] }
    requires room { (D.state device.now).medium.count ≤ lines.old.spare }
    ensures count { length lines.new.items ≡ (D.state device.now).medium.count }
    ensures lines { (n : ℕ) → n < (D.state device.now).medium.count → IfSome (slice_get lines.new.items n) (Shows (D.state device.now).medium n) }
{
    for n in 0..device.lines() {
        lines.push(device.peek(LineNo(n))).unwrap();
    }
}
