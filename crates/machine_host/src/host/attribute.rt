// Attributes, which the table tells in each mode.
ghost use Rattle.std.specs.Prelude.{◌≡◌};
ghost use Rattle.script_text.specs.Action.Action.{Attr};
ghost use Rattle.reply_text.specs.Answer.{answer_of};
ghost use Rattle.machine_host.specs.Stands.{HostServes};
ghost use Rattle.machine_host.specs.Responding.{Answered};

use super::Performer;
use line_device::LineDevice;
use reply_text::{Reply, Why};

impl Performer {
    pub(super) fn attr<D: LineDevice>(&self, _device: &D, name: &[u8]) -> Reply
        requires serves { HostServes self.now (D.state _device.now) }
        ensures { Answered (Attr name.now) (answer_of result) self.now self.now (D.state _device.now) (D.state _device.now) }
    {
        match attributes::value(name, self.geometry, self.unit) {
            Some(value) => Reply::Attribute(value),
            None => Reply::Refused(Why::Unknown),
        }
    }
}
