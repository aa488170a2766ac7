// The events of a host, told one at a time.
ghost use Rattle.std.specs.Prelude.{◌≡◌};
ghost use Rattle.script_text.specs.Action.Action.{NextEvent};
ghost use Rattle.reply_text.specs.Answer.{answer_of};
ghost use Rattle.machine_model.specs.declared.mode.Mode.TheVariants.{On};
ghost use Rattle.machine_host.specs.Stands.{HostServes};
ghost use Rattle.machine_host.specs.Responding.{Answered};

use super::Performer;
use line_device::LineDevice;
use reply_text::Reply;

impl Performer {
    // Takes the oldest.
    pub(super) fn next_event<D: LineDevice>(&mut self, _device: &D) -> Reply
        requires serves { HostServes self.old (D.state _device.now) }
        requires on { self.old.mode ≡ On }
        ensures { Answered NextEvent (answer_of result) self.old self.new (D.state _device.now) (D.state _device.now) }
    {
        match self.files.events.next() {
            Some(event) => Reply::Happened(event),
            None => Reply::NoEvent,
        }
    }
}
