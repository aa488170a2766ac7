// Bringing host and device to rest.
ghost use Rattle.std.specs.Prelude.{◌≡◌, false, MatchResult, OnOk, OnErr};
ghost use Rattle.nvm_base.specs.declared.units.LineNo.{LineNo};
ghost use Rattle.recovery.specs.declared.fault.MountFault.TheVariants.{Meta, Device, PowerLost};
ghost use Rattle.line_device.specs.Panel.{after_disarm};
ghost use Rattle.machine_model.specs.declared.mode.Mode.TheVariants.{Off, Unsettled, Stopped};
ghost use Rattle.machine_model.specs.Machine.{Machine};
ghost use Rattle.machine_host.specs.Stands.{HostServes, Stands};
ghost use Rattle.machine_host.specs.Settling.{IsQuiet, LeftUnsettled, MountsAnew, Settled, Settles, is_down};

use super::Performer;
use crate::Mode;
use line_device::{Choice, LineDevice};
use recovery::MountFault;
use std::alloc::AllocError;

impl Performer {
    // What is armed ends, the power comes back where it is off, and a device that is not mounted is mounted. Only memory can be
    // wanting.
    pub(super) fn settle<D: LineDevice>(&mut self, device: &mut D) -> Result<(), AllocError>
        requires serves { HostServes self.old (D.state device.old) }
        ensures settled { OnOk result ((h : Machine) → Stands self.old (D.state device.old) h
            → Settled h self.new (after_disarm (D.state device.old).panel) (D.state device.new)) }
        ensures up { OnOk result (is_down self.new.mode ≡ false) }
        ensures memory { OnErr result
            (LeftUnsettled self.old self.new (D.state device.old) (after_disarm (D.state device.old).panel) (D.state device.new)) }
    {
        device.disarm();
        match self.mode {
            Mode::On | Mode::Stopped => Ok(()),
            Mode::Off => self.bring_back(device),
            Mode::Unsettled => self.mount_anew(device),
        }
    }

    // The power comes back, and the device is mounted.
    fn bring_back<D: LineDevice>(&mut self, device: &mut D) -> Result<(), AllocError>
        requires serves { HostServes self.old (D.state device.old) }
        requires off { self.old.mode ≡ Off }
        requires quiet { IsQuiet (D.state device.old).panel }
        ensures { Settles result self.old self.new (D.state device.old) (D.state device.new) }
    {
        device.restart(Choice::Lasts)?;
        self.mode = Mode::Unsettled;
        self.mount_anew(device)
    }

    // The device is mounted while the power is on. Nothing can stop that, where nothing is armed. A device that stands for a
    // state is refused for nothing but memory: no word of it is wrong.
    fn mount_anew<D: LineDevice>(&mut self, device: &mut D) -> Result<(), AllocError>
        requires serves { HostServes self.old (D.state device.old) }
        requires unsettled { self.old.mode ≡ Unsettled }
        requires quiet { IsQuiet (D.state device.old).panel }
        ensures { MountsAnew result self.old self.new (D.state device.old) (D.state device.new) }
    {
        match recovery::mount(self.alloc, device) {
            Ok(mounted) => {
                self.take(mounted);
                Ok(())
            }
            Err(fault) => self.stop(fault),
        }
    }

    // A mount that the device did not stop: a bad line of metadata stops the host, and else there was no memory.
    fn stop(&mut self, fault: MountFault) -> Result<(), AllocError>
        requires went { fault ≡ Device → ⊥ }
        requires powered { fault ≡ PowerLost → ⊥ }
        ensures { MatchResult result (λ _. (line : LineNo) × (fault ≡ Meta line) × (self.new ≡ record self.old { mode = Stopped })) (λ _. self.new ≡ self.old) }
    {
        match fault {
            MountFault::Meta(_) => {
                self.mode = Mode::Stopped;
                Ok(())
            }
            MountFault::Memory | MountFault::Layout(_) => Err(AllocError),
            MountFault::Device | MountFault::PowerLost => unreachable!(),
        }
    }
}
