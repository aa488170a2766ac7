// The host: it refuses a command, or performs it on the device and answers it by one line.
mod actions;
mod attribute;
mod blocks;
mod commands;
mod events;
mod file_errors;
mod files;
mod flushing;
mod mapped;
mod media;
mod pages;
mod power;
mod refusals;
mod settling;
mod volume;

use crate::Mode;
use crate::held::HeldFiles;
use crate::outcome::Outcome;
use block_device::Blocks;
use commands::longest_reply;
use line_device::LineDevice;
use nvm_base::{Bytes, MOST, Name};
use pm_volume::Volume;
use recovery::MountFault;
use reply_text::print;
use script_text::Command;
use std::alloc::{AllocError, Global};
use std::marker::Model;
use word_tables::Geometry;

/// The host of a device. What blocks, volume and files hold is kept by the device alone.
#[derive(Drop)]
pub struct Host {
    performer: Performer,
    // where bytes are read into, as many as a command reads at most
    work: Vec<u8>,
}

impl Model for Host {
    ghost use Rattle.std.specs.Prelude.{◌≡◌};
    ghost use Rattle.std.specs.Vec.{vec_len};
    ghost use Rattle.machine_host.specs.Stands.{HostState};

    ghost Value = { HostState };

    ghost view = { λ h. h.performer };

    ghost invariant = { λ h. vec_len h.work ≡ 65536 };
}

// What performs commands: all of a host but its work buffer.
#[derive(Drop)]
struct Performer {
    alloc: Global,
    geometry: Geometry,
    unit: u64,
    mode: Mode,
    blocks: Blocks,
    volume: Volume,
    files: HeldFiles,
}

impl Model for Performer {
    ghost use Rattle.machine_host.specs.Stands.{HostState};

    ghost Value = { HostState };

    ghost view = { λ h. record { geometry = h.geometry; unit = h.unit; mode = h.mode; blocks = h.blocks; volume = h.volume; files = h.files } };
}

impl Host {
    ghost use Rattle.std.specs.Prelude.{◌≡◌, ◌≤◌, [], None, false, length, IsTrue, IfOk, OnOk, OnErr};
    ghost use Rattle.machine_model.specs.declared.mode.Mode.TheVariants as modes;
    ghost use Rattle.script_text.specs.Action.{action_of};
    ghost use Rattle.script_text.specs.Parsing.{InBounds};
    ghost use Rattle.line_device.specs.Medium.{last_image};
    ghost use Rattle.line_device.specs.Panel.{Image, Runs, after_disarm};
    ghost use Rattle.line_device.specs.Device.{Depicts};
    ghost use Rattle.line_words.specs.Words.{WritesBackOutside};
    ghost use Rattle.word_tables.specs.Layout.{meta_lines};
    ghost use Rattle.word_log.specs.Rest.{EachImage, IsReached};
    ghost use Rattle.file_journal.specs.Area.{file_area};
    ghost use Rattle.file_journal.specs.Reading.{tables_read};
    ghost use Rattle.pm_volume.specs.Area.{volume_area};
    ghost use Rattle.pm_volume.specs.Presence.{presence_read};
    ghost use Rattle.block_device.specs.Reading.{blocks_read};
    ghost use Rattle.block_device.specs.Object.{blocks_of};
    ghost use Rattle.block_device.specs.Images.{KeepsReads};
    ghost use Rattle.recovery.specs.Calls.{LeavesDevice};
    ghost use Rattle.recovery.specs.Findings.{geometry_told, early_finding, first_finding};
    ghost use Rattle.recovery.specs.Mounting.{Finds, IsOfLogs, mount_outcome};
    ghost use Rattle.machine_model.specs.Machine.{Machine, bad_of};
    ghost use Rattle.machine_host.specs.Lines.{MetadataStands};
    ghost use Rattle.machine_model.specs.OnFileErrors.{is_weak_there};
    ghost use Rattle.machine_host.specs.Stands.{Comes, HostServes, IsFlushed, Stands};
    ghost use Rattle.machine_model.specs.Restarting.{reading};
    ghost use Rattle.machine_model.specs.Costs.{mount_calls, mount_persists};
    ghost use Rattle.machine_host.specs.Faults.{Leaves};
    ghost use Rattle.machine_host.specs.Settling.{LeftUnsettled, Settled, is_down};
    ghost use Rattle.machine_model.specs.Commands.{fate, may_want_memory};
    ghost use Rattle.machine_host.specs.Keeping.{Keeps, is_refusal};
    ghost use Rattle.machine_host.specs.Responding.{IsWithin, Steps, outcome_answer};

    /// The host of a device of this survival unit, of the sizes that its superblock has. It mounts the device, and takes its work
    /// buffer.
    pub fn mount<D: LineDevice>(
        alloc: Global,
        device: &mut D,
        unit: u64,
    ) -> Result<Self, MountFault>
        requires unit { unit ≡ (D.state device.old).panel.unit }
        requires some { 1 ≤ (D.state device.old).medium.count }
        requires flushed { IsFlushed (D.state device.old).medium }
        requires on { IsTrue (D.state device.old).panel.power }
        ensures ok { IfOk result (λ host. (host.geometry ≡ geometry_told (D.state device.old).medium) × (host.mode ≡ modes.On)
            × (blocks_of host.blocks (D.state device.new).medium
            ≡ blocks_read (geometry_told (D.state device.old).medium) (D.state device.old).medium.is_bad
            (last_image (D.state device.old).medium))
            × (host.volume.present ≡ presence_read (geometry_told (D.state device.old).medium) (last_image (D.state device.old).medium))
            × (host.files.pages.journal.tables ≡ tables_read (geometry_told (D.state device.old).medium) (last_image (D.state device.old).medium))) }
        ensures finds { Finds (first_finding (D.state device.old).medium) result }
        ensures leaves { LeavesDevice (D.state device.old).medium (D.state device.new).medium }
        ensures metadata { IfOk result (λ host. MetadataStands host.geometry (D.state device.new).medium []) }
        ensures serves { IfOk result (λ host. HostServes host (D.state device.new)) }

        // Where each word had one value, host and device stand for the state that is read there.
        ensures stands { (image : Image) → Depicts (D.state device.old).medium image → image.unit ≡ unit
            → IfOk result (λ host. Stands host (D.state device.new) (record (reading (geometry_told (D.state device.old).medium) image) {
              cut_armed = (D.state device.new).panel.cut_armed;
              fail_armed = (D.state device.new).panel.fail_armed;
            })) }
        ensures runs { Runs mount_calls mount_persists (mount_outcome result) (D.state device.old).panel (D.state device.new).panel }
    {
        let mounted = recovery::mount(alloc, device)?;
        let work = vec![in alloc; 0u8; MOST as usize]?;
        let performer = Performer {
            alloc,
            geometry: mounted.geo,
            unit,
            mode: Mode::On,
            blocks: mounted.blocks,
            volume: mounted.volume,
            files: HeldFiles::of(alloc, mounted.files, mounted.events),
        };
        Ok(Host { performer, work })
    }

    pub fn mode(&self) -> Mode
        ensures { result ≡ self.now.mode }
    {
        self.performer.mode
    }

    /// The sizes of its device.
    pub fn geometry(&self) -> Geometry
        ensures { result ≡ self.now.geometry }
    {
        self.performer.geometry
    }

    /// The survival unit of its device, in bytes.
    pub fn unit(&self) -> u64
        ensures { result ≡ self.now.unit }
    {
        self.performer.unit
    }

    /// Brings the host into mode On, or Stopped where a line of metadata is bad, so that the device can be read: what is armed
    /// ends, the power comes back where it is off, and a device that is not mounted is mounted. Only memory can be wanting.
    pub fn settle<D: LineDevice>(&mut self, device: &mut D) -> Result<(), AllocError>
        requires serves { HostServes self.old (D.state device.old) }
        ensures settled { OnOk result ((h : Machine) → Stands self.old (D.state device.old) h
            → Settled h self.new (after_disarm (D.state device.old).panel) (D.state device.new)) }
        ensures up { OnOk result (is_down self.new.mode ≡ false) }
        ensures memory { OnErr result
            (LeftUnsettled self.old self.new (D.state device.old) (after_disarm (D.state device.old).panel) (D.state device.new)) }
    {
        self.performer.settle(device)
    }

    /// How many lines of the blocks, pages and files that exist are bad. It makes no counted call.
    pub fn bad_lines<D: LineDevice>(&self, device: &D) -> u64
        requires serves { HostServes self.now (D.state device.now) }
        requires on { self.now.mode ≡ modes.On }
        ensures { (h : Machine) → Stands self.now (D.state device.now) h → result ≡ bad_of h }
    {
        self.performer.bad_lines(device)
    }

    /// Whether a line of the file of that name is weak; none is that is bad, in a hole or past the end. It makes no counted call.
    pub fn is_weak_in_file<D: LineDevice>(&self, device: &D, name: &Name, line: u32) -> bool
        requires serves { HostServes self.now (D.state device.now) }
        requires on { self.now.mode ≡ modes.On }
        ensures { (h : Machine) → Stands self.now (D.state device.now) h → result ≡ is_weak_there name.now line h.files }
    {
        self.performer.is_weak_in_file(device, name, line)
    }

    /// Performs a command on the device and appends its reply's line.
    pub fn step<D: LineDevice>(
        &mut self,
        device: &mut D,
        command: &Command,
        out: &mut Bytes,
    ) -> Result<(), AllocError>
        requires serves { HostServes self.old (D.state device.old) }
        requires bounded { InBounds (action_of command.now) }

        // It is one step of the machine, whichever state host and device stand for and whatever is armed.
        ensures step { OnOk result ((h : Machine) → Stands self.old (D.state device.old) h
            → Steps h (action_of command.now) out.old.items out.new.items self.old self.new (D.state device.old) (D.state device.new)) }
        ensures memory { OnErr result ((out.new.items ≡ out.old.items)
            × Leaves (action_of command.now) self.old self.new (D.state device.old) (D.state device.new)) }
        // Where there is room for the longest line of bytes that are read, only these commands may want memory.
        ensures spare { 200000 ≤ out.old.spare → OnErr result (IsTrue (may_want_memory (action_of command.now))) }
        ensures serves { HostServes self.new (D.state device.new) }
    {
        if let Some(reply) = self.performer.refusal(device, command) {
            return print(&reply, out);
        }
        // The room of the reply comes first: what was done is answered.
        out.reserve(longest_reply(command))?;
        let outcome = self.performer.perform(device, command, &mut self.work)?;
        outcome.print(&self.work, out)
    }

    /// Performs a command on the device, as `step`, and returns what it came to. Bytes that it reads are put at the head of `work`.
    pub fn answer<D: LineDevice>(
        &mut self,
        device: &mut D,
        command: &Command,
        work: &mut [u8],
    ) -> Result<Outcome, AllocError>
        requires serves { HostServes self.old (D.state device.old) }
        requires bounded { InBounds (action_of command.now) }
        requires wide { length work.old ≡ 65536 }
        ensures step { IfOk result (λ outcome. (h : Machine) → Stands self.old (D.state device.old) h
            → Comes h (action_of command.now) (fate h (action_of command.now)) (outcome_answer work.new outcome) self.new (D.state device.old) (D.state device.new)) }
        ensures keeps { IfOk result (λ outcome.
            Keeps (is_refusal (outcome_answer work.new outcome)) (action_of command.now) self.old self.new (D.state device.old) (D.state device.new)) }
        ensures within { IfOk result (λ outcome. IsWithin work.new outcome) }
        ensures memory { OnErr result (Leaves (action_of command.now) self.old self.new (D.state device.old) (D.state device.new)) }
        ensures serves { HostServes self.new (D.state device.new) }
    {
        match self.performer.refusal(device, command) {
            Some(reply) => Ok(Outcome::Reply(reply)),
            None => self.performer.perform(device, command, work),
        }
    }
}
