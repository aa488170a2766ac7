// Calls of a device, each made only where the line exists and the power is on; else they report that it can't be made.
use line_device::{Choice, DeviceFault, LineDevice, LineState, Lines, Peek};
use nvm_base::LineNo;
use std::alloc::AllocError;

// The first byte of word `w` of the line, or 255 where it is bad.
pub(crate) fn byte<D: Peek>(device: &D, line: u64, w: usize) -> u8 {
    if line >= device.lines() || w > 7 {
        return 255;
    }
    match device.peek(LineNo(line)) {
        LineState::Healthy(bytes) | LineState::Weak(bytes) => bytes[8 * w],
        LineState::Bad => 255,
    }
}

// Stores up to eight bytes from the first of word `w` on.
pub(crate) fn store<D: Lines>(
    device: &mut D,
    line: u64,
    w: u64,
    bytes: &[u8],
) -> Result<(), DeviceFault> {
    if !device.power() || line >= device.lines() || w > 7 {
        return Err(DeviceFault::PowerLost);
    }
    if bytes.len() == 0 || bytes.len() > 8 {
        return Err(DeviceFault::PowerLost);
    }
    device.store(LineNo(line), 8 * w, bytes)
}

pub(crate) fn persist<D: Lines>(device: &mut D, line: u64) -> Result<(), DeviceFault> {
    if !device.power() || line >= device.lines() {
        return Err(DeviceFault::PowerLost);
    }
    device.persist(LineNo(line))
}

// Loads the line, and gives the first byte of word `w`.
pub(crate) fn load<D: Lines>(device: &mut D, line: u64, w: usize) -> Result<u8, DeviceFault> {
    if !device.power() || line >= device.lines() || w > 7 {
        return Err(DeviceFault::PowerLost);
    }
    Ok(device.load(LineNo(line))?[8 * w])
}

pub(crate) fn clear<D: Lines>(device: &mut D, line: u64) -> Result<(), DeviceFault> {
    if !device.power() || line >= device.lines() {
        return Err(DeviceFault::PowerLost);
    }
    device.clear(LineNo(line))
}

pub(crate) fn weaken<D: Lines>(device: &mut D, line: u64) -> Result<(), AllocError> {
    if line >= device.lines() {
        return Ok(());
    }
    device.weaken(LineNo(line))
}

pub(crate) fn poison<D: Lines>(device: &mut D, line: u64) {
    if line < device.lines() {
        device.poison(LineNo(line));
    }
}

// A restart, after a cut where the power is on.
pub(crate) fn cycle<D: LineDevice>(device: &mut D, choice: Choice) -> Result<(), AllocError> {
    if device.power() {
        device.power_off();
    }
    device.restart(choice)
}
