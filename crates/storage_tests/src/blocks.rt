// Stories of blocks on a plain device, told by what a caller sees.
ghost use Rattle.std.specs.Prelude.{◌≡◌, ◌/◌, ◌≤◌, ℕ, [], IfOk, IsTrue};
ghost use Rattle.line_device.specs.Plain.{device_of};
ghost use Rattle.word_tables.specs.Bounds.{IsValid};
ghost use Rattle.block_device.specs.Object.{BlocksServe};

use crate::devices::{is_ready, switch_off};
use block_device::{BlockFault, Blocks, MountFault};
use line_device::{Choice, LineDevice, Lines, Plain};
use nvm_base::{LineNo, Span};
use std::alloc::Global;
use word_tables::Geometry;

mod cuts;
mod stories;

// Takes a device that has no words past its end through a cut, and mounts its blocks.
fn open<D: LineDevice>(
    alloc: Global,
    dev: &mut D,
    choice: Choice,
    geo: Geometry,
) -> Result<Blocks, MountFault>
    requires valid { IsValid geo }
    requires end { (p : ℕ) → (D.state dev.old).medium.count ≤ p / 8 → (D.state dev.old).medium.history p ≡ [] }
    ensures serves { IfOk result (λ blocks. IsTrue blocks.settled → BlocksServe blocks (D.state dev.new).medium) }
    ensures geo { IfOk result (λ blocks. blocks.geo ≡ geo) }
{
    switch_off(dev);
    dev.restart(choice)?;
    if !is_ready(dev, geo) {
        return Err(MountFault::Device);
    }
    Blocks::mount(alloc, dev, geo)
}

// The same of a plain device.
fn start(
    alloc: Global,
    dev: &mut Plain,
    choice: Choice,
    geo: Geometry,
) -> Result<Blocks, MountFault>
    requires { IsValid geo }
    ensures serves { IfOk result (λ blocks. IsTrue blocks.settled → BlocksServe blocks (device_of dev.new).medium) }
    ensures geo { IfOk result (λ blocks. blocks.geo ≡ geo) }
{
    open(alloc, dev, choice, geo)
}

// A media error takes a line, if there is one, while the blocks are in use.
fn spoil<L: Lines>(blocks: &Blocks, dev: &mut L, line: u64)
    requires { IsTrue blocks.now.settled → BlocksServe blocks.now (L.state dev.old).medium }
    ensures { IsTrue blocks.now.settled → BlocksServe blocks.now (L.state dev.new).medium }
{
    if blocks.settled() && line < dev.lines() {
        dev.poison(LineNo(line));
    }
}

// What is done with blocks; bytes are so many of one value.
#[derive(Clone, Copy)]
enum Act {
    Count,
    Read(u64),
    Exists(u64),
    Write(u64, usize, u8),
    AtOnce(u64, usize, u8),
    // Two blocks together, each with a byte of its own.
    Pair([u64; 2], [u8; 2]),
    Discard(Span),
    // Absent one after the other.
    Hint(Span),
    Scar(&'static [Span]),
    // A media error takes a line of the device, or of a block.
    Spoil(u64),
    SpoilIn(u64, u64),
}

// What it gives: the byte of a block that is read, 1 for a block that is there, and else 0.
type Told = Result<u64, BlockFault>;

// The byte that these are, 0xee where they differ.
fn the_byte(bytes: &[u8; 512]) -> u8 {
    for byte in bytes {
        if *byte != bytes[0] {
            return 0xee;
        }
    }
    bytes[0]
}

fn read<L: Lines>(blocks: &mut Blocks, dev: &mut L, block: u64) -> Told
    requires { IsTrue blocks.old.settled → BlocksServe blocks.old (L.state dev.old).medium }
    ensures { IsTrue blocks.new.settled → BlocksServe blocks.new (L.state dev.new).medium }
{
    if !blocks.settled() || !dev.power() {
        return Err(BlockFault::Device);
    }
    let mut out = [0xee; 512];
    blocks.read_into(dev, block, &mut out)?;
    Ok(the_byte(&out) as u64)
}

fn write<L: Lines>(blocks: &mut Blocks, dev: &mut L, block: u64, bytes: &[u8]) -> Told
    requires { IsTrue blocks.old.settled → BlocksServe blocks.old (L.state dev.old).medium }
    ensures { IsTrue blocks.new.settled → BlocksServe blocks.new (L.state dev.new).medium }
{
    if !blocks.settled() || !dev.power() {
        return Err(BlockFault::Device);
    }
    blocks.write(dev, block, bytes)?;
    Ok(0)
}

fn write_at_once<L: Lines>(blocks: &mut Blocks, dev: &mut L, block: u64, bytes: &[u8]) -> Told
    requires { IsTrue blocks.old.settled → BlocksServe blocks.old (L.state dev.old).medium }
    ensures { IsTrue blocks.new.settled → BlocksServe blocks.new (L.state dev.new).medium }
{
    if !blocks.settled() || !dev.power() {
        return Err(BlockFault::Device);
    }
    blocks.atomic_write(dev, block, bytes)?;
    Ok(0)
}

fn write_pair<L: Lines>(blocks: &mut Blocks, dev: &mut L, places: [u64; 2], told: [u8; 2]) -> Told
    requires { IsTrue blocks.old.settled → BlocksServe blocks.old (L.state dev.old).medium }
    ensures { IsTrue blocks.new.settled → BlocksServe blocks.new (L.state dev.new).medium }
{
    if !blocks.settled() || !dev.power() {
        return Err(BlockFault::Device);
    }
    let mut bytes = [told[0]; 1024];
    for k in 512..1024_usize {
        bytes[k] = told[1];
    }
    let ranges = [
        Span {
            start: places[0],
            len: 512,
        },
        Span {
            start: places[1],
            len: 512,
        },
    ];
    blocks.atomic_multiwrite(dev, &ranges, &bytes)?;
    Ok(0)
}

fn discard<L: Lines>(blocks: &mut Blocks, dev: &mut L, span: Span) -> Told
    requires { IsTrue blocks.old.settled → BlocksServe blocks.old (L.state dev.old).medium }
    ensures { IsTrue blocks.new.settled → BlocksServe blocks.new (L.state dev.new).medium }
{
    if !blocks.settled() || !dev.power() {
        return Err(BlockFault::Device);
    }
    blocks.discard_now(dev, span)?;
    Ok(0)
}

fn hint<L: Lines>(blocks: &mut Blocks, dev: &mut L, span: Span) -> Told
    requires { IsTrue blocks.old.settled → BlocksServe blocks.old (L.state dev.old).medium }
    ensures { IsTrue blocks.new.settled → BlocksServe blocks.new (L.state dev.new).medium }
{
    if !blocks.settled() || !dev.power() {
        return Err(BlockFault::Device);
    }
    blocks.discard_hint(dev, span)?;
    Ok(0)
}

fn scar<L: Lines>(blocks: &mut Blocks, dev: &mut L, spans: &[Span]) -> Told
    requires { IsTrue blocks.old.settled → BlocksServe blocks.old (L.state dev.old).medium }
    ensures { IsTrue blocks.new.settled → BlocksServe blocks.new (L.state dev.new).medium }
{
    if !blocks.settled() || !dev.power() || spans.is_empty() {
        return Err(BlockFault::Device);
    }
    blocks.scar(dev, spans)?;
    Ok(0)
}

fn line_in(blocks: &Blocks, block: u64, line: u64) -> u64 {
    if block >= blocks.count() {
        return u64::MAX;
    }
    match blocks.line_of(block) {
        Some(first) => first.0.saturating_add(line),
        None => u64::MAX,
    }
}

fn perform<L: Lines>(blocks: &mut Blocks, dev: &mut L, alloc: Global, act: Act) -> Told
    requires { IsTrue blocks.old.settled → BlocksServe blocks.old (L.state dev.old).medium }
    ensures { IsTrue blocks.new.settled → BlocksServe blocks.new (L.state dev.new).medium }
{
    match act {
        Act::Count => Ok(blocks.count()),
        Act::Read(block) => read(blocks, dev, block),
        Act::Exists(block) => Ok(u64::from(blocks.exists(block)?)),
        Act::Write(block, len, byte) => write(
            blocks,
            dev,
            block,
            many(alloc, len, byte)?.as_slice(),
        ),
        Act::AtOnce(block, len, byte) => {
            write_at_once(blocks, dev, block, many(alloc, len, byte)?.as_slice())
        }
        Act::Pair(places, told) => write_pair(blocks, dev, places, told),
        Act::Discard(span) => discard(blocks, dev, span),
        Act::Hint(span) => hint(blocks, dev, span),
        Act::Scar(spans) => scar(blocks, dev, spans),
        Act::Spoil(line) => {
            spoil(blocks, dev, line);
            Ok(0)
        }
        Act::SpoilIn(block, line) => {
            let line = line_in(blocks, block, line);
            spoil(blocks, dev, line);
            Ok(0)
        }
    }
}

// So many bytes of one value.
fn many(alloc: Global, len: usize, byte: u8) -> Result<Vec<u8, Global>, BlockFault> {
    match vec![in alloc; byte; len] {
        Ok(bytes) => Ok(bytes),
        Err(_) => Err(BlockFault::Device),
    }
}
