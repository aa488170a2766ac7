// DATA: items between commas, each one pairs of hexadecimal digits, or one pair, `*` and how often it comes.
ghost use Rattle.std.specs.Prelude.{◌≡◌, ◌⊎◌, ℕ, ◌≤◌, ◌<◌, Ok, Err, IfOk, IfErr, OnOk, IsSomeAnd, length};
ghost use Rattle.nvm_base.specs.Data.{data_within, item_of, pair_of, pairs_of, run};
ghost use Rattle.nvm_base.specs.Reading.{Adds, Refuses};

use crate::{Bytes, read_number};
use std::alloc::{AllocError, Global};

/// Why a text gave no bytes.
#[derive(Clone, Copy, Debug, PartialEq, Eq)]
pub enum TextFault {
    /// Text that is no DATA.
    Bad,
    /// DATA of too many bytes.
    TooLong,
    Memory,
}

impl From<AllocError> for TextFault {
    ghost use Rattle.std.specs.Prelude.{◌≡◌};
    ghost use Rattle.nvm_base.specs.declared.reading.TextFault.TheVariants.{Memory};

    ghost from_gives = { λ _ fault. fault ≡ Memory };

    fn from(_: AllocError) -> Self {
        TextFault::Memory
    }
}

// The bytes read so far, and what is left of the room. None once it was exceeded: nothing more is kept then.
#[derive(Drop)]
pub(crate) struct Reading {
    bytes: Bytes,
    left: Option<u64>,
}

/// The bytes that DATA spells, at most `room` of them.
pub fn read_bytes(alloc: Global, text: &[u8], room: u64) -> Result<Bytes, TextFault>
    requires { room ≤ 65536 }
    ensures ok { IfOk result (λ bytes. data_within room text.now ≡ Ok bytes.items) }
    ensures some { IfOk result (λ bytes. 0 < length bytes.items) }
    ensures err { IfErr result (λ e. (e ≡ TextFault.Memory) ⊎ (data_within room text.now ≡ Err e)) }
{
    let mut reading = Reading {
        bytes: Bytes::new(alloc),
        left: Some(room),
    };
    for item in text.split(|c| *c == b',') {
        reading.take_item(item)?;
    }
    match reading.left {
        Some(_) => Ok(reading.bytes),
        None => Err(TextFault::TooLong),
    }
}

impl Reading {
    fn take_item(&mut self, item: &[u8]) -> Result<(), TextFault>
        ensures ok { OnOk result (IsSomeAnd (item_of item.now) (λ runs. Adds runs self.old self.new)) }
        ensures err { IfErr result (Refuses (item_of item.now)) }
    {
        match item {
            [] => Err(TextFault::Bad),
            [high, low, b'*', number @ ..] => {
                let Some(byte) = byte_of(*high, *low) else {
                    return Err(TextFault::Bad);
                };
                match read_number(number) {
                    None | Some(0) => Err(TextFault::Bad),
                    Some(count) => Ok(self.take_run(byte, count)?),
                }
            }
            pairs => self.take_pairs(pairs),
        }
    }

    fn take_pairs(&mut self, pairs: &[u8]) -> Result<(), TextFault>
        ensures ok { OnOk result (IsSomeAnd (pairs_of pairs.now) (λ runs. Adds runs self.old self.new)) }
        ensures err { IfErr result (Refuses (pairs_of pairs.now)) }
    {
        let mut rest = pairs;
        while let [high, low, more @ ..] = rest {
            let Some(byte) = byte_of(*high, *low) else {
                return Err(TextFault::Bad);
            };
            self.take_run(byte, 1)?;
            rest = more;
        }
        if rest.is_empty() {
            Ok(())
        } else {
            Err(TextFault::Bad)
        }
    }

    fn take_run(&mut self, byte: u8, count: u64) -> Result<(), AllocError>
        ensures { OnOk result (Adds (run byte count) self.old self.new) }
    {
        match self.left {
            Some(left) if count <= left => {
                self.bytes.repeat(byte, count)?;
                self.left = Some(left - count);
            }
            _ => self.left = None,
        }
        Ok(())
    }
}

// The byte of two hexadecimal digits.
fn byte_of(high: u8, low: u8) -> Option<u8>
    ensures { result ≡ pair_of high low }
{
    let high = (high as char).to_digit(16)?;
    let low = (low as char).to_digit(16)?;
    Some((16 * high + low) as u8)
}
