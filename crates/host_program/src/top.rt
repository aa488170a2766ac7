// The top call: the words, the device, the images, the script, the replies, the status.
ghost use Rattle.std.specs.Prelude.{◌≡◌, ◌≢◌, ◌⊎◌, ℕ, List, IfErr, IsErrAnd, map, Option};
ghost use Rattle.std.specs.String.{string_bytes};
ghost use Rattle.line_device.specs.Device.{Device as DeviceState};
ghost use Rattle.line_device.specs.Panel.{IsUnit};
ghost use Rattle.word_tables.specs.Bounds.{IsValid};
ghost use Rattle.command_line.specs.Words.{Form as FormOfWords, IsForm};
ghost use Rattle.command_line.specs.Words.Form.{of_check, of_new, of_run};
ghost use Rattle.program_base.specs.declared.ending.Ending.{Ending as Early};
ghost use Rattle.program_base.specs.declared.ending.Ending.TheVariants.{Usage, Memory};
ghost use Rattle.program_base.specs.Ending.{status};
ghost use Rattle.host_program.specs.Forms.{Does, EndsEarly, IsNoForm, Outcome};
ghost use Rattle.host_program.specs.Unfailing.{CanBegin, EndsWell};
ghost use Rattle.program_base.specs.Unfailing.{NothingFailed};
ghost use Rattle.program_base.specs.World.{world};

use crate::bench::bench;
use crate::running::run_script;
use crate::storing::{fresh_text, store};
use crate::telling::checked;
use command_line::{Form, read_words};
use host_io::{Images, Sink, Source};
use image_file::Units;
use line_device::{BYTE_UNIT, LineDevice, WORD_UNIT};
use program_base::{Ending, numbered, open, tell};
use std::alloc::Global;
use word_tables::Geometry;

/// Performs what the program's words ask for, and returns with which status the program ends.
pub fn nvmhost<D: LineDevice, F: Images, T: Source, K: Sink>(
    alloc: Global,
    words: &[String],
    device: &mut D,
    images: &mut F,
    script: &mut T,
    replies: &mut K,
) -> u8
    // What the words ask for is done: every reply is the machine's, wherever what is armed falls, and all that the device holds
    // then is stored.
    ensures done { result ≡ 0 → (form : FormOfWords) → IsForm (map (λ word. string_bytes word) words.now) form
        → Does form
        (world (D.state device.old) (F.held images.old) (F.count images.old) (T.left script.old) (T.count script.old) (K.written replies.old) (K.count replies.old))
        (world (D.state device.new) (F.held images.new) (F.count images.new) (T.left script.new) (T.count script.new) (K.written replies.new) (K.count replies.new)) }

    // Or it came to no end, by a cause that its status names, and then comes the status's line. Only running out of memory needs no cause.
    ensures early_end { result ≢ 0 → (form : FormOfWords) → IsForm (map (λ word. string_bytes word) words.now) form
        → EndsEarly form result
        (world (D.state device.old) (F.held images.old) (F.count images.old) (T.left script.old) (T.count script.old) (K.written replies.old) (K.count replies.old))
        (world (D.state device.new) (F.held images.new) (F.count images.new) (T.left script.new) (T.count script.new) (K.written replies.new) (K.count replies.new)) }

    // Where nothing failed, and a right image is held where one is asked for, it ends well or is out of memory, or its script is
    // too long.
    ensures completeness { (form : FormOfWords) → IsForm (map (λ word. string_bytes word) words.now) form → CanBegin form (F.held images.old)
        → NothingFailed
        (world (D.state device.old) (F.held images.old) (F.count images.old) (T.left script.old) (T.count script.old) (K.written replies.old) (K.count replies.old))
        (world (D.state device.new) (F.held images.new) (F.count images.new) (T.left script.new) (T.count script.new) (K.written replies.new) (K.count replies.new))
        → EndsWell form result }

    // Words of no form leave all but the replies alone.
    ensures usage { result ≡ 2 → (form : FormOfWords) → IsForm (map (λ word. string_bytes word) words.now) form → ⊥ }
    ensures no_form { ((form : FormOfWords) → IsForm (map (λ word. string_bytes word) words.now) form → ⊥)
        → IsNoForm result
        (world (D.state device.old) (F.held images.old) (F.count images.old) (T.left script.old) (T.count script.old) (K.written replies.old) (K.count replies.old))
        (world (D.state device.new) (F.held images.new) (F.count images.new) (T.left script.new) (T.count script.new) (K.written replies.new) (K.count replies.new)) }
    ensures statuses { (result ≡ 0) ⊎ ((ending : Early) × (result ≡ status ending)) }
{
    match perform(alloc, words, device, images, script, replies) {
        Ok(()) => 0,
        Err(ending) => {
            // Where the line can't be written either, the status stays.
            let _ = ending.tell(alloc, replies);
            ending.status()
        }
    }
}

fn perform<D: LineDevice, F: Images, T: Source, K: Sink>(
    alloc: Global,
    words: &[String],
    device: &mut D,
    images: &mut F,
    script: &mut T,
    replies: &mut K,
) -> Result<(), Ending>
    ensures outcome { (form : FormOfWords) → IsForm (map (λ word. string_bytes word) words.now) form
        → Outcome form result
        (world (D.state device.old) (F.held images.old) (F.count images.old) (T.left script.old) (T.count script.old) (K.written replies.old) (K.count replies.old))
        (world (D.state device.new) (F.held images.new) (F.count images.new) (T.left script.new) (T.count script.new) (K.written replies.new) (K.count replies.new)) }
    ensures usage { result ≡ Err Usage → (form : FormOfWords) → IsForm (map (λ word. string_bytes word) words.now) form → ⊥ }
    ensures no_form { ((form : FormOfWords) → IsForm (map (λ word. string_bytes word) words.now) form → ⊥)
        → IsErrAnd result (λ ending. (ending ≡ Usage) ⊎ (ending ≡ Memory)) × (device.new ≡ device.old) × (images.new ≡ images.old)
        × (script.new ≡ script.old) × (replies.new ≡ replies.old) }
{
    match read_words(alloc, words)? {
        Form::New { image, geometry } => create(alloc, WORD_UNIT, image, geometry, images, replies),
        Form::Run { from, to } => run(alloc, from, to, device, images, script, replies),
        Form::Check { image } => check(alloc, image, device, images, replies),
        Form::Bench { seed, count } => bench(alloc, seed, count, device, replies),
        Form::NewByte { image, geometry } => create(
            alloc, BYTE_UNIT, image, geometry, images, replies,
        ),
    }
}

// The line is written before anything is replaced.
fn create<F: Images, K: Sink>(
    alloc: Global,
    unit: u64,
    name: &str,
    geometry: Geometry,
    images: &mut F,
    replies: &mut K,
) -> Result<(), Ending>
    requires known { IsUnit unit }
    requires valid { IsValid geometry }
    ensures { (device : DeviceState) (left : Option (List ℕ)) (reads : ℕ) → Outcome (of_new unit name.now geometry) result
        (world device (F.held images.old) (F.count images.old) left reads (K.written replies.old) (K.count replies.old))
        (world device (F.held images.new) (F.count images.new) left reads (K.written replies.new) (K.count replies.new)) }
{
    let text = fresh_text(alloc, unit, geometry)?;
    tell(numbered(alloc, b"ok ", geometry.total_lines()), replies)?;
    Ok(images.replace(name, text.as_slice())?)
}

fn run<D: LineDevice, F: Images, T: Source, K: Sink>(
    alloc: Global,
    from: &str,
    to: &str,
    device: &mut D,
    images: &mut F,
    script: &mut T,
    replies: &mut K,
) -> Result<(), Ending>
    ensures { Outcome (of_run from.now to.now) result
        (world (D.state device.old) (F.held images.old) (F.count images.old) (T.left script.old) (T.count script.old) (K.written replies.old) (K.count replies.old))
        (world (D.state device.new) (F.held images.new) (F.count images.new) (T.left script.new) (T.count script.new) (K.written replies.new) (K.count replies.new)) }
{
    let mut host = open(alloc, from, Units::All, device, images)?;
    run_script(alloc, &mut host, device, script, replies)?;
    host.settle(device)?;
    store(alloc, to, host.unit(), device, images)
}

fn check<D: LineDevice, F: Images, K: Sink>(
    alloc: Global,
    name: &str,
    device: &mut D,
    images: &mut F,
    replies: &mut K,
) -> Result<(), Ending>
    ensures { (left : Option (List ℕ)) (reads : ℕ) → Outcome (of_check name.now) result
        (world (D.state device.old) (F.held images.old) (F.count images.old) left reads (K.written replies.old) (K.count replies.old))
        (world (D.state device.new) (F.held images.new) (F.count images.new) left reads (K.written replies.new) (K.count replies.new)) }
{
    let host = open(alloc, name, Units::All, device, images)?;
    let bad = host.bad_lines(device);
    Ok(tell(checked(alloc, device.lines(), bad), replies)?)
}
