// The top call: the words, the device, the images, the script, the answers, the status.
ghost use Rattle.std.specs.Prelude.{◌≡◌, ◌≤◌, ◌⊎◌, ℕ, List, [], ◌∷◌, map};
ghost use Rattle.std.specs.String.{string_bytes};
ghost use Rattle.image_file.specs.declared.Units.TheVariants.{Words};
ghost use Rattle.program_base.specs.Opening.{DeviceFailed};
ghost use Rattle.program_base.specs.Unfailing.{HoldsRight, NothingFailed};
ghost use Rattle.program_base.specs.World.{world};
ghost use Rattle.explore_program.specs.Calls.{Answers, EndsEarly, IsNoCall, Outcome};
ghost use Rattle.explore_program.specs.Stops.{stop_status};
ghost use Rattle.explore_program.specs.declared.stop.Stop.{Stop as Early};

use crate::answering::answer_all;
use crate::laws::answers_are_theorems;
use crate::reading::read_all;
use crate::refusing::report;
use crate::showing::show;
use crate::stop::Stop;
use exploration::read_script;
use host_io::{Images, Sink, Source};
use image_file::Units;
use line_device::LineDevice;
use program_base::{fetch, start};
use std::alloc::Global;

/// Answers the questions of a script about an image, and returns the program's exit status.
pub fn nvmexplore<D: LineDevice, F: Images, T: Source, K: Sink>(
    alloc: Global,
    words: &[String],
    device: &mut D,
    images: &mut F,
    script: &mut T,
    answers: &mut K,
) -> u8
    // All questions were answered, from the state that is read in the image, and each answer is a theorem about the machine's runs.
    ensures done { result ≤ 1 → (name : List ℕ) → map (λ word. string_bytes word) words.now ≡ name ∷ []
        → Answers name result
        (world (D.state device.old) (F.held images.old) (F.count images.old) (T.left script.old) (T.count script.old) (K.written answers.old) (K.count answers.old))
        (world (D.state device.new) (F.held images.new) (F.count images.new) (T.left script.new) (T.count script.new) (K.written answers.new) (K.count answers.new)) }

    // Or it came to no end, by a cause that its status names, and then comes the status's line. Only running out of memory needs no cause.
    ensures early_end { 2 ≤ result → (name : List ℕ) → map (λ word. string_bytes word) words.now ≡ name ∷ []
        → EndsEarly name result
        (world (D.state device.old) (F.held images.old) (F.count images.old) (T.left script.old) (T.count script.old) (K.written answers.old) (K.count answers.old))
        (world (D.state device.new) (F.held images.new) (F.count images.new) (T.left script.new) (T.count script.new) (K.written answers.new) (K.count answers.new)) }

    // Where nothing failed, the device neither, and a right image is held under the name, it ends well or is out of memory, or its
    // script is not taken or too long.
    ensures completeness { (name : List ℕ) → map (λ word. string_bytes word) words.now ≡ name ∷ [] → HoldsRight Words name (F.held images.old)
        → NothingFailed
        (world (D.state device.old) (F.held images.old) (F.count images.old) (T.left script.old) (T.count script.old) (K.written answers.old) (K.count answers.old))
        (world (D.state device.new) (F.held images.new) (F.count images.new) (T.left script.new) (T.count script.new) (K.written answers.new) (K.count answers.new))
        → (DeviceFailed (D.state device.old).panel (D.state device.new).panel → ⊥)
        → (result ≤ 1) ⊎ (result ≡ 6) ⊎ (result ≡ 7) }

    // Words that don't name one image leave all but the answers alone.
    ensures usage { result ≡ 2 → (name : List ℕ) → map (λ word. string_bytes word) words.now ≡ name ∷ [] → ⊥ }
    ensures no_call { ((name : List ℕ) → map (λ word. string_bytes word) words.now ≡ name ∷ [] → ⊥)
        → IsNoCall result
        (world (D.state device.old) (F.held images.old) (F.count images.old) (T.left script.old) (T.count script.old) (K.written answers.old) (K.count answers.old))
        (world (D.state device.new) (F.held images.new) (F.count images.new) (T.left script.new) (T.count script.new) (K.written answers.new) (K.count answers.new)) }
    ensures statuses { (result ≤ 1) ⊎ ((stop : Early) × (result ≡ stop_status stop)) }
{
    match perform(alloc, words, device, images, script, answers) {
        Ok(true) => 1,
        Ok(false) => 0,
        Err(stop) => {
            // Where the line can't be written either, the status stays.
            let _ = stop.tell(alloc, answers);
            stop.status()
        }
    }
}

fn perform<D: LineDevice, F: Images, T: Source, K: Sink>(
    alloc: Global,
    words: &[String],
    device: &mut D,
    images: &mut F,
    script: &mut T,
    answers: &mut K,
) -> Result<bool, Stop>
    ensures call { (name : List ℕ) → map (λ word. string_bytes word) words.now ≡ name ∷ []
        → Outcome name result
        (world (D.state device.old) (F.held images.old) (F.count images.old) (T.left script.old) (T.count script.old) (K.written answers.old) (K.count answers.old))
        (world (D.state device.new) (F.held images.new) (F.count images.new) (T.left script.new) (T.count script.new) (K.written answers.new) (K.count answers.new)) }
    ensures no_call { ((name : List ℕ) → map (λ word. string_bytes word) words.now ≡ name ∷ [] → ⊥)
        → (result ≡ Err Stop.Usage)
        × (world (D.state device.new) (F.held images.new) (F.count images.new) (T.left script.new) (T.count script.new) (K.written answers.new) (K.count answers.new)
        ≡ world (D.state device.old) (F.held images.old) (F.count images.old) (T.left script.old) (T.count script.old) (K.written answers.old) (K.count answers.old)) }
{
    let [name] = words else {
        return Err(Stop::Usage);
    };
    answer_script(alloc, name, device, images, script, answers)
}

fn answer_script<D: LineDevice, F: Images, T: Source, K: Sink>(
    alloc: Global,
    name: &str,
    device: &mut D,
    images: &mut F,
    script: &mut T,
    answers: &mut K,
) -> Result<bool, Stop>
    ensures { Outcome name.now result
        (world (D.state device.old) (F.held images.old) (F.count images.old) (T.left script.old) (T.count script.old) (K.written answers.old) (K.count answers.old))
        (world (D.state device.new) (F.held images.new) (F.count images.new) (T.left script.new) (T.count script.new) (K.written answers.new) (K.count answers.new)) }
{
    let image = fetch(alloc, name, Units::Words, images)?;
    // It is mounted before the script is read, so that a wrong one is told whatever is asked.
    let host = start(alloc, device, &image)?;
    let text = read_all(alloc, script)?;
    let exploration = read_script(alloc, host.geometry(), text.as_slice())?;
    answers_are_theorems();
    let refused = report(alloc, &image, &exploration, device, answers)?;
    show(alloc, &image, &exploration, device, answers)?;
    let geometry = host.geometry();
    let missed = answer_all(alloc, &image, geometry, &exploration, device, answers)?;
    Ok(refused || missed)
}
