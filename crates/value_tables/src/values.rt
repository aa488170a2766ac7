// The values that a word may have.
ghost use Rattle.std.specs.Prelude.{◌≡◌, ◌==◌, ◌||◌, ◌++◌, ◌<◌, [], ◌∷◌, false, codes, OnOk, Some, if◌then◌else◌};
ghost use Rattle.nvm_base.specs.Stock.{Appends};
ghost use Rattle.nvm_model.specs.Page.{is_bad_cell};
ghost use Rattle.value_tables.specs.Rows.{words_text};
ghost use Rattle.value_tables.specs.Values.{history_of, with_all, with_one};

use line_histories::HeldLine;
use nvm_base::{Bytes, print_bytes};
use std::alloc::{AllocError, Global};

/// The values of a word, each once, in the order in which they came, and whether its line may be bad.
#[derive(Drop)]
pub struct WordValues {
    pub is_bad: bool,
    pub values: Vec<u64>,
}

impl WordValues {
    pub fn none(alloc: Global) -> Self
        ensures good { result.is_bad ≡ false }
        ensures none { result.values.items ≡ [] }
    {
        WordValues {
            is_bad: false,
            values: Vec::new(alloc),
        }
    }

    /// Adds what word w of a line may be.
    pub fn add(&mut self, line: &HeldLine, w: u64) -> Result<(), AllocError>
        requires { w < 8 }
        ensures bad { OnOk result (self.new.is_bad ≡ (self.old.is_bad || is_bad_cell (Some line.now))) }
        ensures values { OnOk result (self.new.values.items ≡ with_all (λ a b. a == b) self.old.values.items (history_of w line.now)) }
    {
        if line.is_bad() {
            self.is_bad = true;
            return Ok(());
        }
        add_history(line, w, &mut self.values)
    }

    /// Appends it as a row has it.
    pub fn print(&self, out: &mut Bytes) -> Result<(), AllocError>
        ensures { OnOk result (out.new.items ≡ out.old.items ++ ((if self.now.is_bad then codes " poison" else []) ++ words_text self.now.values.items)) }
    {
        if self.is_bad {
            out.extend(b" poison")?;
        }
        print_values(&self.values, out)
    }
}

// Adds the values of word w, each that is not there yet.
fn add_history(line: &HeldLine, w: u64, found: &mut Vec<u64>) -> Result<(), AllocError>
    requires { w < 8 }
    ensures { is_bad_cell (Some line.now) ≡ false → OnOk result (found.new.items ≡ with_all (λ a b. a == b) found.old.items (history_of w line.now)) }
{
    let (durable, log) = line.values(w);
    add(found, durable)?;
    for stored in log {
        if stored.word == w {
            add(found, stored.value)?;
        }
    }
    Ok(())
}

fn add(found: &mut Vec<u64>, value: u64) -> Result<(), AllocError>
    ensures { OnOk result (found.new.items ≡ with_one (λ a b. a == b) found.old.items value) }
{
    if !found.iter().any(|other| value == *other) {
        found.push(value)?;
    }
    Ok(())
}

fn print_values(values: &[u64], out: &mut Bytes) -> Result<(), AllocError>
    ensures { OnOk result (out.new.items ≡ out.old.items ++ words_text values.now) }
{
    for value in values {
        out.push(b' ')?;
        print_bytes(&value.to_le_bytes(), out)?;
    }
    Ok(())
}
