//! In which forms entries go, a letter each.
ghost use Rattle.std.specs.Prelude.{◌≡◌, IfOk, string_bytes};
ghost use Rattle.world_model.specs.Lines as lines;

use craft_base::{Form, OutOfMemory};
use peer_frames::Batch;
use std::alloc::Global;

/// The letters of some entries, and `-` for none.
pub fn forms_word(alloc: Global, entries: &Batch) -> Result<String, OutOfMemory>
    ensures { IfOk result (λ word. string_bytes word ≡ lines.forms_word entries.now) }
{
    if entries.len() == 0 {
        Ok(format!(in alloc; "-")?)
    } else {
        form_letters(alloc, entries)
    }
}

/// The letters of some entries.
fn form_letters(alloc: Global, entries: &Batch) -> Result<String, OutOfMemory>
    ensures { IfOk result (λ letters. string_bytes letters ≡ lines.form_letters entries.now) }
{
    let mut letters = String::new(alloc);
    for n in 0..entries.len() {
        match entries.at(n) {
            Some(entry) => letters.push_str(form_letter(&entry.form))?,
            None => unreachable!(),
        }
    }
    Ok(letters)
}

/// `w` for whole, `p` for a part.
fn form_letter(form: &Form) -> &'static str
    ensures { result.now ≡ lines.form_letter form.now }
{
    match form {
        Form::Whole(_) => "w",
        Form::Part(_) => "p",
    }
}
