//! Writing a record.
ghost use Rattle.std.specs.Prelude.{◌≡◌, ◌≤◌, ◌++◌, ℕ, OnOk, length, true};
ghost use Rattle.entry_frames.specs.Formats.{U8, U64, Fits, number_bytes, spelling};
ghost use Rattle.entry_frames.specs.Limits.{longest_value};
ghost use Rattle.entry_frames.specs.Records.{Term, Whole, record_byte, record_fields};
ghost use Rattle.entry_frames.specs.RecordViews.{record_of, HasK};

use crate::entry_writing::write_entry;
use crate::nobody::member_byte;
use crate::record_kind::RecordKind;
use crate::record_view::RecordView;
use craft_base::OutOfMemory;

/// Adds the one spelling of a record at the end of a body.
pub fn push_record(body: &mut Vec<u8>, item: &RecordView<'_>) -> Result<(), OutOfMemory>
    requires { (k : ℕ) → HasK k item.now → Fits (record_fields k) (record_of item.now) }
    ensures { OnOk result ((k : ℕ) → HasK k item.now → body.new.items ≡ body.old.items ++ spelling (record_fields k) (record_of item.now)) }
{
    match item {
        RecordView::Term(term, vote) => push_term(body, *term, *vote)?,
        RecordView::Add(entry) => {
            body.push(RecordKind::Add.byte())?;
            write_entry(*body.allocator(), body, entry)?
        }
        RecordView::Cut(index) => push_index(body, RecordKind::Cut, *index)?,
        RecordView::Whole(index, bytes) => push_value(body, *index, bytes)?,
        RecordView::Commit(index) => push_index(body, RecordKind::Commit, *index)?,
    }
    Ok(())
}

/// Adds a term and the vote in it.
fn push_term(body: &mut Vec<u8>, term: u64, vote: Option<u8>) -> Result<(), OutOfMemory>
    ensures { OnOk result (body.new.items ≡ body.old.items ++ spelling (record_fields 0) (Term term vote)) }
{
    body.push(RecordKind::Term.byte())?;
    body.extend_from_slice(&term.to_be_bytes())?;
    body.push(member_byte(vote))?;
    Ok(())
}

/// Adds a record of that kind that has an index alone.
fn push_index(body: &mut Vec<u8>, kind: RecordKind, index: u64) -> Result<(), OutOfMemory>
    ensures { OnOk result (body.new.items ≡ body.old.items ++ number_bytes true U8 (record_byte kind) ++ number_bytes true U64 index) }
{
    body.push(kind.byte())?;
    body.extend_from_slice(&index.to_be_bytes())?;
    Ok(())
}

/// Adds a whole value for an index.
fn push_value(body: &mut Vec<u8>, index: u64, bytes: &[u8]) -> Result<(), OutOfMemory>
    requires { length bytes.now ≤ longest_value }
    ensures { OnOk result (body.new.items ≡ body.old.items ++ spelling (record_fields 0) (Whole index bytes.now)) }
{
    push_index(body, RecordKind::Whole, index)?;
    body.extend_from_slice(&(bytes.len() as u32).to_be_bytes())?;
    body.extend_from_slice(bytes)?;
    Ok(())
}
