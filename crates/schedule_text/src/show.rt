//! What outlives a crash of a member, as lines.
ghost use Rattle.std.specs.Prelude.{◌≡◌, ◌++◌, ◌∷◌, [], IfOk, OnOk, OnErr, codes, length, string_bytes};
ghost use Rattle.std.specs.Fmt.{decimal};
ghost use Rattle.world_model.specs.Lines as lines;

use craft_base::{MemberId, Op, OutOfMemory};
use entry_frames::{EntryView, LogView};
use line_input::digits_of;
use std::alloc::Global;
use std::fmt::Write;

/// Adds what outlives a crash of the member `me`: a line with its term, its vote, its last index and its commit index, and a
/// line for each entry of its log. The only error is want of memory.
pub fn show_of<L: LogView>(
    alloc: Global,
    out: &mut Vec<u8>,
    me: MemberId,
    term: u64,
    vote: Option<u8>,
    log: &L,
) -> Result<(), OutOfMemory>
    ensures lines { OnOk result (out.new.items ≡ out.old.items
        ++ lines.show_lines me (record { term = term; vote = vote; log = (L.log log.now).entries; commit = (L.log log.now).commit })) }

    // After an error the text is as it was.
    ensures kept { OnErr result (out.new.items ≡ out.old.items) }
{
    let mut text = String::new(alloc);
    push_member(alloc, &mut text, me, term, vote, log)?;
    push_entries(alloc, &mut text, log)?;
    out.extend_from_slice(text.as_bytes())?;
    Ok(())
}

/// Adds the line of the member itself.
fn push_member<L: LogView>(
    alloc: Global,
    text: &mut String,
    me: MemberId,
    term: u64,
    vote: Option<u8>,
    log: &L,
) -> Result<(), OutOfMemory>
    ensures { OnOk result (string_bytes text.new ≡ string_bytes text.old
        ++ lines.line_of (codes "node" ∷ decimal me ∷ decimal term ∷ lines.member_word vote ∷ decimal (length (L.log log.now).entries)
        ∷ decimal (L.log log.now).commit ∷ [])) }
{
    let me = me.number();
    let vote = member_word(alloc, vote)?;
    let last = log.last();
    let commit = log.commit();
    writeln!(text, "node {me} {term} {vote} {last} {commit}")?;
    Ok(())
}

/// Adds a line for each entry of the log.
fn push_entries<L: LogView>(alloc: Global, text: &mut String, log: &L) -> Result<(), OutOfMemory>
    ensures { OnOk result (string_bytes text.new ≡ string_bytes text.old ++ lines.entry_lines 1 (L.log log.now).entries) }
{
    for before in 0..log.last() {
        let index = before + 1;
        let Some(entry) = log.at(index) else {
            unreachable!()
        };
        push_entry(alloc, text, index, &entry)?;
    }
    Ok(())
}

/// Adds the line of the entry at an index.
fn push_entry(
    alloc: Global,
    text: &mut String,
    index: u64,
    entry: &EntryView<'_>,
) -> Result<(), OutOfMemory>
    ensures { OnOk result (string_bytes text.new ≡ string_bytes text.old ++ lines.line_of (lines.entry_words index entry.now.entry)) }
{
    let (term, client, seq, vlen) = (entry.term(), entry.client(), entry.seq(), entry.vlen());
    let form = form_letter(entry);
    let op = op_word(alloc, entry.op())?;
    let key = digits_of(alloc, entry.key())?;
    let bytes = held_word(alloc, entry)?;
    writeln!(
        text,
        "entry {index} {term} {form} {op} {client} {seq} {key} {vlen} {bytes}"
    )?;
    Ok(())
}

/// `w` for whole, `p` for a part.
fn form_letter(entry: &EntryView<'_>) -> &'static str
    ensures { result.now ≡ lines.form_letter entry.now.entry.form }
{
    if entry.is_whole() { "w" } else { "p" }
}

/// The bytes that are held of a value, in lower case hexadecimal digits, and `-` for none.
fn held_word(alloc: Global, entry: &EntryView<'_>) -> Result<String, OutOfMemory>
    ensures { IfOk result (λ word. string_bytes word ≡ lines.bytes_word (lines.form_bytes entry.now.entry.form)) }
{
    Ok(digits_of(alloc, entry.bytes())?)
}

/// What an entry does to the map.
fn op_word(alloc: Global, op: Op) -> Result<String, OutOfMemory>
    ensures { IfOk result (λ word. string_bytes word ≡ lines.op_word op) }
{
    match op {
        Op::Noop => Ok(format!(in alloc; "noop")?),
        Op::Put => Ok(format!(in alloc; "put")?),
        Op::PutIf(version) => Ok(format!(in alloc; "putif={version}")?),
        Op::Del => Ok(format!(in alloc; "del")?),
        Op::Get => Ok(format!(in alloc; "get")?),
    }
}

/// A member's number, and `-` for none.
fn member_word(alloc: Global, member: Option<u8>) -> Result<String, OutOfMemory>
    ensures { IfOk result (λ word. string_bytes word ≡ lines.member_word member) }
{
    match member {
        None => Ok(format!(in alloc; "-")?),
        Some(number) => Ok(format!(in alloc; "{number}")?),
    }
}
