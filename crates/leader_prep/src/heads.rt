//! Which entries count as one.
ghost use Rattle.std.specs.Prelude.{◌≡◌};
ghost use Rattle.leader_prep.specs.Verdicts.{is_same_head, is_same_op, is_usable};

use craft_base::Op;
use entry_frames::EntryView;

/// Whether two operations are one: of the same kind, and as `PutIf` with the same expected version. It is the part of
/// `is_same_head` that is about operations.
fn is_same_op(own: Op, other: Op) -> bool
    ensures { result ≡ is_same_op own other }
{
    match (own, other) {
        (Op::Noop, Op::Noop) | (Op::Put, Op::Put) | (Op::Del, Op::Del) | (Op::Get, Op::Get) => true,
        (Op::PutIf(version), Op::PutIf(expected)) => version == expected,
        _ => false,
    }
}

/// Whether two entries have one head: client, number of the request, operation, key and length of the value. That is all that
/// every member which holds the entry knows of it, whole or in part. Raft and CRaft know an entry by its index and term;
/// that heads are compared before a value takes the place of a part is this project's own rule.
pub fn is_same_head(own: &EntryView<'_>, other: &EntryView<'_>) -> bool
    ensures { result ≡ is_same_head own.now.entry.head other.now.entry.head }
{
    own.client() == other.client()
        && own.seq() == other.seq()
        && is_same_op(own.op(), other.op())
        && own.key() == other.key()
        && own.vlen() == other.vlen()
}

/// Whether another's entry at an index counts beside the member's own there: term and head are the same. The value of the own
/// entry is had from entries that count, and from no other. That a new leader has it of the others' entries is CRaft's; which
/// of them count is this project's own rule, and the same for one value that a leader wants.
pub fn is_usable(own: &EntryView<'_>, other: &EntryView<'_>) -> bool
    ensures { result ≡ is_usable own.now.entry other.now.entry }
{
    own.term() == other.term() && is_same_head(own, other)
}
