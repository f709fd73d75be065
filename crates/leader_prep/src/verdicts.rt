//! What is decided.
ghost use Rattle.std.specs.Prelude.{◌≡◌, is_none};

use craft_base::Blob;

/// What a preparation decided by one answer.
#[derive(Debug, Drop)]
pub struct Verdicts {
    /// The indexes whose values were had, with these, in order.
    pub wholes: Vec<(u64, Blob)>,
    /// Where the log is cut, if it is.
    pub cut: Option<u64>,
    /// Whether nothing is left to decide.
    pub done: bool,
}

/// What is decided of one part.
#[derive(Drop)]
pub(crate) enum Verdict {
    /// Too few members have shown what they hold there.
    Wait,
    /// Its value.
    Whole(Blob),
    /// The log is cut there.
    Cut,
}

/// The verdicts after which that cursor is left, and this.
pub(crate) fn verdicts_of(
    wholes: Vec<(u64, Blob)>,
    cut: Option<u64>,
    left: Option<u64>,
) -> (Verdicts, Option<u64>)
    ensures wholes { result.0.wholes ≡ wholes }
    ensures cut { result.0.cut ≡ cut }
    ensures done { result.0.done ≡ is_none left }
    ensures left { result.1 ≡ left }
{
    let done = left.is_none();
    (Verdicts { wholes, cut, done }, left)
}
