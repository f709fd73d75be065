//! What is told of an event.
ghost use Rattle.std.specs.Prelude.{◌≡◌, []};

use craft_base::MemberId;
use peer_frames::Output;
use std::alloc::Global;
use world_model::Verdict;

/// What is told of an event.
#[derive(Drop)]
pub struct Happened {
    pub verdict: Verdict,
    /// The member at which it happened.
    pub member: MemberId,
    pub outputs: Vec<Output>,
    /// The lines that show the member.
    pub shown: Vec<u8>,
}

impl Happened {
    /// Nothing happened.
    pub fn nothing(alloc: Global, verdict: Verdict) -> Happened
        ensures verdict { result.verdict ≡ verdict }
        ensures member { result.member ≡ 0 }
        ensures outputs { result.outputs.items ≡ [] }
        ensures shown { result.shown.items ≡ [] }
    {
        Happened::at(alloc, MemberId::default(), verdict)
    }

    /// It happened at a member, which tells nothing.
    pub fn at(alloc: Global, member: MemberId, verdict: Verdict) -> Happened
        ensures verdict { result.verdict ≡ verdict }
        ensures member { result.member ≡ member }
        ensures outputs { result.outputs.items ≡ [] }
        ensures shown { result.shown.items ≡ [] }
    {
        Happened {
            verdict,
            member,
            outputs: Vec::new(alloc),
            shown: Vec::new(alloc),
        }
    }
}
