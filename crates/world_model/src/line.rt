//! What a line of a schedule asks for.

use craft_base::{MemberId, Request};

/// What can happen to a member.
#[derive(Debug, Drop)]
pub enum Inner {
    /// Time passes at a member. The word chooses how long it waits.
    Tick { member: MemberId, word: u64 },
    /// A frame is delivered to its receiver. Frames are numbered from 1, in the order in which they were sent.
    Take { frame: u64 },
    /// A client asks a member. Its place is its number.
    Call { member: MemberId, request: Request },
}

/// What a line of a schedule asks for.
#[derive(Debug, Drop)]
pub enum Line {
    /// It happens.
    Do(Inner),
    /// The member goes down between two steps.
    Down(MemberId),
    /// The member starts anew over what its disk holds.
    Up(MemberId),
    /// What outlives a crash of the member is printed.
    Show(MemberId),
    /// It happens, and the machine stops in a device call, the first to the fourth (`call` 1 to 4) of those that put a group
    /// into the journal. What is pending on the disk is kept (`keep`) or spoiled.
    Stop { call: u8, keep: bool, event: Inner },
}
