//! What a member is told.
use craft_base::Request;
use peer_frames::MessageView;

/// What a member is told.
#[derive(Drop)]
pub enum Event<'a> {
    /// Time passes. The word chooses how long is long enough.
    Tick { word: u64 },
    /// A message of another member comes.
    Frame(MessageView<'a>),
    /// A client asks, at that place.
    Call { place: u64, request: &'a Request },
}
