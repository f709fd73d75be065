//! Messages as bytes: the reading and writing of all that members and clients tell each other.
#![tactic(auto)]

mod frame_view;
mod message_view;
mod peer_view;
mod push;
mod reply_view;
mod request_view;
mod slots;
mod writing;

pub use entry_frames::{Batch, Message, Output, Peer, Role};
pub use message_view::MessageView;
pub use writing::write_message;

#[cfg(test)]
mod tests;
