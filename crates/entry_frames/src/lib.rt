//! Entries, journal records and messages as bytes: their formats, and the reading and writing of entries and records.
#![tactic(auto)]

mod batch;
mod entry_parts;
mod entry_view;
mod entry_writing;
mod fault;
mod fields;
mod group;
mod kind;
mod limits;
mod log_view;
mod message;
mod nobody;
mod op_kind;
mod output;
mod peer;
mod put;
mod record_kind;
mod record_view;
mod record_walk;
mod record_writing;
mod reply_kind;
mod role;
mod tag;

pub use batch::Batch;
pub use entry_view::EntryView;
pub use entry_writing::{expected_version, write_entry};
pub use fault::FrameFault;
pub use fields::Fields;
pub use group::{Group, GroupBuilder};
pub use kind::{Kind, PeerKind};
pub use limits::{GREATEST, LAST_PLACE, LONGEST_VALUE, MOST_ENTRIES, MOST_ENTRY_BYTES};
pub use log_view::LogView;
pub use message::Message;
pub use nobody::{member_byte, member_with};
pub use op_kind::OpKind;
pub use output::Output;
pub use peer::Peer;
pub use record_view::RecordView;
pub use record_walk::RecordWalk;
pub use reply_kind::ReplyKind;
pub use role::Role;
pub use tag::Tag;

#[cfg(test)]
mod kept_log;
#[cfg(test)]
mod tests;
