//! The rules of a turn, one file a rule.
mod answer;
mod append;
mod applying;
mod ask;
mod call;
mod matched;
mod prepare;
mod say;
mod terms;
mod tick;
mod vote;
mod vote_reply;
mod want;
