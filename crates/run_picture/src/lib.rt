//! A picture of a run: its schedule and its text are read, and a space-time diagram is drawn of them, as SVG. Each member has a lane and
//! each event a column, after the diagrams of Lamport's paper on the order of events (1978).
#![tactic(auto)]

mod arrows;
mod asked;
mod columns;
mod commits;
mod drawing;
mod fault;
mod lanes;
mod legend;
mod marks;
mod message;
mod paper;
mod part;
mod picture_end;
mod reader;
mod reading;
mod reply;
mod run;
mod said;
mod short;
mod style;
mod words;

pub use drawing::picture;
pub use picture_end::PictureEnd;

#[cfg(test)]
mod tests;
