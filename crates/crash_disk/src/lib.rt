//! A disk in memory that can be told to fail, to stop as a machine that loses its power does, and then to
//! answer the disk that is left.
#![tactic(auto)]

mod disk;
mod order;
mod past;
mod read;
mod spoil;
#[cfg(test)]
mod tests;
mod write;

pub use disk::MemDisk;
