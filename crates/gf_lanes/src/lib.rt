//! The field of 256 numbers that fragments are computed in: GF(2^8) over the polynomial 0x11D, and its kernels on slices
//! of bytes. The sum of two numbers is their exclusive or.
#![tactic(auto)]

mod field;
mod lanes;
mod slices;

pub use field::{gf_inv, gf_mul};
pub use slices::{mul_add, scale, scale_add, scale_add_to};
