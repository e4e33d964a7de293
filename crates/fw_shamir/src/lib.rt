//! Shares of a byte over GF(2^8) (Shamir 1979): values of a polynomial of degree g, of which any g + 1 give the byte, and g
//! leave every byte possible. No call takes memory.
#![tactic(auto)]

mod field;
mod sharing;
mod tables;
mod weights;

pub use field::{gf_inv, gf_mul};
pub use sharing::{Point, combine, eval, split, through};
pub use weights::Weights;
