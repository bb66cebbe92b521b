//! Settings that a number stands for, to try the program on: the same number gives the same setting everywhere.
//!
//! A number gives a sequence of draws, which are used one after the other. Of an odd number an auction is made, and of an
//! even one a general setting.
#![tactic(auto)]

mod auction;
mod draws;
mod general;
mod making;
mod refusal;

pub use making::make;
