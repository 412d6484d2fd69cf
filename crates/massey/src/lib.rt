// Massey's steps and what holds of them, over every field that keeps the laws.
#![tactic(auto)]

mod theorems;

pub use theorems::{
    another_register, another_shortest, count_bounds, expected_digit, other_register,
    shortest_register, state_bounds,
};
