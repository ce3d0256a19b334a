//! Laws of the packet store's model over lists of commands (ECSS-E-ST-70-41C, 6.15.3): which packets
//! leave the front of a store, and which its retrievals send. Nothing here computes for the program.
#![tactic(auto)]

mod moves;
mod sending;

pub use moves::{
    grants_send_what_the_moves_tell, moves_tell_the_places, runs_are_those_of_the_model,
};
pub use sending::{
    open_retrievals_send_in_order, packets_keep_their_numbers, ranges_send_in_order,
};
