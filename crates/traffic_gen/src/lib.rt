//! Generated traffic: the text of a session, made from a number as it is taken.
//!
//! The text begins with five requests that make three stores, give them patterns, enable them, forward one kind of
//! report and resume an open retrieval. Then come arrivals of four APIDs, with a grant behind each fourth, an idle time
//! behind each 64th, and two retrievals among them. At the end come as many grants as there were arrivals. The same
//! number gives the same text.
#![tactic(auto)]

mod draws;
mod laws;
mod lines;
mod packets;
mod passes;
mod requests;
mod traffic;

pub use laws::traffic_reads_back;
pub use traffic::Traffic;

#[cfg(test)]
mod tests;
