//! Requests of services 14 and 15 (ECSS-E-ST-70-41C, 6.14 and 6.15) to octets and back: the
//! instructions that the data of a telecommand spells, or the first fault that it has, and the
//! telecommand that asks for instructions.
#![tactic(auto)]

mod items;
mod kinds;
mod reading;
mod spelled;
mod writing;
mod written;

pub use items::Items;
pub use pst_model::RequestFault;
pub use reading::read_request;
pub use writing::write_request;

#[cfg(test)]
mod tests;
