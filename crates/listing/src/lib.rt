//! The listing of a durable table, sent on the link line by line as it is read from a device.
#![tactic(auto)]

mod fault;
mod lines;
mod listing;
mod sending;
mod stores;
mod words;

pub use fault::ListingFault;
pub use listing::send_listing;

#[cfg(test)]
mod image_writer;
#[cfg(test)]
mod tests;
