//! One command at a time: what an arriving packet, a request or a grant does to the durable table of
//! packet stores (ECSS-E-ST-70-41C, 6.14 and 6.15), and the lines that go out behind it.
#![tactic(auto)]

mod arrivals;
mod fault;
mod granting;
mod handler;
mod judging;
mod replies;
mod requests;

pub use fault::HandlerFault;
pub use handler::Handler;
pub use report_lines::Sent;

#[cfg(test)]
mod tests;
