//! What the packet store means (ECSS-E-ST-70-41C, 6.14 and 6.15): the session text, the table of
//! packet stores, requests and reports, as definitions over plain lists and numbers, with their
//! laws. Nothing here computes for the program; the crates above cite it.
#![tactic(auto)]

mod faults;
mod requests;
mod rows;
mod stores;
mod table;
mod text;
mod verdicts;

pub use faults::{LineFault, RequestFault};
pub use requests::{
    no_spelling_begins_another, one_reading, request_or_fault, written_requests_read_back,
};
pub use rows::{ConfigRow, StatusRow, SummaryRow};
pub use stores::{
    bounded_stores_drop_nothing, configurations_stay_lawful, contents_stay_within,
    copies_leave_their_source, ranges_stay_within, reservations_stay_within, stores_stay_few,
    stores_stay_in_order, times_never_fall, times_part_the_packets,
};
pub use table::{
    behind_stays_within, circular_stores_refuse_only_larger, failed_instructions_change_nothing,
    fewest_leave, reports_are_counted, runs_in_turn,
};
pub use text::{fields_of_a_line, limits_of_a_line, lines_of_text, written_forms};
pub use verdicts::Verdict;
