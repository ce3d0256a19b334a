//! What the instructions of a request make of the directory of the stores, of its table and of what
//! memory shows of it, one after another (ECSS-E-ST-70-41C, 6.14.3 and 6.15.3), and how many reports
//! answer the request. Nothing here computes for the program: the crates above cite it.
#![tactic(auto)]

mod beginning;
mod carrying;
mod counting;
mod ending;
mod keeping;
mod showing;

pub use beginning::{
    directories_are_of_tables, requests_begin, requests_can_be_carried, shown_tables_have_indexes,
    views_show_a_table,
};
pub use carrying::{instructions_ask, instructions_fail, instructions_take_effect};
pub use counting::reports_are_counted;
pub use ending::requests_end;
pub use keeping::{changes_take_no_memory, records_stay_in_place, stores_stay_in_place};
pub use showing::{carried_tables_are_held, carried_tables_are_shown};
