//! What an arriving packet asks of a store, in memory: its plan, its refusal, its row behind the
//! put, the text of the entry, and which blocks are free behind it (ECSS-E-ST-70-41C, 6.15.3).
#![tactic(auto)]

mod begun;
mod counting;
mod entry_text;
mod making;
mod plan;
mod ranges;
mod recording;
mod refusals;
mod row_behind;
mod settling;
mod staying;
mod walking;

pub use begun::take_block;
pub use counting::free_blocks_are_counted;
pub use entry_text::EntryText;
pub use making::{count_record, make_change, tell_refusal};
pub use plan::{Plan, plan_of};
pub use ranges::{loaded_stores_are_in_place, stores_stay_in_place};
pub use recording::{Arrival, append_record, begin_record};
pub use refusals::{RefusedPut, refusals_are_reported, refusals_of};
pub use row_behind::row_behind_put;
pub use settling::settle;
pub use staying::{stores_have_blocks_of_their_own, walks_stay_beside_new_records};
pub use walking::{memory_begins_a_walk, memory_goes_on, memory_has_the_next_store};

#[cfg(test)]
mod tests;
