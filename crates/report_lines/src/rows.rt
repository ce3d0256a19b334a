// What reports say of the stores that lie in memory.
ghost use Rattle.std.specs.Prelude.{◌≡◌, ◌<◌, ◌^◌, All, IfSome, find, length, map, option_to_list, slice_get, slice_index, take};
ghost use Rattle.std.specs.List.{flat_map};
ghost use Rattle.pus_request.specs.View.{listed};
ghost use Rattle.pst_model.specs.Changes.{is_named};
ghost use Rattle.pst_model.specs.Contents.{summary_asked, summary_where};
ghost use Rattle.pst_model.specs.Reports.{HasTimes};
ghost use Rattle.pst_model.specs.Table.{Table};
ghost use Rattle.report_lines.specs.Rows.{config_by, stamps_of, status_by, summary_by};
ghost use Rattle.report_lines.specs.Times.{AllHaveTimes, HaveTimes};
ghost use Rattle.store_policy.specs.Shown.{IsTableShown};

use arrayvec::ArrayVec;
use control_defs::{Instruction, StoreKind};
use pus_report::{ConfigRow, StatusRow, SummaryRow};
use pus_request::Items;
use store_directory::{Directory, Row};
use store_policy::View;
use time_index::Index;

/// The rows of a summary report, one for each instruction at most.
pub type SummaryRows = ArrayVec<SummaryRow, 32>;

/// A row of no store.
const NO_STORE: ConfigRow = ConfigRow {
    store: 0,
    kind: StoreKind::Circular,
    size: 0,
    channel: 0,
};

// The time of the packet at a position, or 0 if there is none.
fn stamp_at(index: &Index, position: u32) -> u64
    requires { HaveTimes index.now.entries }
    ensures stamp { result ≡ slice_index (stamps_of index.now) position }
    ensures below { result < 2 ^ 48 }
{
    if position >= index.len() {
        return 0;
    }
    index.entry(position).stamp
}

// What the summary report says of a store.
fn summary_of(row: &Row, index: &Index) -> SummaryRow
    requires { HaveTimes index.now.entries }
    ensures row { result ≡ summary_by row.now index.now }
    ensures times { HasTimes result }
{
    let packets = index.len();
    SummaryRow {
        store: row.identifier,
        packets,
        pages: index.pages(),
        oldest: stamp_at(index, 0),
        newest: stamp_at(index, packets.saturating_sub(1)),
        ahead: packets.saturating_sub(row.behind),
    }
}

// The index of the store at a place.
fn index_at<'a>(view: &View<'a>, at: u32) -> &'a Index
    requires { at < length view.now.indexes.now }
    ensures { slice_get view.now.indexes.now at ≡ Some result.now }
{
    &view.indexes[at as usize]
}

// The row of the summary report on the store with this identifier, if there is one.
fn summary_where(view: &View<'_>, store: u16) -> Option<SummaryRow>
    requires indexes { length view.now.indexes.now ≡ length view.now.directory.now.stores }
    requires timed { AllHaveTimes view.now.indexes.now }
    ensures row { (table : Table) → IsTableShown table view.now
        → option_to_list result ≡ summary_where (find (is_named store) table.stores) }
    ensures times { IfSome result HasTimes }
{
    let Some(at) = view.directory.find(store) else {
        return None;
    };
    let row = view.directory.row(at);
    let index = index_at(view, at);
    Some(summary_of(row, index))
}

// The row of the summary report that an instruction asks for, if it names a store that there is.
fn summary_asked(view: &View<'_>, instruction: Instruction) -> Option<SummaryRow>
    requires indexes { length view.now.indexes.now ≡ length view.now.directory.now.stores }
    requires timed { AllHaveTimes view.now.indexes.now }
    ensures row { (table : Table) → IsTableShown table view.now
        → option_to_list result ≡ summary_asked table.stores instruction }
    ensures times { IfSome result HasTimes }
{
    match instruction {
        Instruction::Summary(store) => summary_where(view, store),
        _ => None,
    }
}

/// The rows of the summary report that instructions ask for, of those that name a store that there is.
pub(crate) fn summaries(view: &View<'_>, items: &Items<'_>) -> SummaryRows
    requires indexes { length view.now.indexes.now ≡ length view.now.directory.now.stores }
    requires timed { AllHaveTimes view.now.indexes.now }
    ensures rows { (table : Table) → IsTableShown table view.now
        → result.items ≡ flat_map (summary_asked table.stores) (listed items.now) }
    ensures times { All HasTimes result.items }
{
    let mut rows = SummaryRows::new();
    for at in 0..items.len() {
        if let Some(row) = summary_asked(view, items.get(at)) {
            rows.push(row);
        }
    }
    rows
}

// What the status report says of the store at a place.
fn status_at(directory: &Directory, at: u32) -> StatusRow
    requires { at < length directory.now.stores }
    ensures { IfSome (slice_get directory.now.stores at) (λ listed. result ≡ status_by listed) }
{
    let row = directory.row(at);
    StatusRow {
        store: row.identifier,
        storage: row.storage,
        open_on: row.open_on,
        range: row.range.is_some(),
    }
}

/// The rows of the status report, one for each store.
pub(crate) fn statuses(directory: &Directory) -> ArrayVec<StatusRow, 32>
    ensures { result.items ≡ map status_by directory.now.stores }
{
    let mut rows = ArrayVec::new();
    for at in 0..directory.len() {
        rows.push(status_at(directory, at));
    }
    rows
}

// What the configuration report says of the store at a place.
fn configuration_at(directory: &Directory, at: u32) -> ConfigRow
    requires { at < length directory.now.stores }
    ensures { IfSome (slice_get directory.now.stores at) (λ listed. result ≡ config_by listed) }
{
    let row = directory.row(at);
    ConfigRow {
        store: row.identifier,
        kind: row.kind,
        size: row.size,
        channel: row.channel,
    }
}

/// The rows of the configuration report, one for each store, and behind them rows of no store.
pub(crate) fn configurations(directory: &Directory) -> [ConfigRow; 32]
    ensures { take (length directory.now.stores) result ≡ map config_by directory.now.stores }
{
    let mut rows = [NO_STORE; 32];
    for at in 0..directory.len() {
        rows[at as usize] = configuration_at(directory, at);
    }
    rows
}
