// The content report on the instructions of a request, by what lies in memory.
ghost use Rattle.std.specs.Prelude.{◌≡◌, ◌≤◌, ◌<◌, ◌^◌, ◌∷◌, [], All, IfNone, IfSome, find, length, map};
ghost use Rattle.pus_request.specs.View.{listed};
ghost use Rattle.pst_model.specs.Changes.{is_named};
ghost use Rattle.pst_model.specs.Contents.{content_report, summary_by, types_where};
ghost use Rattle.pst_model.specs.Reports.{HasTimes, configuration_report, forward_report, status_report};
ghost use Rattle.pst_model.specs.Table.{Table};
ghost use Rattle.report_lines.specs.Content.{HoldsReport};
ghost use Rattle.report_lines.specs.Rows.{config_by, status_by};
ghost use Rattle.report_lines.specs.Times.{AllHaveTimes};
ghost use Rattle.store_policy.specs.Shown.{IsTableShown};

use crate::rows::{configurations, statuses, summaries};
use control_defs::Instruction;
use pus_report::{
    Head, SummaryRow, write_configuration, write_forward, write_status, write_summary, write_types,
};
use pus_request::Items;
use store_directory::Directory;
use store_policy::View;

/// Writes the summary report of at most 32 rows, whose times are below 2^48, into the front of `out`,
/// of at least 1,024 octets, and returns its length. Without a row there is no report.
pub fn write_summaries(rows: &[SummaryRow], head: Head, out: &mut [u8]) -> Option<u32>
    requires count { head.count < 16384 }
    requires moment { head.moment < 2 ^ 48 }
    requires room { 1024 ≤ length out.old }
    requires few { length rows.now ≤ 32 }
    requires timed { All HasTimes rows.now }
    ensures none { IfNone result (summary_by rows.now ≡ []) }
    ensures some { IfSome result (HoldsReport (summary_by rows.now) head out.new) }
{
    if rows.is_empty() {
        return None;
    }
    Some(write_summary(head, rows, out))
}

// Writes the report of the patterns that the store with this identifier takes, if there is one.
fn write_types_of(view: &View<'_>, store: u16, head: Head, out: &mut [u8]) -> Option<u32>
    requires count { head.count < 16384 }
    requires moment { head.moment < 2 ^ 48 }
    requires room { 1024 ≤ length out.old }
    ensures none { IfNone result ((table : Table) → IsTableShown table view.now
        → types_where (find (is_named store) table.stores) ≡ []) }
    ensures some { IfSome result (λ octets. (table : Table) → IsTableShown table view.now
        → HoldsReport (types_where (find (is_named store) table.stores)) head out.new octets) }
    ensures short { IfSome result (λ octets. octets ≤ 1024) }
{
    let Some(at) = view.directory.find(store) else {
        return None;
    };
    let patterns = view.directory.patterns(at);
    Some(write_types(head, store, patterns.list(), out))
}

// Writes the report of how all stores are made.
fn write_configurations(directory: &Directory, head: Head, out: &mut [u8]) -> u32
    requires count { head.count < 16384 }
    requires moment { head.moment < 2 ^ 48 }
    requires room { 1024 ≤ length out.old }
    ensures { HoldsReport (configuration_report (map config_by directory.now.stores) ∷ []) head out.new result }
{
    let stores = directory.len() as usize;
    let rows = configurations(directory);
    write_configuration(head, &rows[..stores], out)
}

// Writes the report of what is on in all stores.
fn write_statuses(directory: &Directory, head: Head, out: &mut [u8]) -> u32
    requires count { head.count < 16384 }
    requires moment { head.moment < 2 ^ 48 }
    requires room { 1024 ≤ length out.old }
    ensures { HoldsReport (status_report (map status_by directory.now.stores) ∷ []) head out.new result }
{
    let rows = statuses(directory);
    write_status(head, rows.as_slice(), out)
}

// Writes the report of the patterns of packets that are forwarded.
fn write_forwarded(directory: &Directory, head: Head, out: &mut [u8]) -> u32
    requires count { head.count < 16384 }
    requires moment { head.moment < 2 ^ 48 }
    requires room { 1024 ≤ length out.old }
    ensures { HoldsReport (forward_report directory.now.forward ∷ []) head out.new result }
{
    write_forward(head, directory.forward().list(), out)
}

/// Writes the content report on instructions of one kind into the front of `out`, of at least 1,024
/// octets, and returns its length: the report of the patterns of forwarded packets, of those of the
/// packets that a store takes, the summary of stores, the status or the configuration of all stores
/// (ECSS-E-ST-70-41C, 6.14.3 and 6.15.3). No report: there is none on this kind of instruction, or no
/// store has an identifier that is named. The view has an index for each store, and the times of
/// its entries are below 2^48.
pub fn write_content(view: &View<'_>, items: &Items<'_>, head: Head, out: &mut [u8]) -> Option<u32>
    requires count { head.count < 16384 }
    requires moment { head.moment < 2 ^ 48 }
    requires room { 1024 ≤ length out.old }
    requires indexes { length view.now.indexes.now ≡ length view.now.directory.now.stores }
    requires timed { AllHaveTimes view.now.indexes.now }
    ensures none { IfNone result ((table : Table) → IsTableShown table view.now
        → content_report (listed items.now) table ≡ []) }
    ensures some { IfSome result (λ octets. (table : Table) → IsTableShown table view.now
        → HoldsReport (content_report (listed items.now) table) head out.new octets) }
    ensures short { IfSome result (λ octets. octets ≤ 1024) }
{
    let directory = view.directory;
    match items.first() {
        Instruction::ForwardReport => Some(write_forwarded(directory, head, out)),
        Instruction::ReportTypes(store) => write_types_of(view, store, head, out),
        Instruction::Summary(_) => write_summaries(summaries(view, items).as_slice(), head, out),
        Instruction::Status => Some(write_statuses(directory, head, out)),
        Instruction::Configuration => Some(write_configurations(directory, head, out)),
        _ => None,
    }
}
