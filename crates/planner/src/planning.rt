ghost use Rattle.std.specs.Prelude.{◌≡◌, ◌*◌, ◌≤◌, true, ◌++◌, length, drop, Some, None};
ghost use Rattle.std.specs.Option.{option_map};
ghost use Rattle.model.specs.Planner.{copied};
ghost use Rattle.fabric.specs.Faults.{call_refusal};
ghost use Rattle.fabric.specs.Of.{net};
ghost use Rattle.planner.specs.Plans.{list_test, table_of, table_refusal, Drafted, Plans};
ghost use Rattle.planner.specs.Stages.{Judges, Drafts};

use crate::draft::Draft;
use crate::fault::TopologyFault;
use crate::filing::file_pairs;
use crate::judging::{judge_paths, judge_routes};
use crate::rows::HopRows;
use fabric::{CallFault, Fabric, LaneCount};
use routing::table::cell;

// Refusal 13: a table that is too short.
fn judge_lists(
    fabric: &Fabric,
    given: Option<&[u8]>,
    channels: &[u8],
    lane_table: &[u8],
) -> Result<(), CallFault>
    ensures { Judges call_refusal (list_test (net fabric.now).switches (option_map (λ t. t.now) given.entry) (length channels.now) (length lane_table.now)) result }
{
    let switches = fabric.switch_count() as usize;
    let cells = switches * switches;
    if channels.len() < cells
        || lane_table.len() < cells
        || given.is_some_and(|table| table.len() < cells)
    {
        return Err(CallFault::ShortList);
    }
    Ok(())
}

// The channels one hop nearer, if every pair has a path.
fn draft_shortest(fabric: &Fabric) -> Result<Draft<'_>, TopologyFault>
    ensures { Drafts (table_refusal (net fabric.now) None) (Drafted (net fabric.now) (table_of (net fabric.now) None)) result }
{
    let rows = HopRows::measure(fabric);
    judge_paths(&rows)?;
    Ok(rows.shortest())
}

// The given channels, with none on the diagonal.
fn copy_given<'a>(fabric: &'a Fabric, given: &[u8]) -> Draft<'a>
    ensures on { result.fabric.now ≡ fabric.now }
    ensures table { result.cells.items ≡ copied (net fabric.now).switches given.now }
{
    let switches = fabric.switch_count() as u8;
    Draft::of(fabric, |pair| {
        cell(given, switches, pair.source, pair.destination)
    })
}

// The given channels, if every route arrives.
fn draft_given<'a>(fabric: &'a Fabric, given: &[u8]) -> Result<Draft<'a>, TopologyFault>
    ensures { Drafts (table_refusal (net fabric.now) (Some given.now)) (Drafted (net fabric.now) (table_of (net fabric.now) (Some given.now))) result }
{
    let draft = copy_given(fabric, given);
    judge_routes(&draft)?;
    Ok(draft)
}

// The table to file by: the given one, or else the channels one hop nearer.
fn draft_table<'a>(fabric: &'a Fabric, given: Option<&[u8]>) -> Result<Draft<'a>, TopologyFault>
    ensures { Drafts (table_refusal (net fabric.now) (option_map (λ t. t.now) given.entry)) (Drafted (net fabric.now) (table_of (net fabric.now) (option_map (λ t. t.now) given.entry))) result }
{
    match given {
        None => draft_shortest(fabric),
        Some(table) => draft_given(fabric, table),
    }
}

// Copies a table to the front of a list: the library's copy with a clause, which is no plainer shared with the check.
fn write_front(table: &[u8], list: &mut [u8])
    requires { length table.now ≤ length list.old }
    ensures { list.new ≡ table.now ++ drop (length table.now) list.old }
{
    list[..table.len()].copy_from_slice(table);
}

// Plans a fabric with this many lanes: writes the channel of every pair, by row of the switch, to the front of `channels`, and its lane
// to the front of `lane_table`; 255 on both diagonals. A given channel table, whose diagonal is not read, is kept; else every route is
// a shortest one. Each pair, by source, then destination, gets the lowest lane that stays without a cycle. A refusal leaves both
// tables as they were.
pub fn plan(
    fabric: &Fabric,
    lanes: u32,
    given: Option<&[u8]>,
    channels: &mut [u8],
    lane_table: &mut [u8],
) -> Result<(), TopologyFault>
    ensures { Plans (net fabric.now) lanes (option_map (λ t. t.now) given.entry) channels.old channels.new lane_table.old lane_table.new result }
{
    let lanes = LaneCount::try_from(lanes)?;
    judge_lists(fabric, given, channels, lane_table)?;
    let draft = draft_table(fabric, given)?;
    let filed = file_pairs(&draft, lanes)?;
    write_front(&draft.cells, channels);
    write_front(&filed, lane_table);
    Ok(())
}
