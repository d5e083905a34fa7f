//! The tables and the metrics of a picture, written by hand, and what is said of the centre's health.

use crate::checks::{is_text, yes};
use crate::pictures::{bare_picture, full_picture};
use console_text::asked::read_options;
use console_text::no_run::NoRun;
use status_figures::{VERSION, boards_csv, bscs_csv, health_of, health_text, metrics};
use std::alloc::Global;
use std::process::Abort;

const BOARDS: &str =
    "warning,message_id,serial,kind,state,area,awaited,on_air,failed,left,broadcasts
3,4370,4031,cbs,active,,4,12,2,1,60
3,4370,4031,cbs,active,Coast,4,8,2,0,40
3,4370,4031,cbs,active,-,0,4,0,0,20
8,4352,,emergency,stopped,,0,0,0,0,0
";

const BSCS: &str = "bsc,cells,link,generation,in_flight,message_id,serial,in_flight_since,pending
1,9,up,3,replace,4370,4031,1764309116,2
12,9,down,3,,,,,0
";

const METRICS: &str = r##"# HELP cbc_build_info The version of the program.
# TYPE cbc_build_info gauge
cbc_build_info{version="1.0.0"} 1
# HELP process_start_time_seconds When the program began.
# TYPE process_start_time_seconds gauge
process_start_time_seconds 1764219123
# HELP cbc_picture_timestamp_seconds When the picture was taken.
# TYPE cbc_picture_timestamp_seconds gauge
cbc_picture_timestamp_seconds 1764309123
# HELP cbc_stale Whether the centre is stale and has to be rebuilt.
# TYPE cbc_stale gauge
cbc_stale 0
# HELP cbc_journal_entries_total Entries of the journal since the beginning.
# TYPE cbc_journal_entries_total counter
cbc_journal_entries_total 1234
# HELP cbc_journal_folded_entries_total Entries that were folded.
# TYPE cbc_journal_folded_entries_total counter
cbc_journal_folded_entries_total 1000
# HELP cbc_journal_limit_entries Entries that the journal may have since it was folded.
# TYPE cbc_journal_limit_entries gauge
cbc_journal_limit_entries 100000
# HELP cbc_journal_kept_entries Entries that stand in the kept file.
# TYPE cbc_journal_kept_entries gauge
cbc_journal_kept_entries 1230
# HELP cbc_receipts Receipts that are kept for the desks.
# TYPE cbc_receipts gauge
cbc_receipts 5
# HELP process_resident_memory_bytes Memory that the program takes.
# TYPE process_resident_memory_bytes gauge
process_resident_memory_bytes 12345678
# HELP cbc_bscs Registered BSCs.
# TYPE cbc_bscs gauge
cbc_bscs 2
# HELP cbc_links_up Registered BSCs whose link is up.
# TYPE cbc_links_up gauge
cbc_links_up 1
# HELP cbc_registered_cells Registered cells.
# TYPE cbc_registered_cells gauge
cbc_registered_cells 16
# HELP cbc_areas Areas.
# TYPE cbc_areas gauge
cbc_areas 3
# HELP cbc_warnings Warnings in the book, stopped ones too.
# TYPE cbc_warnings gauge
cbc_warnings 21
# HELP cbc_active_warnings Warnings in the book that were not stopped.
# TYPE cbc_active_warnings gauge
cbc_active_warnings 20
# HELP cbc_cells Registered cells that an active warning covers, by how it stands there.
# TYPE cbc_cells gauge
cbc_cells{warning="3",message_id="4370",state="awaited"} 4
cbc_cells{warning="3",message_id="4370",state="on_air"} 12
cbc_cells{warning="3",message_id="4370",state="failed"} 2
cbc_cells{warning="8",message_id="4352",state="awaited"} 0
cbc_cells{warning="8",message_id="4352",state="on_air"} 0
cbc_cells{warning="8",message_id="4352",state="failed"} 0
# HELP cbc_warning_cells Registered cells in which a warning is planned: 0 of an active one that reaches nobody.
# TYPE cbc_warning_cells gauge
cbc_warning_cells{warning="3",message_id="4370"} 18
cbc_warning_cells{warning="8",message_id="4352"} 0
# HELP cbc_warning_active Whether a warning was not stopped.
# TYPE cbc_warning_active gauge
cbc_warning_active{warning="3",message_id="4370"} 1
cbc_warning_active{warning="8",message_id="4352"} 0
# HELP cbc_left_places Places where an old or unwanted version of a warning is on air or may be.
# TYPE cbc_left_places gauge
cbc_left_places{warning="3",message_id="4370"} 1
cbc_left_places{warning="8",message_id="4352"} 0
# HELP cbc_broadcasts How often a warning was broadcast in the cells that its areas cover, as reported.
# TYPE cbc_broadcasts gauge
cbc_broadcasts{warning="3",message_id="4370"} 60
cbc_broadcasts{warning="8",message_id="4352"} 0
# HELP cbc_silent_cells Cells in which a warning is on air, and its number of broadcasts does not rise.
# TYPE cbc_silent_cells gauge
cbc_silent_cells{warning="3",message_id="4370"} 0
cbc_silent_cells{warning="8",message_id="4352"} 0
# HELP cbc_bsc_link_up Whether the link of a BSC is up, and no RESET is out over it.
# TYPE cbc_bsc_link_up gauge
cbc_bsc_link_up{bsc="1"} 1
cbc_bsc_link_up{bsc="12"} 0
# HELP cbc_bsc_link_down_since_timestamp_seconds When the link of a BSC ended that is down.
# TYPE cbc_bsc_link_down_since_timestamp_seconds gauge
cbc_bsc_link_down_since_timestamp_seconds{bsc="12"} 1764309048
# HELP cbc_bsc_cells Cells that are registered at a BSC.
# TYPE cbc_bsc_cells gauge
cbc_bsc_cells{bsc="1"} 9
cbc_bsc_cells{bsc="12"} 9
# HELP cbc_bsc_down_cells Cells of a BSC that are down for some kind of warning.
# TYPE cbc_bsc_down_cells gauge
# HELP cbc_bsc_pending_orders Messages that a BSC is still to write, replace or kill, one in flight too.
# TYPE cbc_bsc_pending_orders gauge
cbc_bsc_pending_orders{bsc="1"} 2
cbc_bsc_pending_orders{bsc="12"} 0
# HELP cbc_bsc_in_flight Orders and queries that are in flight to a BSC, one at most.
# TYPE cbc_bsc_in_flight gauge
cbc_bsc_in_flight{bsc="1"} 1
cbc_bsc_in_flight{bsc="12"} 0
# HELP cbc_bsc_in_flight_since_timestamp_seconds When what is in flight to a BSC went out.
# TYPE cbc_bsc_in_flight_since_timestamp_seconds gauge
cbc_bsc_in_flight_since_timestamp_seconds{bsc="1"} 1764309116
# HELP cbc_bsc_reset_since_timestamp_seconds When the RESET went out that a BSC has not answered.
# TYPE cbc_bsc_reset_since_timestamp_seconds gauge
# HELP cbc_events_total Events that were entered since the start, by kind.
# TYPE cbc_events_total counter
cbc_events_total{kind="issue"} 3
cbc_events_total{kind="report"} 17
# HELP cbc_refusals_total Refusals since the start, of the server's own questions too.
# TYPE cbc_refusals_total counter
cbc_refusals_total{refusal="no-such-bsc"} 2
"##;

#[test]
fn figures_are_those_of_the_picture(rt: HostRuntime) {
    let picture = full_picture(&rt, rt.alloc());
    let boards = boards_csv(rt.alloc(), &picture).expect(&rt, "memory");
    is_text(&rt, boards.as_slice(), BOARDS, "boards");
    let bscs = bscs_csv(rt.alloc(), &picture).expect(&rt, "memory");
    is_text(&rt, bscs.as_slice(), BSCS, "BSCs");
    let found = metrics(rt.alloc(), &picture).expect(&rt, "memory");
    is_text(&rt, found.as_slice(), METRICS, "metrics");
}

#[test]
fn health_is_that_of_the_centre(rt: HostRuntime) {
    let rows = [
        (false, 235, "ok\n"),
        (true, 235, "stale\n"),
        (false, 234, "journal full\n"),
        (true, 234, "stale\njournal full\n"),
    ];
    for (is_stale, limit, want) in rows {
        let picture = bare_picture(&rt, rt.alloc(), is_stale, limit);
        let found = health_text(health_of(&picture));
        is_text(&rt, found.as_bytes(), want, "health");
    }
}

/// The words of a command line that asks for the version.
fn words(rt: &impl Abort, alloc: Global) -> Vec<String> {
    let mut words = Vec::new(alloc);
    for word in ["cbc", "--version"] {
        let word = String::from_str(alloc, word).expect(rt, "memory");
        words.push(word).expect(rt, "memory");
    }
    words
}

/// `--version` prints the version that the metrics have.
#[test]
fn the_version_is_that_of_the_command_line(rt: HostRuntime) {
    let alloc = rt.alloc();
    let words = words(&rt, alloc);
    let want = format!(in alloc; "cbc {VERSION}\n").expect(&rt, "memory");
    match read_options(alloc, words.as_slice()) {
        Err(NoRun::Help(text)) => is_text(&rt, text.as_bytes(), want.as_str(), "the version"),
        _ => yes(&rt, false, "a version"),
    }
}
