// The C interface: thin functions over the library's calls, declared in include/tulghimo.h.
#![tactic(auto)]

ghost use Rattle.std.specs.Prelude.{◌≡◌, pos, neg_ℤ, length};
ghost use Rattle.gate.specs.Outcome.{granted, buffer_after};
ghost use Rattle.gate.specs.Answers.{number_of, answered, length_answered};
ghost use Rattle.record.specs.Record.{read_of};
ghost use Rattle.summary.specs.Outcomes.{summarise_outcome, merge_outcome, finish_outcome};
ghost use Rattle.outcome.specs.Outcomes.{merge_row_outcome, plan_outcome, runs_outcome, work_outcome};
ghost use Rattle.outcome.specs.Day.{day_outcome};
ghost use Rattle.day_table.specs.Outcomes.{write_log_outcome, read_table_outcome};
ghost use Rattle.day_list.specs.Days.{small_days_outcome};
ghost use Rattle.run_back.specs.Backwards.{backwards_outcome};
ghost use Rattle.log_records.specs.Line.{heaviest_line_outcome};
ghost use Rattle.day_sheet.specs.Sheet.{sheet_outcome};
ghost use Rattle.common_record.specs.Common.{common_outcome};
ghost use Rattle.valley_station.specs.Station.{fresh_outcome, send_outcome, end_outcome};
ghost use Rattle.valley_station.specs.State.{station_of, fresh_after, send_after, end_after};
ghost use Rattle.work.specs.Answers.{work_in};
ghost use Rattle.tulghimo.specs.Interface.{status_of, length_status, record_status, Short, fields_after, figure_after, figures_after, work_after};
ghost use Rattle.tulghimo.specs.TakenLaws.{taken_status};

use gate::Refusal;
use outcome::Figures;
use work::Totals;

// A refusal, as the C functions answer it.
fn refusal(no: Refusal) -> i64
    ensures { result ≡ neg_ℤ (pos (number_of no)) }
{
    -i64::from(no.number())
}

// What a call that writes bytes answers, as one number.
fn status(written: Result<usize, Refusal>) -> i64
    requires { Short (answered written) }
    ensures { result ≡ length_status (answered written) }
{
    match written {
        Ok(n) => n as i64,
        Err(no) => refusal(no),
    }
}

// What a call that names a record answers, as one number.
fn name_status(named: Result<u32, Refusal>) -> i64
    ensures { result ≡ record_status (answered named) }
{
    match named {
        Ok(n) => i64::from(n),
        Err(no) => refusal(no),
    }
}

// What a call that tells only that it was taken answers, as one number.
fn taken_status(taken: Result<(), Refusal>) -> i64
    ensures { result ≡ taken_status taken }
{
    match taken {
        Ok(()) => 0,
        Err(no) => refusal(no),
    }
}

// One figure, stored.
fn put_figure(z: i64, figure: &mut [i64; 1]) -> i64
    ensures { (result ≡ pos 0) × (figure.new ≡ figure_after (granted z) figure.old) }
{
    *figure = [z];
    0
}

// What a call that gives a figure answers: 0 and the figure stored, or minus the refusal and the buffer as it was.
fn figure_status(found: Result<i64, Refusal>, figure: &mut [i64; 1]) -> i64
    ensures answer { result ≡ status_of (answered found) }
    ensures buffer { figure.new ≡ figure_after (answered found) figure.old }
{
    match found {
        Ok(z) => put_figure(z, figure),
        Err(no) => refusal(no),
    }
}

// The four figures, stored in their order.
fn put_figures(f: Figures, figures: &mut [i64; 4]) -> i64
    ensures { (result ≡ pos 0) × (figures.new ≡ figures_after (granted f) figures.old) }
{
    *figures = [f.net, f.heaviest, f.eaten, f.stamp];
    0
}

// The figure, the joins and the levels of the work along a plan, stored in their order.
fn put_totals(t: Totals, totals: &mut [i64; 3]) -> i64
    ensures { (result ≡ pos 0) × (totals.new ≡ work_after (granted (work_in t)) totals.old) }
{
    *totals = [t.figure, i64::from(t.joins), i64::from(t.levels)];
    0
}

// Reads the first record of a chunk: 0 and its kind, length, depth, value, floor, ceiling and batch, or -3 and `fields` as it was.
#[unsafe(no_mangle)]
pub extern "C" fn tulghimo_read_record(chunk: &[u8], fields: &mut [i64; 7]) -> i64
    ensures answer { result ≡ status_of (read_of chunk.now) }
    ensures buffer { fields.new ≡ fields_after (read_of chunk.now) fields.old }
{
    let Some(f) = record::read_first(chunk) else {
        return refusal(Refusal::Unreadable);
    };
    *fields = [
        f.kind as i64,
        i64::from(f.length),
        i64::from(f.depth),
        i64::from(f.value),
        i64::from(f.floor),
        i64::from(f.ceiling),
        i64::from(f.batch),
    ];
    0
}

// Summarises a chunk in a mode: the summary's length, or -1, -2, -3 or -12 and `out` as it was.
#[unsafe(no_mangle)]
pub extern "C" fn tulghimo_summarise(chunk: &[u8], mode: u32, out: &mut [u8]) -> i64
    ensures answer { result ≡ length_status (length_answered (summarise_outcome chunk.now mode (length out.old))) }
    ensures buffer { out.new ≡ buffer_after (summarise_outcome chunk.now mode (length out.old)) out.old }
{
    let summary = summarise::summarise(chunk, mode, out);
    status(summary)
}

// Merges two summaries: the length of theirs, or -5, -6 or -12 and `out` as it was.
#[unsafe(no_mangle)]
pub extern "C" fn tulghimo_merge(left: &[u8], right: &[u8], out: &mut [u8]) -> i64
    ensures answer { result ≡ length_status (length_answered (merge_outcome left.now right.now (length out.old))) }
    ensures buffer { out.new ≡ buffer_after (merge_outcome left.now right.now (length out.old)) out.old }
{
    status(merge::merge(left, right, out))
}

// Merges a row, its summaries end to end: the length of theirs, or -4, -5, -6 or -12 and `out` as it was.
#[unsafe(no_mangle)]
pub extern "C" fn tulghimo_merge_row(row: &[u8], out: &mut [u8]) -> i64
    ensures answer { result ≡ length_status (length_answered (merge_row_outcome row.now (length out.old))) }
    ensures buffer { out.new ≡ buffer_after (merge_row_outcome row.now (length out.old)) out.old }
{
    let merged = merge_row::merge_row(row, out);
    status(merged)
}

// Finishes one summary: 0 and its figure, or minus the refusal and `figure` as it was.
#[unsafe(no_mangle)]
pub extern "C" fn tulghimo_finish(summary: &[u8], figure: &mut [i64; 1]) -> i64
    ensures answer { result ≡ status_of (finish_outcome summary.now) }
    ensures buffer { figure.new ≡ figure_after (finish_outcome summary.now) figure.old }
{
    let d = finish::finish(summary);
    figure_status(d, figure)
}

// The plan of a row: the length of its lines, or -4 to -12 and `out` as it was.
#[unsafe(no_mangle)]
pub extern "C" fn tulghimo_plan(row: &[u8], out: &mut [u8]) -> i64
    ensures answer { result ≡ length_status (length_answered (plan_outcome row.now (length out.old))) }
    ensures buffer { out.new ≡ buffer_after (plan_outcome row.now (length out.old)) out.old }
{
    let lines = plan::plan(row, out);
    status(lines)
}

// The runs of a row's plan, one for each line: their length, or -4 to -12 and `out` as it was.
#[unsafe(no_mangle)]
pub extern "C" fn tulghimo_runs(row: &[u8], out: &mut [u8]) -> i64
    ensures answer { result ≡ length_status (length_answered (runs_outcome row.now (length out.old))) }
    ensures buffer { out.new ≡ buffer_after (runs_outcome row.now (length out.old)) out.old }
{
    let written = runs::runs(row, out);
    status(written)
}

// The work along a row's plan: 0 and the figure, the joins used and the levels folded, or minus the refusal and `totals` as it was.
#[unsafe(no_mangle)]
pub extern "C" fn tulghimo_work(row: &[u8], totals: &mut [i64; 3]) -> i64
    ensures answer { result ≡ status_of (work_outcome row.now) }
    ensures buffer { totals.new ≡ work_after (work_outcome row.now) totals.old }
{
    match work::work(row) {
        Ok(t) => put_totals(t, totals),
        Err(no) => refusal(no),
    }
}

// The figures of a whole log: 0 and net, heaviest, eaten and stamp, or minus the refusal and `figures` as it was.
#[unsafe(no_mangle)]
pub extern "C" fn tulghimo_day(log: &[u8], figures: &mut [i64; 4]) -> i64
    ensures answer { result ≡ status_of (day_outcome log.now) }
    ensures buffer { figures.new ≡ figures_after (day_outcome log.now) figures.old }
{
    match day::figures(log) {
        Ok(f) => put_figures(f, figures),
        Err(no) => refusal(no),
    }
}

// The log written from a day table: its length, or -2, -3, -13, -10 or -12 and `out` as it was.
#[unsafe(no_mangle)]
pub extern "C" fn tulghimo_write_log(table: &[u8], out: &mut [u8]) -> i64
    ensures answer { result ≡ length_status (length_answered (write_log_outcome table.now (length out.old))) }
    ensures buffer { out.new ≡ buffer_after (write_log_outcome table.now (length out.old)) out.old }
{
    let log = table::write_log(table, out);
    status(log)
}

// The day table of a whole log: its length, or -2, -3, -7 to -11 or -12 and `out` as it was.
#[unsafe(no_mangle)]
pub extern "C" fn tulghimo_read_table(log: &[u8], out: &mut [u8]) -> i64
    ensures answer { result ≡ length_status (length_answered (read_table_outcome log.now (length out.old))) }
    ensures buffer { out.new ≡ buffer_after (read_table_outcome log.now (length out.old)) out.old }
{
    let table = table::read_table(log, out);
    status(table)
}

// All small days with n opened records, one log after another: their length, or -14 or -12 and `out` as it was.
#[unsafe(no_mangle)]
pub extern "C" fn tulghimo_small_days(n: u32, out: &mut [u8]) -> i64
    ensures answer { result ≡ length_status (length_answered (small_days_outcome n (length out.old))) }
    ensures buffer { out.new ≡ buffer_after (small_days_outcome n (length out.old)) out.old }
{
    let logs = small_days::small_days(n, out);
    status(logs)
}

// Backwards through a run, from the outer figure y: 0 and the one inner figure that leads to it, or -15, -16 or -17 and `x` as it was.
#[unsafe(no_mangle)]
pub extern "C" fn tulghimo_backwards(run: &[u8], y: i64, x: &mut [i64; 1]) -> i64
    ensures answer { result ≡ status_of (backwards_outcome run.now y) }
    ensures buffer { x.new ≡ figure_after (backwards_outcome run.now y) x.old }
{
    let d = backwards::backwards(run, y);
    figure_status(d, x)
}

// The records behind the heaviest line of a whole log, by their numbers: the bytes written, or -2, -3, -7 to -11 or -12 and `out` as it was.
#[unsafe(no_mangle)]
pub extern "C" fn tulghimo_heaviest_line(log: &[u8], out: &mut [u8]) -> i64
    ensures answer { result ≡ length_status (length_answered (heaviest_line_outcome log.now (length out.old))) }
    ensures buffer { out.new ≡ buffer_after (heaviest_line_outcome log.now (length out.old)) out.old }
{
    let numbers = heaviest_line::heaviest_line(log, out);
    status(numbers)
}

// A page of the sheet with a figure for every record of a whole log: the bytes written, or -1, -2, -3, -7 to -11, -18 or -12 and `out` as it was.
#[unsafe(no_mangle)]
pub extern "C" fn tulghimo_sheet(log: &[u8], mode: u32, page: u32, out: &mut [u8]) -> i64
    ensures answer { result ≡ length_status (length_answered (sheet_outcome log.now mode page (length out.old))) }
    ensures buffer { out.new ≡ buffer_after (sheet_outcome log.now mode page (length out.old)) out.old }
{
    let printed = sheet::sheet(log, mode, page, out);
    status(printed)
}

// The record that records a and b of a whole log have in common: its number, or -2, -3, -7 to -11 or -19.
#[unsafe(no_mangle)]
pub extern "C" fn tulghimo_common(log: &[u8], a: u32, b: u32) -> i64
    ensures { result ≡ record_status (common_outcome log.now a b) }
{
    let named = common::common(log, a, b);
    name_status(named)
}

// A valley station's state, made fresh in a mode: 0, or -1 and `state` as it was.
#[unsafe(no_mangle)]
pub extern "C" fn tulghimo_farms_fresh(mode: u32, state: &mut [u8; 14304]) -> i64
    ensures answer { result ≡ status_of (fresh_outcome mode) }
    ensures state { state.new ≡ fresh_after state.old mode }
{
    let started = farms::fresh(mode, state);
    taken_status(started)
}

// A summary sent for a farm of the station: 0, or -20, -5, -6 or -21 and `state` as it was.
#[unsafe(no_mangle)]
pub extern "C" fn tulghimo_farms_send(state: &mut [u8; 14304], farm: u32, summary: &[u8]) -> i64
    ensures answer { result ≡ status_of (send_outcome (station_of state.old) farm summary.now) }
    ensures state { state.new ≡ send_after state.old farm summary.now }
{
    let taken = farms::send(state, farm, summary);
    taken_status(taken)
}

// The end of a farm's day: the length of its summary, or -20, -5 or -12 and both `state` and `out` as they were.
#[unsafe(no_mangle)]
pub extern "C" fn tulghimo_farms_end_of_day(
    state: &mut [u8; 14304],
    farm: u32,
    out: &mut [u8],
) -> i64
    ensures answer { result ≡ length_status (length_answered (end_outcome (station_of state.old) farm (length out.old))) }
    ensures buffer { out.new ≡ buffer_after (end_outcome (station_of state.old) farm (length out.old)) out.old }
    ensures state { state.new ≡ end_after state.old farm (length out.old) }
{
    let handed = farms::end_of_day(state, farm, out);
    status(handed)
}
