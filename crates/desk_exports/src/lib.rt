// Exported functions (include/vulcedar.h): plans with desks.
// Nothing else: numbers are 32 bits wide and are not cut, a slice is a pointer and a length, and every length is tested inside. What a result
// holds is the crate results's.
#![tactic(auto)]

ghost use Rattle.std.specs.Prelude.{◌≡◌};
ghost use Rattle.desks.specs.Desk.{desk_check};
ghost use Rattle.desks.specs.Calls.{desk_step_of, desk_simulate_of, desk_keep_of, desk_undo_of, desk_point_undo_of, desk_point_back_of, desk_record_into, desk_record_by_into};
ghost use Rattle.results.specs.Result.{result_of, of_verdict, AsKept, AsUndone, AsReturned};

use journal::Entry;

#[unsafe(no_mangle)]
pub extern "C" fn vulcedar_desk_check(plan: &[u8]) -> u32
    ensures { result ≡ result_of (desk_check plan.now) 0 0 }
{
    results::of_done(desk_layout::check(plan))
}

#[unsafe(no_mangle)]
pub extern "C" fn vulcedar_desk_step(plan: &[u8], code: u32, node: u32, row: &mut [u8]) -> u32
    ensures value { result ≡ of_verdict (desk_step_of plan.now code node row.old).verdict }
    ensures row_after { row.new ≡ (desk_step_of plan.now code node row.old).row }
{
    results::of_verdict(desk_calls::step(plan, code, node, row))
}

#[unsafe(no_mangle)]
pub extern "C" fn vulcedar_desk_simulate(
    plan: &[u8],
    code: u32,
    node: u32,
    desk: u32,
    state: &mut [u8],
) -> u32
    ensures value { result ≡ of_verdict (desk_simulate_of plan.now code node desk state.old).verdict }
    ensures state_after { state.new ≡ (desk_simulate_of plan.now code node desk state.old).state }
{
    results::of_verdict(desk_calls::simulate(plan, code, node, desk, state))
}

#[unsafe(no_mangle)]
pub extern "C" fn vulcedar_desk_keep(
    plan: &[u8],
    code: u32,
    node: u32,
    desk: u32,
    state: &mut [u8],
    entries: &mut [Entry],
    count: &mut usize,
) -> u32
    ensures { AsKept (desk_keep_of plan.now state.old entries.old count.old code node desk) result state.new entries.new count.new }
{
    let len = entries.len();
    let kept = desk_calls::keep(plan, code, node, desk, state, len, count);
    journal::append(entries, kept.at, kept.entry);
    results::of_verdict(kept.verdict)
}

#[unsafe(no_mangle)]
pub extern "C" fn vulcedar_desk_undo(
    plan: &[u8],
    state: &mut [u8],
    entries: &[Entry],
    count: &mut usize,
) -> u32
    ensures { AsUndone (desk_undo_of plan.now state.old entries.now count.old) result state.new count.new }
{
    let len = entries.len();
    let e = journal::entry_at(entries, journal::last_place(*count));
    results::of_done(desk_calls::undo(plan, state, len, count, e))
}

#[unsafe(no_mangle)]
pub extern "C" fn vulcedar_desk_point_undo(
    plan: &[u8],
    state: &mut [u8],
    entries: &[Entry],
    count: &mut usize,
    names: &mut [u8],
    places: &mut [u64],
) -> u32
    ensures { AsReturned (desk_point_undo_of plan.now state.old entries.now count.old names.old places.old) result state.new count.new names.new places.new }
{
    results::of_done(desk_calls::point_undo(plan, state, entries, count, names, places))
}

#[unsafe(no_mangle)]
pub extern "C" fn vulcedar_desk_point_back(
    plan: &[u8],
    name: &[u8],
    state: &mut [u8],
    entries: &[Entry],
    count: &mut usize,
    names: &mut [u8],
    places: &mut [u64],
) -> u32
    ensures { AsReturned (desk_point_back_of plan.now name.now state.old entries.now count.old names.old places.old) result state.new count.new names.new places.new }
{
    results::of_done(desk_calls::point_back(plan, name, state, entries, count, names, places))
}

#[unsafe(no_mangle)]
pub extern "C" fn vulcedar_desk_record(
    plan: &[u8],
    state: &[u8],
    marks: &mut [u8],
    classes: &mut [u8],
) -> u32
    ensures value { result ≡ result_of (desk_record_into plan.now state.now marks.old classes.old).number 0 0 }
    ensures marks_after { marks.new ≡ (desk_record_into plan.now state.now marks.old classes.old).marks }
    ensures classes_after { classes.new ≡ (desk_record_into plan.now state.now marks.old classes.old).classes }
{
    results::of_done(desk_calls::record(plan, state, marks, classes))
}

#[unsafe(no_mangle)]
pub extern "C" fn vulcedar_desk_record_by(
    plan: &[u8],
    tab: &[u8],
    state: &[u8],
    marks: &mut [u8],
    classes: &mut [u8],
) -> u32
    ensures value { result ≡ result_of (desk_record_by_into plan.now tab.now state.now marks.old classes.old).number 0 0 }
    ensures marks_after { marks.new ≡ (desk_record_by_into plan.now tab.now state.now marks.old classes.old).marks }
    ensures classes_after { classes.new ≡ (desk_record_by_into plan.now tab.now state.now marks.old classes.old).classes }
{
    results::of_done(desk_calls::record_by(plan, tab, state, marks, classes))
}
