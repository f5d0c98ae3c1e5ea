// The exported functions (include/vulcedar.h) as one static library: each calls the function of its name in a crate *_exports, and states its
// clauses again. Nothing else.
#![tactic(auto)]

ghost use Rattle.std.specs.Prelude.{◌≡◌, ◌-◌};
ghost use Rattle.plan.specs.Check.{check_number};
ghost use Rattle.checker.specs.Depths.{depths_of};
ghost use Rattle.pass.specs.Pass.{pass_into};
ghost use Rattle.reach.specs.Impact.{impact_into};
ghost use Rattle.way.specs.Way.{way_into};
ghost use Rattle.retention.specs.Record.{table_number};
ghost use Rattle.pass_record.specs.PassRecord.{pass_record_into};
ghost use Rattle.simulation.specs.Run.{record_by_into, record_into, simulate_of};
ghost use Rattle.results.specs.Result.{result_of, of_made, of_written, of_found_rule, of_verdict, of_ruling, of_text, AsKept, AsUndone, AsNamed, AsReturned};
ghost use Rattle.plan_exports.specs.Version.{version};
ghost use Rattle.rewrite.specs.Rewrite.{rewrite_of};
ghost use Rattle.trees.specs.Renumber.{renumber_of};
ghost use Rattle.depth_form.specs.Calls.{to_depths_of, from_depths_of};
ghost use Rattle.template.specs.Call.{repeat_of};
ghost use Rattle.small_plans.specs.Call.{next_of};
ghost use Rattle.guard.specs.Rule.{rule_answer};
ghost use Rattle.writer.specs.Written.{write_of};
ghost use Rattle.site.specs.Step.{step_of, hear_of};
ghost use Rattle.central.specs.Rule.{rule_of};
ghost use Rattle.script.specs.Script.{run_text_into};
ghost use Rattle.workload.specs.Call.{load_of};
ghost use Rattle.keeping.specs.Keeping.{keep_own, undo_own};
ghost use Rattle.points.specs.Points.{name_of};
ghost use Rattle.rewind.specs.Return.{point_undo_own, point_back_own};
ghost use Rattle.desks.specs.Desk.{desk_check};
ghost use Rattle.desks.specs.Calls.{desk_step_of, desk_simulate_of, desk_keep_of, desk_undo_of, desk_point_undo_of, desk_point_back_of, desk_record_into, desk_record_by_into};

use journal::Entry;

#[unsafe(no_mangle)]
pub extern "C" fn vulcedar_version() -> u32
    ensures { result ≡ version }
{
    plan_exports::vulcedar_version()
}

#[unsafe(no_mangle)]
pub extern "C" fn vulcedar_check(plan: &[u8]) -> u32
    ensures { result ≡ result_of (check_number plan.now) 0 0 }
{
    plan_exports::vulcedar_check(plan)
}

#[unsafe(no_mangle)]
pub extern "C" fn vulcedar_check_depths(plan: &[u8], depths: &mut [u8]) -> u32
    ensures value { result ≡ result_of (depths_of plan.now depths.old).number 0 0 }
    ensures depths_after { depths.new ≡ (depths_of plan.now depths.old).depths }
{
    plan_exports::vulcedar_check_depths(plan, depths)
}

#[unsafe(no_mangle)]
pub extern "C" fn vulcedar_check_table(table: &[u8]) -> u32
    ensures { result ≡ result_of (table_number table.now) 0 0 }
{
    plan_exports::vulcedar_check_table(table)
}

#[unsafe(no_mangle)]
pub extern "C" fn vulcedar_pass(plan: &[u8], answers: &[u8], marks: &mut [u8]) -> u32
    ensures value { result ≡ result_of (pass_into plan.now answers.now marks.old).number 0 0 }
    ensures marks_after { marks.new ≡ (pass_into plan.now answers.now marks.old).marks }
{
    plan_exports::vulcedar_pass(plan, answers, marks)
}

#[unsafe(no_mangle)]
pub extern "C" fn vulcedar_pass_record(
    plan: &[u8],
    table: &[u8],
    answers: &[u8],
    marks: &mut [u8],
    classes: &mut [u8],
) -> u32
    ensures value { result ≡ result_of (pass_record_into plan.now table.now answers.now marks.old classes.old).number 0 0 }
    ensures marks_after { marks.new ≡ (pass_record_into plan.now table.now answers.now marks.old classes.old).marks }
    ensures classes_after { classes.new ≡ (pass_record_into plan.now table.now answers.now marks.old classes.old).classes }
{
    plan_exports::vulcedar_pass_record(plan, table, answers, marks, classes)
}

#[unsafe(no_mangle)]
pub extern "C" fn vulcedar_record(
    plan: &[u8],
    state: &[u8],
    marks: &mut [u8],
    classes: &mut [u8],
) -> u32
    ensures value { result ≡ result_of (record_into plan.now state.now marks.old classes.old).number 0 0 }
    ensures marks_after { marks.new ≡ (record_into plan.now state.now marks.old classes.old).marks }
    ensures classes_after { classes.new ≡ (record_into plan.now state.now marks.old classes.old).classes }
{
    plan_exports::vulcedar_record(plan, state, marks, classes)
}

#[unsafe(no_mangle)]
pub extern "C" fn vulcedar_record_by(
    plan: &[u8],
    tab: &[u8],
    state: &[u8],
    marks: &mut [u8],
    classes: &mut [u8],
) -> u32
    ensures value { result ≡ result_of (record_by_into plan.now tab.now state.now marks.old classes.old).number 0 0 }
    ensures marks_after { marks.new ≡ (record_by_into plan.now tab.now state.now marks.old classes.old).marks }
    ensures classes_after { classes.new ≡ (record_by_into plan.now tab.now state.now marks.old classes.old).classes }
{
    plan_exports::vulcedar_record_by(plan, tab, state, marks, classes)
}

#[unsafe(no_mangle)]
pub extern "C" fn vulcedar_impact(
    plan: &[u8],
    answers: &[u8],
    marks: &mut [u8],
    task: u32,
    answer: u32,
) -> u32
    ensures value { result ≡ result_of (impact_into plan.now answers.now marks.old task answer).number 0 0 }
    ensures marks_after { marks.new ≡ (impact_into plan.now answers.now marks.old task answer).marks }
{
    plan_exports::vulcedar_impact(plan, answers, marks, task, answer)
}

#[unsafe(no_mangle)]
pub extern "C" fn vulcedar_way(
    plan: &[u8],
    node: u32,
    mark: u32,
    end: u32,
    answers: &mut [u8],
) -> u32
    ensures value { result ≡ result_of (way_into plan.now node mark end answers.old).number 0 0 }
    ensures answers_after { answers.new ≡ (way_into plan.now node mark end answers.old).answers }
{
    plan_exports::vulcedar_way(plan, node, mark, end, answers)
}

#[unsafe(no_mangle)]
pub extern "C" fn vulcedar_rewrite(plan: &[u8], out: &mut [u8]) -> u32
    ensures value { result ≡ result_of (rewrite_of plan.now out.old).number 0 0 }
    ensures out_after { out.new ≡ (rewrite_of plan.now out.old).out }
{
    form_exports::vulcedar_rewrite(plan, out)
}

#[unsafe(no_mangle)]
pub extern "C" fn vulcedar_renumber(plan: &[u8], out: &mut [u8]) -> u32
    ensures value { result ≡ result_of (renumber_of plan.now out.old).number 0 0 }
    ensures out_after { out.new ≡ (renumber_of plan.now out.old).out }
{
    form_exports::vulcedar_renumber(plan, out)
}

#[unsafe(no_mangle)]
pub extern "C" fn vulcedar_to_depths(plan: &[u8], out: &mut [u8]) -> u32
    ensures value { result ≡ result_of (to_depths_of plan.now out.old).number 0 0 }
    ensures out_after { out.new ≡ (to_depths_of plan.now out.old).out }
{
    form_exports::vulcedar_to_depths(plan, out)
}

#[unsafe(no_mangle)]
pub extern "C" fn vulcedar_from_depths(depths: &[u8], out: &mut [u8]) -> u32
    ensures value { result ≡ result_of (from_depths_of depths.now out.old).number 0 0 }
    ensures out_after { out.new ≡ (from_depths_of depths.now out.old).out }
{
    form_exports::vulcedar_from_depths(depths, out)
}

#[unsafe(no_mangle)]
pub extern "C" fn vulcedar_repeat(plan: &[u8], node: u32, count: u32, out: &mut [u8]) -> u32
    ensures value { result ≡ of_made (repeat_of plan.now node count out.old) }
    ensures out_after { out.new ≡ (repeat_of plan.now node count out.old).out }
{
    form_exports::vulcedar_repeat(plan, node, count, out)
}

#[unsafe(no_mangle)]
pub extern "C" fn vulcedar_next_plan(plan: &[u8], out: &mut [u8]) -> u32
    ensures value { result ≡ of_made (next_of plan.now out.old) }
    ensures out_after { out.new ≡ (next_of plan.now out.old).out }
{
    form_exports::vulcedar_next_plan(plan, out)
}

#[unsafe(no_mangle)]
pub extern "C" fn vulcedar_guard(plan: &[u8], code: u32, node: u32, buf: &mut [u8]) -> u32
    ensures value { result ≡ of_written (write_of plan.now code node buf.old).answer }
    ensures buf_after { buf.new ≡ (write_of plan.now code node buf.old).buffer }
{
    site_exports::vulcedar_guard(plan, code, node, buf)
}

#[unsafe(no_mangle)]
pub extern "C" fn vulcedar_rule(plan: &[u8], code: u32, node: u32) -> u32
    ensures { result ≡ of_found_rule (rule_answer plan.now code node) }
{
    site_exports::vulcedar_rule(plan, code, node)
}

#[unsafe(no_mangle)]
pub extern "C" fn vulcedar_step(plan: &[u8], code: u32, node: u32, row: &mut [u8]) -> u32
    ensures value { result ≡ of_verdict (step_of plan.now code node row.old).verdict }
    ensures row_after { row.new ≡ (step_of plan.now code node row.old).row }
{
    site_exports::vulcedar_step(plan, code, node, row)
}

#[unsafe(no_mangle)]
pub extern "C" fn vulcedar_hear(plan: &[u8], code: u32, node: u32, row: &mut [u8]) -> u32
    ensures value { result ≡ of_verdict (hear_of plan.now code node row.old).verdict }
    ensures row_after { row.new ≡ (hear_of plan.now code node row.old).row }
{
    site_exports::vulcedar_hear(plan, code, node, row)
}

#[unsafe(no_mangle)]
pub extern "C" fn vulcedar_central(
    plan: &[u8],
    code: u32,
    node: u32,
    marks: &mut [u8],
    notes: &mut [u8],
) -> u32
    ensures value { result ≡ of_ruling (rule_of plan.now code node marks.old notes.old).ruling }
    ensures marks_after { marks.new ≡ (rule_of plan.now code node marks.old notes.old).marks }
    ensures notes_after { notes.new ≡ (rule_of plan.now code node marks.old notes.old).notes }
{
    site_exports::vulcedar_central(plan, code, node, marks, notes)
}

#[unsafe(no_mangle)]
pub extern "C" fn vulcedar_simulate(
    plan: &[u8],
    code: u32,
    node: u32,
    site: u32,
    state: &mut [u8],
) -> u32
    ensures value { result ≡ of_verdict (simulate_of plan.now code node site state.old).verdict }
    ensures state_after { state.new ≡ (simulate_of plan.now code node site state.old).state }
{
    simulation_exports::vulcedar_simulate(plan, code, node, site, state)
}

#[unsafe(no_mangle)]
pub extern "C" fn vulcedar_keep(
    plan: &[u8],
    code: u32,
    node: u32,
    site: u32,
    state: &mut [u8],
    entries: &mut [Entry],
    count: &mut usize,
) -> u32
    ensures { AsKept (keep_own plan.now state.old entries.old count.old code node site) result state.new entries.new count.new }
{
    simulation_exports::vulcedar_keep(plan, code, node, site, state, entries, count)
}

#[unsafe(no_mangle)]
pub extern "C" fn vulcedar_undo(
    plan: &[u8],
    state: &mut [u8],
    entries: &[Entry],
    count: &mut usize,
) -> u32
    ensures { AsUndone (undo_own plan.now state.old entries.now count.old) result state.new count.new }
{
    simulation_exports::vulcedar_undo(plan, state, entries, count)
}

#[unsafe(no_mangle)]
pub extern "C" fn vulcedar_point_name(
    name: &[u8],
    count: usize,
    names: &mut [u8],
    places: &mut [u64],
) -> u32
    ensures { AsNamed (name_of name.now count names.old places.old) result names.new places.new }
{
    simulation_exports::vulcedar_point_name(name, count, names, places)
}

#[unsafe(no_mangle)]
pub extern "C" fn vulcedar_point_undo(
    plan: &[u8],
    state: &mut [u8],
    entries: &[Entry],
    count: &mut usize,
    names: &mut [u8],
    places: &mut [u64],
) -> u32
    ensures { AsReturned (point_undo_own plan.now state.old entries.now count.old names.old places.old) result state.new count.new names.new places.new }
{
    simulation_exports::vulcedar_point_undo(plan, state, entries, count, names, places)
}

#[unsafe(no_mangle)]
pub extern "C" fn vulcedar_point_back(
    plan: &[u8],
    name: &[u8],
    state: &mut [u8],
    entries: &[Entry],
    count: &mut usize,
    names: &mut [u8],
    places: &mut [u64],
) -> u32
    ensures { AsReturned (point_back_own plan.now name.now state.old entries.now count.old names.old places.old) result state.new count.new names.new places.new }
{
    simulation_exports::vulcedar_point_back(plan, name, state, entries, count, names, places)
}

#[unsafe(no_mangle)]
pub extern "C" fn vulcedar_rehearse(text: &[u8], out: &mut [u8]) -> u32
    ensures value { result ≡ of_text (run_text_into text.now out.old).result }
    ensures out_after { out.new ≡ (run_text_into text.now out.old).out }
{
    simulation_exports::vulcedar_rehearse(text, out)
}

#[unsafe(no_mangle)]
pub extern "C" fn vulcedar_workload(plan: &[u8], seed: u32, count: u32, out: &mut [u8]) -> u32
    ensures value { result ≡ result_of (load_of plan.now seed count out.old).number 0 0 }
    ensures out_after { out.new ≡ (load_of plan.now seed count out.old).out }
{
    simulation_exports::vulcedar_workload(plan, seed, count, out)
}

#[unsafe(no_mangle)]
pub extern "C" fn vulcedar_desk_check(plan: &[u8]) -> u32
    ensures { result ≡ result_of (desk_check plan.now) 0 0 }
{
    desk_exports::vulcedar_desk_check(plan)
}

#[unsafe(no_mangle)]
pub extern "C" fn vulcedar_desk_step(plan: &[u8], code: u32, node: u32, row: &mut [u8]) -> u32
    ensures value { result ≡ of_verdict (desk_step_of plan.now code node row.old).verdict }
    ensures row_after { row.new ≡ (desk_step_of plan.now code node row.old).row }
{
    desk_exports::vulcedar_desk_step(plan, code, node, row)
}

#[unsafe(no_mangle)]
pub extern "C" fn vulcedar_desk_simulate(
    plan: &[u8],
    code: u32,
    node: u32,
    desk: u32,
    state: &mut [u8],
) -> u32
    ensures value { result ≡ of_verdict (desk_simulate_of plan.now code node desk state.old).verdict }
    ensures state_after { state.new ≡ (desk_simulate_of plan.now code node desk state.old).state }
{
    desk_exports::vulcedar_desk_simulate(plan, code, node, desk, state)
}

#[unsafe(no_mangle)]
pub extern "C" fn vulcedar_desk_keep(
    plan: &[u8],
    code: u32,
    node: u32,
    desk: u32,
    state: &mut [u8],
    entries: &mut [Entry],
    count: &mut usize,
) -> u32
    ensures { AsKept (desk_keep_of plan.now state.old entries.old count.old code node desk) result state.new entries.new count.new }
{
    desk_exports::vulcedar_desk_keep(plan, code, node, desk, state, entries, count)
}

#[unsafe(no_mangle)]
pub extern "C" fn vulcedar_desk_undo(
    plan: &[u8],
    state: &mut [u8],
    entries: &[Entry],
    count: &mut usize,
) -> u32
    ensures { AsUndone (desk_undo_of plan.now state.old entries.now count.old) result state.new count.new }
{
    desk_exports::vulcedar_desk_undo(plan, state, entries, count)
}

#[unsafe(no_mangle)]
pub extern "C" fn vulcedar_desk_point_undo(
    plan: &[u8],
    state: &mut [u8],
    entries: &[Entry],
    count: &mut usize,
    names: &mut [u8],
    places: &mut [u64],
) -> u32
    ensures { AsReturned (desk_point_undo_of plan.now state.old entries.now count.old names.old places.old) result state.new count.new names.new places.new }
{
    desk_exports::vulcedar_desk_point_undo(plan, state, entries, count, names, places)
}

#[unsafe(no_mangle)]
pub extern "C" fn vulcedar_desk_point_back(
    plan: &[u8],
    name: &[u8],
    state: &mut [u8],
    entries: &[Entry],
    count: &mut usize,
    names: &mut [u8],
    places: &mut [u64],
) -> u32
    ensures { AsReturned (desk_point_back_of plan.now name.now state.old entries.now count.old names.old places.old) result state.new count.new names.new places.new }
{
    desk_exports::vulcedar_desk_point_back(plan, name, state, entries, count, names, places)
}

#[unsafe(no_mangle)]
pub extern "C" fn vulcedar_desk_record(
    plan: &[u8],
    state: &[u8],
    marks: &mut [u8],
    classes: &mut [u8],
) -> u32
    ensures value { result ≡ result_of (desk_record_into plan.now state.now marks.old classes.old).number 0 0 }
    ensures marks_after { marks.new ≡ (desk_record_into plan.now state.now marks.old classes.old).marks }
    ensures classes_after { classes.new ≡ (desk_record_into plan.now state.now marks.old classes.old).classes }
{
    desk_exports::vulcedar_desk_record(plan, state, marks, classes)
}

#[unsafe(no_mangle)]
pub extern "C" fn vulcedar_desk_record_by(
    plan: &[u8],
    tab: &[u8],
    state: &[u8],
    marks: &mut [u8],
    classes: &mut [u8],
) -> u32
    ensures value { result ≡ result_of (desk_record_by_into plan.now tab.now state.now marks.old classes.old).number 0 0 }
    ensures marks_after { marks.new ≡ (desk_record_by_into plan.now tab.now state.now marks.old classes.old).marks }
    ensures classes_after { classes.new ≡ (desk_record_by_into plan.now tab.now state.now marks.old classes.old).classes }
{
    desk_exports::vulcedar_desk_record_by(plan, tab, state, marks, classes)
}
