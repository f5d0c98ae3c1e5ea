// Exported functions (include/vulcedar.h): a plan's check, its single pass and its records, one answer changed, a way, and the version.
// Nothing else: numbers are 32 bits wide and are not cut, a slice is a pointer and a length, and every length is tested inside. What a result
// holds is the crate results's.
#![tactic(auto)]

ghost use Rattle.std.specs.Prelude.{◌≡◌};
ghost use Rattle.plan.specs.Check.{check_number};
ghost use Rattle.checker.specs.Depths.{depths_of};
ghost use Rattle.pass.specs.Pass.{pass_into};
ghost use Rattle.reach.specs.Impact.{impact_into};
ghost use Rattle.way.specs.Way.{way_into};
ghost use Rattle.retention.specs.Record.{table_number};
ghost use Rattle.pass_record.specs.PassRecord.{pass_record_into};
ghost use Rattle.simulation.specs.Run.{record_by_into, record_into};
ghost use Rattle.results.specs.Result.{result_of};
ghost use Rattle.plan_exports.specs.Version.{version};

#[unsafe(no_mangle)]
pub extern "C" fn vulcedar_version() -> u32
    ensures { result ≡ version }
{
    67840
}

#[unsafe(no_mangle)]
pub extern "C" fn vulcedar_check(plan: &[u8]) -> u32
    ensures { result ≡ result_of (check_number plan.now) 0 0 }
{
    results::of_done(checker::check(plan))
}

#[unsafe(no_mangle)]
pub extern "C" fn vulcedar_check_depths(plan: &[u8], depths: &mut [u8]) -> u32
    ensures value { result ≡ result_of (depths_of plan.now depths.old).number 0 0 }
    ensures depths_after { depths.new ≡ (depths_of plan.now depths.old).depths }
{
    results::of_done(checker::check_depths(plan, depths))
}

#[unsafe(no_mangle)]
pub extern "C" fn vulcedar_check_table(table: &[u8]) -> u32
    ensures { result ≡ result_of (table_number table.now) 0 0 }
{
    results::of_done(retention::check_table(table))
}

#[unsafe(no_mangle)]
pub extern "C" fn vulcedar_pass(plan: &[u8], answers: &[u8], marks: &mut [u8]) -> u32
    ensures value { result ≡ result_of (pass_into plan.now answers.now marks.old).number 0 0 }
    ensures marks_after { marks.new ≡ (pass_into plan.now answers.now marks.old).marks }
{
    results::of_done(pass::pass(plan, answers, marks))
}

#[unsafe(no_mangle)]
pub extern "C" fn vulcedar_pass_record(
    plan: &[u8],
    table: &[u8],
    answers: &[u8],
    marks: &mut [u8],
    classes: &mut [u8],
) -> u32
    ensures value { result ≡ result_of (pass_record_into plan.now table.now answers.now marks.old classes.old).number 0 0 }
    ensures marks_after { marks.new ≡ (pass_record_into plan.now table.now answers.now marks.old classes.old).marks }
    ensures classes_after { classes.new ≡ (pass_record_into plan.now table.now answers.now marks.old classes.old).classes }
{
    let answer = pass_record::pass_record(plan, table, answers, marks, classes);
    results::of_done(answer)
}

#[unsafe(no_mangle)]
pub extern "C" fn vulcedar_record(
    plan: &[u8],
    state: &[u8],
    marks: &mut [u8],
    classes: &mut [u8],
) -> u32
    ensures value { result ≡ result_of (record_into plan.now state.now marks.old classes.old).number 0 0 }
    ensures marks_after { marks.new ≡ (record_into plan.now state.now marks.old classes.old).marks }
    ensures classes_after { classes.new ≡ (record_into plan.now state.now marks.old classes.old).classes }
{
    results::of_done(simulation::record(plan, state, marks, classes))
}

#[unsafe(no_mangle)]
pub extern "C" fn vulcedar_record_by(
    plan: &[u8],
    tab: &[u8],
    state: &[u8],
    marks: &mut [u8],
    classes: &mut [u8],
) -> u32
    ensures value { result ≡ result_of (record_by_into plan.now tab.now state.now marks.old classes.old).number 0 0 }
    ensures marks_after { marks.new ≡ (record_by_into plan.now tab.now state.now marks.old classes.old).marks }
    ensures classes_after { classes.new ≡ (record_by_into plan.now tab.now state.now marks.old classes.old).classes }
{
    results::of_done(simulation::record_by(plan, tab, state, marks, classes))
}

#[unsafe(no_mangle)]
pub extern "C" fn vulcedar_impact(
    plan: &[u8],
    answers: &[u8],
    marks: &mut [u8],
    task: u32,
    answer: u32,
) -> u32
    ensures value { result ≡ result_of (impact_into plan.now answers.now marks.old task answer).number 0 0 }
    ensures marks_after { marks.new ≡ (impact_into plan.now answers.now marks.old task answer).marks }
{
    results::of_done(impact::impact(plan, answers, marks, task, answer))
}

#[unsafe(no_mangle)]
pub extern "C" fn vulcedar_way(
    plan: &[u8],
    node: u32,
    mark: u32,
    end: u32,
    answers: &mut [u8],
) -> u32
    ensures value { result ≡ result_of (way_into plan.now node mark end answers.old).number 0 0 }
    ensures answers_after { answers.new ≡ (way_into plan.now node mark end answers.old).answers }
{
    results::of_done(find_way::find_way(plan, node, mark, end, answers))
}
