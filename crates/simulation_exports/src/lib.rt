// Exported functions (include/vulcedar.h): a simulation, its journal with named points, one that is run from a text, and a test load.
// Nothing else: numbers are 32 bits wide and are not cut, a slice is a pointer and a length, and every length is tested inside. What a result
// holds is the crate results's.
#![tactic(auto)]

ghost use Rattle.std.specs.Prelude.{◌≡◌};
ghost use Rattle.simulation.specs.Run.{simulate_of};
ghost use Rattle.script.specs.Script.{run_text_into};
ghost use Rattle.workload.specs.Call.{load_of};
ghost use Rattle.keeping.specs.Keeping.{keep_own, undo_own};
ghost use Rattle.points.specs.Points.{name_of};
ghost use Rattle.rewind.specs.Return.{point_undo_own, point_back_own};
ghost use Rattle.results.specs.Result.{result_of, of_verdict, of_text, AsKept, AsUndone, AsNamed, AsReturned};

use journal::Entry;

#[unsafe(no_mangle)]
pub extern "C" fn vulcedar_simulate(
    plan: &[u8],
    code: u32,
    node: u32,
    site: u32,
    state: &mut [u8],
) -> u32
    ensures value { result ≡ of_verdict (simulate_of plan.now code node site state.old).verdict }
    ensures state_after { state.new ≡ (simulate_of plan.now code node site state.old).state }
{
    results::of_verdict(simulation::simulate(plan, code, node, site, state))
}

#[unsafe(no_mangle)]
pub extern "C" fn vulcedar_keep(
    plan: &[u8],
    code: u32,
    node: u32,
    site: u32,
    state: &mut [u8],
    entries: &mut [Entry],
    count: &mut usize,
) -> u32
    ensures { AsKept (keep_own plan.now state.old entries.old count.old code node site) result state.new entries.new count.new }
{
    let len = entries.len();
    let a = keeping::keep(plan, code, node, site, state, len, count);
    journal::append(entries, a.at, a.entry);
    results::of_verdict(a.verdict)
}

#[unsafe(no_mangle)]
pub extern "C" fn vulcedar_undo(
    plan: &[u8],
    state: &mut [u8],
    entries: &[Entry],
    count: &mut usize,
) -> u32
    ensures { AsUndone (undo_own plan.now state.old entries.now count.old) result state.new count.new }
{
    let len = entries.len();
    let e = journal::entry_at(entries, journal::last_place(*count));
    results::of_done(keeping::undo(plan, state, len, count, e))
}

#[unsafe(no_mangle)]
pub extern "C" fn vulcedar_point_name(
    name: &[u8],
    count: usize,
    names: &mut [u8],
    places: &mut [u64],
) -> u32
    ensures { AsNamed (name_of name.now count names.old places.old) result names.new places.new }
{
    results::of_done(points::name_point(name, count, names, places))
}

#[unsafe(no_mangle)]
pub extern "C" fn vulcedar_point_undo(
    plan: &[u8],
    state: &mut [u8],
    entries: &[Entry],
    count: &mut usize,
    names: &mut [u8],
    places: &mut [u64],
) -> u32
    ensures { AsReturned (point_undo_own plan.now state.old entries.now count.old names.old places.old) result state.new count.new names.new places.new }
{
    results::of_done(rewind::point_undo(plan, state, entries, count, names, places))
}

#[unsafe(no_mangle)]
pub extern "C" fn vulcedar_point_back(
    plan: &[u8],
    name: &[u8],
    state: &mut [u8],
    entries: &[Entry],
    count: &mut usize,
    names: &mut [u8],
    places: &mut [u64],
) -> u32
    ensures { AsReturned (point_back_own plan.now name.now state.old entries.now count.old names.old places.old) result state.new count.new names.new places.new }
{
    results::of_done(rewind::point_back(plan, name, state, entries, count, names, places))
}

#[unsafe(no_mangle)]
pub extern "C" fn vulcedar_rehearse(text: &[u8], out: &mut [u8]) -> u32
    ensures value { result ≡ of_text (run_text_into text.now out.old).result }
    ensures out_after { out.new ≡ (run_text_into text.now out.old).out }
{
    match script::run_text(text, out) {
        Ok(length) => 65536 * (length as u32),
        Err(fault) => results::of_fault(fault),
    }
}

#[unsafe(no_mangle)]
pub extern "C" fn vulcedar_workload(plan: &[u8], seed: u32, count: u32, out: &mut [u8]) -> u32
    ensures value { result ≡ result_of (load_of plan.now seed count out.old).number 0 0 }
    ensures out_after { out.new ≡ (load_of plan.now seed count out.old).out }
{
    results::of_done(workload::workload(plan, seed, count, out))
}
