// The calls by their letters, through the functions that C programs call; C has no list of steps, and a text is tried as the program prints it.
ghost use Rattle.std.specs.Prelude.{◌≤◌};

use crate::item;

// How many bytes a text gives to print, as a value: at most 15,483 (text-fits, crates/script/proofs/ScriptLaws.antt), so nothing is cut.
fn printed(n: usize) -> u32 {
    65536 * ((n % 65536) as u32)
}

// A number by its upper and its lower half.
fn joined(high: u32, low: u32) -> u32
    requires { (high ≤ 65535) × (low ≤ 65535) }
{
    65536 * high + low
}

// The record by a table, or the pass's record: so many of the handed bytes are the table, the others the state or the answers.
fn by_table(letter: u8, long: usize, plan: &[u8], c: &[u8], a: &mut [u8], b: &mut [u8]) -> u32 {
    let (table, rest) = c.split_at(long.min(c.len()));
    if letter == b'B' {
        return plan_exports::vulcedar_record_by(plan, table, rest, a, b);
    }
    plan_exports::vulcedar_pass_record(plan, table, rest, a, b)
}

// The call of a line: version, check, check that writes depths, check of a table, guard, rule, step, hear, event or message,
// central rule, pass, changed answer, way, record, pass's record and record by a table, list of steps, rewriting, renumbering, depth form of a
// plan, plan of a depth form, repeated template, next small plan, test load, text. Its result has the number in the lowest byte, then a byte for a site
// or a guard's rule, and the value, where there is one, from bit 16 on. A match, and no table of functions: each call takes other arguments.
pub(crate) fn call(line: &[u8], plan: &[u8], c: &[u8], a: &mut [u8], b: &mut [u8]) -> u32 {
    let code = item::wide(line, 2);
    let node = item::wide(line, 7);
    let letter = plan::byte_at(line, 0);
    match letter {
        b'V' => plan_exports::vulcedar_version(),
        b'K' => plan_exports::vulcedar_check(plan),
        b'D' => plan_exports::vulcedar_check_depths(plan, a),
        b'M' => plan_exports::vulcedar_check_table(c),
        b'G' => site_exports::vulcedar_guard(plan, code, node, a),
        b'Q' => site_exports::vulcedar_rule(plan, code, node),
        b'S' => site_exports::vulcedar_step(plan, code, node, a),
        b'H' => site_exports::vulcedar_hear(plan, code, node, a),
        b'E' => simulation_exports::vulcedar_simulate(plan, code, node, item::wide(line, 12), a),
        b'C' => site_exports::vulcedar_central(plan, code, node, a, b),
        b'P' => plan_exports::vulcedar_pass(plan, c, a),
        b'I' => plan_exports::vulcedar_impact(plan, c, a, node, code),
        b'Y' => plan_exports::vulcedar_way(plan, node, code, item::wide(line, 12), a),
        b'R' => plan_exports::vulcedar_record(plan, c, a, b),
        b'A'..=b'B' => by_table(letter, code as usize, plan, c, a, b),
        b'L' => u32::from(fault::number(simulation::run(plan, c, a, b))),
        b'W' => form_exports::vulcedar_rewrite(plan, a),
        b'N' => form_exports::vulcedar_renumber(plan, a),
        b'O' => form_exports::vulcedar_to_depths(plan, a),
        b'F' => form_exports::vulcedar_from_depths(plan, a),
        b'X' => form_exports::vulcedar_repeat(plan, node, code, a),
        b'J' => form_exports::vulcedar_next_plan(plan, a),
        b'U' => simulation_exports::vulcedar_workload(
            plan,
            joined(node, item::wide(line, 12)),
            code,
            a,
        ),
        _ => printed(script::rehearse(c, a)),
    }
}
