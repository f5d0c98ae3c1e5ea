// A step kept in the journal, and the last one taken back, as code: what they are made of for any layout of rows (`is_repeat`, `kept_by`, `entry_fault`,
// `take_back`, whose callers have checked the plan and the lengths), and both on a plan of two bytes a node (`keep`, `undo`, which check them). The
// entries themselves are the caller's: a function here answers where an entry goes, or is handed the last one (specs/Keeping.antt).
// A step is three numbers, code, node and site, and no struct: so C programs hand it in (`vulcedar_keep`).
#![tactic(auto)]

ghost use Rattle.std.specs.Prelude.{◌≡◌, false, cond, ℕ, ◌+◌, ◌*◌, ◌<◌, ◌≤◌, length, List};
ghost use Rattle.fault.specs.Number.{number_of};
ghost use Rattle.plan.specs.Plan.{size};
ghost use Rattle.event.specs.Site.{own};
ghost use Rattle.site.specs.Verdict.{verdict_of, verdict_number};
ghost use Rattle.layout.specs.Layout.{via, layout_by, Laid};
ghost use Rattle.journal.specs.Journal.{no_entry, target, is_set, sited, entry_fault, taken_back};
ghost use Rattle.keeping.specs.Keeping.{Keeps, KeptBy, Undoes};

use fault::Fault;
use journal::Entry;
use layout::Layout;
use site::{Refusal, Report, Verdict};

// A step's answer, and where its entry goes: past the end of the entries where it was refused.
#[derive(Drop)]
pub struct Kept {
    pub verdict: Verdict,
    pub at: usize,
    pub entry: Entry,
}

// An entry of zeros.
pub fn no_entry() -> Entry
    ensures { result ≡ no_entry }
{
    Entry {
        code: 0,
        node: 0,
        site: 0,
        changed: 0,
    }
}

// A message that is a repeat: its bit is set in the row of the site that it tells. Of what is no event of the plan no bit is, and an event is no message.
pub fn is_repeat(lay: Layout, code: u32, node: u32, site: u32, state: &[u8]) -> bool
    requires { (size lay.plan.now ≤ 160) × (length state.now ≡ lay.rows * size lay.plan.now) }
    ensures value { site ≡ 255 → result ≡ false }
    ensures value_2 { (site ≡ 255 → ⊥) → (home : List ℕ) → result ≡ is_set lay.entry.plan.now (layout_by lay.entry.rows home) (via lay.entry.row.now) state.now code node site }
{
    if site == 255 {
        return false;
    }
    if !event::known(lay.plan, code, node) {
        return false;
    }
    let q = layout::via(lay.row, site as usize);
    if lay.rows <= q {
        return false;
    }
    event::has_bit(
        state[q * plan::node_count(lay.plan) + node as usize],
        code as u8,
    )
}

// The entry of a step that passed; `was`: its bit was set before.
fn entry_of(code: u32, node: u32, site: u32, was: bool) -> Entry
    requires { (code < 256) × (node < 256) × (site < 256) }
    ensures { result ≡ record { code = code; node = node; site = site; changed = cond was 0 1 } }
{
    let k = code as u8;
    let v = node as u8;
    let q = site as u8;
    let changed = if was { 0 } else { 1 };
    Entry {
        code: k,
        node: v,
        site: q,
        changed,
    }
}

// What is kept of a step with the verdict v: its entry at the count, which is then one more; of a refused one nothing.
pub fn kept_by(
    v: Verdict,
    was: bool,
    code: u32,
    node: u32,
    site: u32,
    len: usize,
    count: &mut usize,
) -> Kept
    requires code_bound { verdict_number (verdict_of v) ≡ 0 → (code < 256) × (node < 256) × (site < 256) }
    requires count_lt_len { count.old < len }
    ensures { KeptBy (verdict_of v) was code node site len count.old (verdict_of result.verdict) result.at result.entry count.new }
{
    let report = Report::from(v);
    if report.number != 0 {
        return Kept {
            verdict: v,
            at: len,
            entry: no_entry(),
        };
    }
    let at = *count;
    *count = at + 1;
    Kept {
        verdict: v,
        at,
        entry: entry_of(code, node, site, was),
    }
}

// A step on a plan of two bytes a node, and the entry that keeps it.
pub fn keep(
    plan: &[u8],
    code: u32,
    node: u32,
    site: u32,
    state: &mut [u8],
    len: usize,
    count: &mut usize,
) -> Kept
    ensures { Keeps plan.now (own plan.now) (λ q. q) state.old len count.old code node site (verdict_of result.verdict) result.at result.entry state.new count.new }
{
    let n = plan::node_count(plan);
    let fits = simulation::is_square(n, state.len()) & (*count < len);
    if let Err(fault) = checker::fit(plan, fits) {
        return Kept {
            verdict: Verdict::Refused(Refusal::Invalid(u8::from(fault))),
            at: len,
            entry: no_entry(),
        };
    }
    let lay = Layout::own(plan);
    let was = is_repeat(lay, code, node, site, state);
    let v = layout::simulate(lay, code, node, site, state);
    kept_by(v, was, code, node, site, len, count)
}

// The row in which a step set its bit.
fn target(lay: Layout, code: u8, node: u8, site: u32) -> usize
    ensures { result ≡ target lay.entry.plan.now (layout_by lay.entry.rows lay.entry.home.now) (via lay.entry.row.now) code node site }
{
    if site == 255 {
        return layout::via(lay.home, usize::from(event::host(lay.plan, code, node)));
    }
    layout::via(lay.row, site as usize)
}

// The site of an entry is one, or the entry is an event's.
fn is_sited(lay: Layout, site: u8) -> bool
    ensures { (p home : List ℕ) → result ≡ sited p (layout_by lay.entry.rows home) (via lay.entry.row.now) site }
{
    if site == 255 {
        return true;
    }
    layout::via(lay.row, usize::from(site)) < lay.rows
}

// What is wrong with an entry: its event is none, or does not apply.
pub fn entry_fault(lay: Layout, e: Entry) -> Result<(), Fault>
    requires { size lay.plan.now ≤ 160 }
    ensures { (home : List ℕ) → number_of result ≡ entry_fault lay.entry.plan.now (layout_by lay.entry.rows home) (via lay.entry.row.now) e }
{
    let sited = is_sited(lay, e.site);
    event::check(lay.plan, sited, u32::from(e.code), u32::from(e.node))
}

// The bit of an entry in which nothing is wrong, cleared where its step set it.
pub fn take_back(lay: Layout, state: &mut [u8], e: Entry)
    requires laid { Laid lay.plan.now (layout_by lay.rows lay.home.now) state.old }
    requires e_value { entry_fault lay.plan.now (layout_by lay.rows lay.home.now) (via lay.row.now) e ≡ 0 }
    ensures { state.new ≡ taken_back lay.entry.plan.now (layout_by lay.entry.rows lay.entry.home.now) (via lay.entry.row.now) state.old e }
{
    if e.changed == 0 {
        return;
    }
    let q = target(lay, e.code, e.node, u32::from(e.site));
    let at = q * plan::node_count(lay.plan) + usize::from(e.node);
    state[at] = event::without_bit(state[at], e.code);
}

// The last entry taken back on a plan of two bytes a node.
pub fn undo(
    plan: &[u8],
    state: &mut [u8],
    len: usize,
    count: &mut usize,
    e: Entry,
) -> Result<(), Fault>
    ensures { Undoes plan.now (own plan.now) (λ q. q) state.old len count.old e (number_of result) state.new count.new }
{
    let n = plan::node_count(plan);
    let fits = simulation::is_square(n, state.len()) & (*count <= len);
    checker::fit(plan, fits)?;
    if *count == 0 {
        return Err(Fault::NothingToUndo);
    }
    let lay = Layout::own(plan);
    entry_fault(lay, e)?;
    take_back(lay, state, e);
    *count -= 1;
    Ok(())
}
