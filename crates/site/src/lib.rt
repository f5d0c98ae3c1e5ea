// What one site does: it steps an event on its own row, and hears of events that happened elsewhere. What a step and a message mean is
// specs/Step.antt: one equation for the answer and every lent byte. A call of `step` or `hear` that is not valid is refused with the number of the
// test that failed; `decide` is the part of a step behind the tests, for callers that have made them.
#![tactic(auto)]

ghost use Rattle.std.specs.Prelude.{◌≡◌, ◌<◌};
ghost use Rattle.plan.specs.Plan.{size};
ghost use Rattle.plan.specs.Check.{Accepted};
ghost use Rattle.site.specs.Verdict.{verdict_of, reported, report_of};
ghost use Rattle.site.specs.Step.{stepped, decide, step_of, hear_of};

// An event that passed, with its site and the rule behind its guard.
#[derive(Clone, Copy)]
pub struct PassedEvent {
    pub code: u8,
    pub node: u8,
    pub site: u8,
    pub rule: u8,
}

// Why a call is refused: it is invalid, with the number of the test that failed; the event is barred or its guard unmet, with the event's site; or a
// message tells of what did not happen, which the simulation alone can know.
#[derive(Clone, Copy)]
pub enum Refusal {
    // a number and no `Fault`: functions that take a refusal take any
    Invalid(u8),
    Barred(u8),
    Unmet(u8),
    Untrue,
}

// The answer to a step or a message: the event passed, the message passed, or a refusal.
#[derive(Clone, Copy)]
pub enum Verdict {
    Passed(PassedEvent),
    Heard,
    Refused(Refusal),
}

// A verdict in numbers: 0 passed, else the refusal's; the event's site with 0, 10 and 11 of an event, else 0; the rule of an event that passed, else 0.
#[derive(Drop)]
pub struct Report {
    pub number: u8,
    pub site: u8,
    pub rule: u8,
}

fn reported(number: u8, site: u8, rule: u8) -> Report
    ensures { result ≡ reported number site rule }
{
    Report { number, site, rule }
}

impl From<Verdict> for Report {
    ghost from_gives = { λ v r. r ≡ report_of (verdict_of v) };

    #[tactic(auto, unfolding(crate::specs::Verdict::report_of))]
    fn from(v: Verdict) -> Report {
        match v {
            Verdict::Passed(e) => reported(0, e.site, e.rule),
            Verdict::Heard => reported(0, 0, 0),
            Verdict::Refused(Refusal::Invalid(number)) => reported(number, 0, 0),
            Verdict::Refused(Refusal::Barred(site)) => reported(10, site, 0),
            Verdict::Refused(Refusal::Unmet(site)) => reported(11, site, 0),
            Verdict::Refused(Refusal::Untrue) => reported(12, 0, 0),
        }
    }
}

// A message to a site: the event is set in its row.
pub fn hear(plan: &[u8], code: u32, node: u32, row: &mut [u8]) -> Verdict
    ensures { hear_of plan.now code node row.old ≡ stepped row.new (verdict_of result) }
{
    let n = plan::node_count(plan);
    if let Err(fault) = event::validate(plan, row.len() == n, true, code, node) {
        return Verdict::Refused(Refusal::Invalid(u8::from(fault)));
    }
    row::set_heard(row, code as u8, node as u8);
    Verdict::Heard
}

// What a site decides of an event on its row, where the tests have passed: the bars, the guard, and then the event is set. The answer names the site.
pub fn decide(plan: &[u8], site: u8, code: u8, node: u8, row: &mut [u8]) -> Verdict
    requires { (Accepted plan.now) × (node < size plan.now) }
    ensures { decide plan.now site code node row.old ≡ stepped row.new (verdict_of result) }
{
    if row::is_barred(plan, code, node, row) {
        return Verdict::Refused(Refusal::Barred(site));
    }
    if !row::guard_holds(plan, code, node, row) {
        return Verdict::Refused(Refusal::Unmet(site));
    }
    row::set_heard(row, code, node);
    let rule = guard::rule_byte::rule_number(plan, code, node) as u8;
    Verdict::Passed(PassedEvent {
        code,
        node,
        site,
        rule,
    })
}

// A step of the event's site on that site's row: the tests, and then the decision.
pub fn step(plan: &[u8], code: u32, node: u32, row: &mut [u8]) -> Verdict
    ensures { step_of plan.now code node row.old ≡ stepped row.new (verdict_of result) }
{
    let fits = row.len() == plan::node_count(plan);
    if let Err(fault) = event::validate(plan, fits, true, code, node) {
        return Verdict::Refused(Refusal::Invalid(u8::from(fault)));
    }
    let k = code as u8;
    let v = node as u8;
    decide(plan, event::host(plan, k, v), k, v, row)
}
