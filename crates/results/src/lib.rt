// Results for C: what a call answers, packed into 32 bits. What a result holds is specs/Result.antt. No public function has a `requires`.
#![tactic(auto)]

ghost use Rattle.std.specs.Prelude.{◌≡◌};
ghost use Rattle.fault.specs.Number.{fault_number, number_of, value_of};
ghost use Rattle.site.specs.Verdict.{Refused, refusal_of, verdict_of};
ghost use Rattle.results.specs.Result.{result_of, of_verdict};

use fault::Fault;
use site::{Refusal, Report, Verdict};

// A number and a site, without a value.
pub fn packed(number: u8, site: u8) -> u32
    ensures { result ≡ result_of number site 0 }
{
    u32::from(number) + 256 * u32::from(site)
}

// A number, a site and a value.
pub fn with_value(number: u8, site: u8, value: u8) -> u32
    ensures { result ≡ result_of number site value }
{
    packed(number, site) + 65536 * u32::from(value)
}

// The result of a fault.
pub fn of_fault(fault: Fault) -> u32
    ensures { result ≡ result_of (fault_number fault) 0 0 }
{
    packed(u8::from(fault), 0)
}

// The result of an answer without a value.
pub fn of_done(answer: Result<(), Fault>) -> u32
    ensures { result ≡ result_of (number_of answer) 0 0 }
{
    match answer {
        Ok(()) => 0,
        Err(fault) => of_fault(fault),
    }
}

// The result of an answer with a value.
pub fn of_value(answer: Result<u8, Fault>) -> u32
    ensures { result ≡ result_of (number_of answer) 0 (value_of answer) }
{
    match answer {
        Ok(value) => with_value(0, 0, value),
        Err(fault) => of_fault(fault),
    }
}

// The result of a refusal.
#[tactic(auto, unfolding(crate::specs::Result::of_report, site::specs::Verdict::report_of))]
pub fn of_refusal(why: Refusal) -> u32
    ensures { result ≡ of_verdict (Refused (refusal_of why)) }
{
    match why {
        Refusal::Invalid(number) => packed(number, 0),
        Refusal::Barred(q) => packed(10, q),
        Refusal::Unmet(q) => packed(11, q),
        Refusal::Untrue => 12,
    }
}

// The result of a verdict.
#[tactic(auto, unfolding(crate::specs::Result::of_report))]
pub fn of_verdict(v: Verdict) -> u32
    ensures { result ≡ of_verdict (verdict_of v) }
{
    let r = Report::from(v);
    with_value(r.number, r.site, r.rule)
}
