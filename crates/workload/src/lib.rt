// A test load that two makers can share (rules U): what it is is specs/Load.antt, the call specs/Call.antt, the claims specs/Claim.antt. It is
// linear in the steps, and a refused call leaves the lent bytes.
#![tactic(auto)]

ghost use Rattle.std.specs.Prelude.{◌≡◌, ◌+◌, ◌*◌, ◌%◌, ◌^◌, ◌<◌, ◌≤◌, length, if◌then◌else◌, nat_eq};
ghost use Rattle.lists.specs.Put.{Put};
ghost use Rattle.fault.specs.Number.{number_of};
ghost use Rattle.plan.specs.Replaced.{replaced};
ghost use Rattle.workload.specs.Load.{moved, after, draw, step_at};
ghost use Rattle.workload.specs.Call.{load_of};

use fault::Fault;

// The low 32 bits of a product.
fn mul_low(a: u32, b: u32) -> u32
    ensures { result ≡ a * b % 2 ^ 32 }
{
    ((a as u64) * (b as u64) % 4294967296) as u32
}

// The generator's next number.
fn moved(s: u32) -> u32
    ensures { result ≡ moved s }
{
    std::num::wrapping_add_u32(mul_low(s, 1664525), 1013904223)
}

// The draw of a number, modulo n.
fn drawn(s: u32, n: u32) -> u8
    requires { (0 < n) × (n ≤ 256) }
    ensures { result ≡ draw s % n }
{
    (s / 65536 % n) as u8
}

// ff for an event; for a message the site.
fn site(first: u32, fourth: u32, n: u32) -> u8
    requires { (0 < n) × (n ≤ 256) }
    ensures { result ≡ (if nat_eq (draw first % 2) 0 then 255 else draw fourth % n) }
{
    if drawn(first, 2) == 0 {
        return 255;
    }
    drawn(fourth, n)
}

// Writes the step of four moves from s at a place, and answers the number after them.
fn put_step(n: u32, s: u32, out: &mut [u8], at: usize) -> u32
    requires { (0 < n) × (n ≤ 160) × (at + 3 ≤ length out.old) }
    ensures { (result ≡ after 4 s) × Put (step_at n s) out.old at out.new (at + 3) }
{
    let first = moved(s);
    let second = moved(first);
    let third = moved(second);
    let fourth = moved(third);
    out[at] = drawn(second, 8) + 1;
    out[at + 1] = drawn(third, n);
    out[at + 2] = site(first, fourth, n);
    fourth
}

// The load of a seed, into `out`, which has to be three bytes a step.
pub fn workload(plan: &[u8], seed: u32, count: u32, out: &mut [u8]) -> Result<(), Fault>
    ensures { load_of plan.now seed count out.old ≡ replaced (number_of result) out.new }
{
    let steps = count as usize;
    checker::fit(plan, out.len() == 3 * steps)?;
    let n = plan::node_count(plan) as u32;
    let mut s = seed;
    for i in 0..steps {
        s = put_step(n, s, out, 3 * i);
    }
    Ok(())
}
