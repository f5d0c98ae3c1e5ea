// Finds the way to a target: the smallest answers with which the pass leaves the mark and the end that are wanted. What the call
// answers and leaves is `way_into` in specs/Way.antt of the crate way, which also claims what that means. The public function has no
// `requires`; a refused call leaves the answers.
//
// The answers are fixed node by node, at each node the first byte with which some answers still lead there. Whether some do is known
// from a table: which marks each node can get, by those that its children can get. A byte tried at a node changes the table only on
// the path from that node up to the root, and there only up to the first node that can get what it could before.
#![tactic(auto)]

ghost use Rattle.std.specs.Prelude.{◌≡◌, cond, ℕ, ◌<◌, ◌+◌, length, get_or};
ghost use Rattle.fault.specs.Number.{number_of};
ghost use Rattle.lists.specs.Member.{In};
ghost use Rattle.plan.specs.Plan.{size, kind_byte, children};
ghost use Rattle.plan.specs.Check.{Accepted};
ghost use Rattle.way.specs.Way.{can_want, way, way_result, found_into, way_into};
ghost use Rattle.way.specs.Can.{fits_of};
ghost use Rattle.find_way.specs.Marks.{packed, unpacked, joined, unseen, hope_on, marks_by, marks_at};
ghost use Rattle.find_way.specs.Search.{able, opens, Given, Knows, KnowsAll, Knew, Wanted, Open, Put};

use fault::Fault;
use links::Links;

// Which marks a node can get: 0, 3, 4, 5.
#[derive(Drop)]
struct Marks {
    idle: bool,
    done: bool,
    failed: bool,
    down: bool,
}

// What the children of a block that were seen, the first ones, leave open: none of them is reached; nothing has decided the block and
// nothing will; nothing has decided it yet; one of them decided it; one decided it the other way, which only a conditional knows.
#[derive(Drop)]
struct Hope {
    idle: bool,
    plain: bool,
    keep: bool,
    turn: bool,
    other: bool,
}

// A node, the mark wanted for it, and the end wanted for the root.
#[derive(Clone, Copy)]
struct Target {
    node: usize,
    mark: u32,
    end: u32,
}

// What is asked: a plan, its links, and the target.
#[derive(Clone, Copy)]
struct Quest<'a> {
    plan: &'a [u8],
    links: &'a Links,
    target: Target,
}

// One answer a node, those below number `fixed` fixed and the others free.
#[derive(Clone, Copy)]
struct Front<'a> {
    answers: &'a [u8],
    fixed: usize,
}

// n where b holds.
fn bit(b: bool, n: u8) -> u8
    ensures { result ≡ cond b n 0 }
{
    if b { n } else { 0 }
}

// The marks as one byte.
fn pack(m: Marks) -> u8
    ensures { result ≡ packed m }
{
    let idle = bit(m.idle, 1);
    let done = bit(m.done, 2);
    let failed = bit(m.failed, 4);
    let down = bit(m.down, 8);
    idle + done + failed + down
}

// The marks in a byte.
fn unpack(b: u8) -> Marks
    ensures { result ≡ unpacked b }
{
    Marks {
        idle: b % 2 == 1,
        done: b / 2 % 2 == 1,
        failed: b / 4 % 2 == 1,
        down: b / 8 % 2 == 1,
    }
}

// One more child; `ok`: its place may be the block's answer. This runs most often, so it has no branches: the kind is its byte, whose tests
// are joined by `|` and `&`, where a `match` on a `Kind` would branch for each of them.
fn join(kind: u8, ok: bool, c: Marks, h: Hope) -> Hope
    ensures { result ≡ joined kind ok c h }
{
    let all = (kind == 2) | (kind == 3) | (kind == 8);
    let one = (kind == 4) | (kind == 6);
    let keep = (all & c.done)
        | (one & c.failed)
        | ((kind == 5) & (c.down | c.failed))
        | ((kind == 7) & c.idle);
    let turn = (all & c.failed) | (one & c.done) | (((kind == 5) | (kind == 7)) & c.done & ok);
    let stop = (kind == 2) | (kind == 6) | (kind == 7);
    let rest = (stop & c.idle)
        | (((kind == 3) | (kind == 4) | (kind == 8)) & (c.done | c.failed))
        | ((kind == 5) & (c.down | c.failed));
    let plain = (all & c.done) | (!all & c.failed);
    Hope {
        idle: h.idle & c.idle,
        plain: h.plain & plain,
        keep: h.keep & keep,
        turn: (h.turn & rest) | (h.keep & turn),
        other: (h.other & rest) | (h.keep & (c.failed & ok)),
    }
}

// The marks that a node can get, by its kind and children: `zero`, `one`, `two` may be its answer; `free`: any mark will do, else `mark`. Without
// branches, by the kind's byte, as `join`.
fn finish(kind: u8, zero: bool, one: bool, two: bool, h: Hope, free: bool, mark: u32) -> Marks
    ensures { result ≡ marks_by kind zero one two h free mark }
{
    let all = (kind == 2) | (kind == 3) | (kind == 8);
    let any = (kind == 4) | (kind == 6);
    let works = ((kind == 1) & one)
        | (all & h.plain)
        | ((any | (kind == 5) | (kind == 7)) & h.turn);
    let breaks = ((kind == 1) & two)
        | (all & h.turn)
        | (any & h.plain)
        | ((kind == 5) & zero & h.plain)
        | ((kind == 7) & h.other);
    Marks {
        idle: h.idle & (free | (mark == 0)),
        done: works & (free | (mark == 3)),
        failed: breaks & (free | (mark == 4)),
        down: works & (free | (mark == 5)),
    }
}

// x may be v's answer: it is fixed to that, or free.
fn allowed(front: Front, v: usize, x: u8) -> bool
    requires { v < length front.answers.now }
    ensures { result ≡ fits_of front.entry.answers.now front.entry.fixed v x }
{
    (front.fixed <= v) | (x == front.answers[v])
}

// What v's children leave open.
fn gather(quest: Quest, front: Front, table: &[u8; 160], v: usize) -> Hope
    requires { Given quest.plan.now quest.links.now.first quest.links.now.next front.answers.now × (v < size quest.plan.now) }
    ensures { let p = quest.entry.plan.now in result ≡ hope_on (fits_of front.entry.answers.now front.entry.fixed v) (kind_byte p v) (λ c. unpacked (get_or table.now c 0)) 0 unseen (children p v) }
{
    let kind = quest.plan[2 * v];
    let mut h = Hope {
        idle: true,
        plain: true,
        keep: true,
        turn: false,
        other: false,
    };
    let mut place = 0u8;
    let mut c = quest.links.first_child(v);
    while c != 0 {
        place += 1;
        let ok = allowed(front, v, place);
        let m = unpack(table[c]);
        h = join(kind, ok, m, h);
        c = quest.links.next_sibling(c);
    }
    h
}

// The marks that v can get, where the table has those that its children can get.
fn marks_at(quest: Quest, front: Front, table: &[u8; 160], v: usize) -> u8
    requires { Given quest.plan.now quest.links.now.first quest.links.now.next front.answers.now × (v < size quest.plan.now) × ((c : ℕ) → In c (children quest.plan.now v) → Knows quest.plan.now front.answers.now front.fixed quest.target table.now c) }
    ensures { result ≡ packed (marks_at (able quest.entry.plan.now front.entry.answers.now front.entry.fixed quest.entry.target) v) }
{
    let h = gather(quest, front, table, v);
    let zero = allowed(front, v, 0);
    let one = allowed(front, v, 1);
    let two = allowed(front, v, 2);
    let target = quest.target;
    let m = finish(
        quest.plan[2 * v],
        zero,
        one,
        two,
        h,
        v != target.node,
        target.mark,
    );
    pack(m)
}

// Leaves in the table the marks that every node can get.
fn fill(quest: Quest, front: Front, table: &mut [u8; 160])
    requires { Given quest.plan.now quest.links.now.first quest.links.now.next front.answers.now × (length table.old ≡ 160) }
    ensures { KnowsAll quest.entry.plan.now front.entry.answers.now front.entry.fixed quest.entry.target table.new }
{
    for v in (0..quest.plan.len() / 2).rev() {
        table[v] = marks_at(quest, front, table, v);
    }
}

// The same, where only the answer of `node` is another than when the table was made. Above a node that can get what it could before,
// nothing changes.
fn climb(quest: Quest, front: Front, table: &mut [u8; 160], node: usize)
    requires { Given quest.plan.now quest.links.now.first quest.links.now.next front.answers.now × (node < size quest.plan.now) × Knew quest.plan.now front.answers.now front.fixed quest.target table.old node }
    ensures { KnowsAll quest.entry.plan.now front.entry.answers.now front.entry.fixed quest.entry.target table.new }
{
    let mut v = node;
    loop {
        let m = marks_at(quest, front, table, v);
        if m == table[v] {
            return;
        }
        table[v] = m;
        if v == 0 {
            return;
        }
        v = usize::from(quest.plan[2 * v + 1]);
    }
}

// Whether the root can get the end that is wanted.
fn is_open(table: &[u8; 160], end: u32) -> bool
    ensures { result ≡ opens (get_or table.now 0 0) end }
{
    let m = unpack(table[0]);
    if end == 3 { m.done } else { m.failed }
}

// Puts at i the first byte with which some answers still lead there.
fn choose(quest: Quest, answers: &mut [u8], i: usize, table: &mut [u8; 160])
    requires { Given quest.plan.now quest.links.now.first quest.links.now.next answers.old × Open quest.plan.now quest.target answers.old i × KnowsAll quest.plan.now answers.old i quest.target table.old }
    ensures { let p = quest.entry.plan.now in let t = quest.entry.target in Put p t answers.old i answers.new × KnowsAll p answers.new (i + 1) t table.new }
{
    for b in 0..=255 {
        answers[i] = b;
        let front = Front {
            answers,
            fixed: i + 1,
        };
        climb(quest, front, table, i);
        if is_open(table, quest.target.end) {
            return;
        }
    }
}

// The search, for a plan and a target that are right.
fn search(plan: &[u8], target: Target, answers: &mut [u8]) -> Result<(), Fault>
    requires { Accepted plan.now × (length answers.old ≡ size plan.now) × Wanted plan.now target }
    ensures { found_into (way plan.now target.node target.mark target.end) answers.old ≡ way_result (number_of result) answers.new }
{
    let links = links::link(plan);
    let quest = Quest {
        plan,
        links: &links,
        target,
    };
    let front = Front { answers, fixed: 0 };
    let mut table = [0u8; 160];
    fill(quest, front, &mut table);
    if !is_open(&table, target.end) {
        return Err(Fault::NoWay);
    }
    for i in 0..plan.len() / 2 {
        choose(quest, answers, i, &mut table);
    }
    Ok(())
}

// The marks that may be wanted.
fn can_want(mark: u32, end: u32) -> bool
    ensures { result ≡ can_want mark end }
{
    ((mark == 0) | (mark == 3) | (mark == 4) | (mark == 5)) & ((end == 3) | (end == 4))
}

// The smallest answers with which the pass leaves this mark at the node and this end at the root; or what was refused, and the answers as
// they were.
pub fn find_way(
    plan: &[u8],
    node: u32,
    mark: u32,
    end: u32,
    answers: &mut [u8],
) -> Result<(), Fault>
    ensures { way_into plan.now node mark end answers.old ≡ way_result (number_of result) answers.new }
{
    let n = plan::node_count(plan);
    checker::fit(plan, answers.len() == n)?;
    let v = node as usize;
    if n <= v {
        return Err(Fault::NotInPlan);
    }
    if !can_want(mark, end) {
        return Err(Fault::BadTarget);
    }
    let target = Target {
        node: v,
        mark: mark,
        end: end,
    };
    search(plan, target, answers)
}
