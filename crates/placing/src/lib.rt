// A tree written as a plan, node by node, in the fixed numbering (rule R3): what every call that writes a plan of a tree has in common.
#![tactic(auto)]

ghost use Rattle.std.specs.Prelude.{◌≡◌, ◌+◌, ◌*◌, ◌<◌, length, set};
ghost use Rattle.trees.specs.Tree.{trees_below};
ghost use Rattle.placing.specs.Place.{Placeable, Placed};

use links::Links;

// Writes the two bytes of node or line v.
pub fn set_line(out: &mut [u8], v: usize, a: u8, b: u8)
    requires { 2 * v + 1 < length out.old }
    ensures { out.new ≡ set (set out.old (2 * v) a) (2 * v + 1) b }
{
    out[2 * v] = a;
    out[2 * v + 1] = b;
}

// Writes the tree of node v, whose parent is u, from the number n on, and answers the number behind it. It calls itself only for children that
// have children: most have none, and that saves most calls.
pub fn place(plan: &[u8], links: &Links, out: &mut [u8], v: usize, u: u8, n: usize) -> usize
    requires { Placeable plan.now links.now.first links.now.next out.old v n (trees_below plan.now v) }
    ensures { Placed plan.now v u n (trees_below plan.now v) out.old out.new result }
{
    set_line(out, n, checker::kind_at(plan, v), u);
    let mut w = n + 1;
    let mut c = links.first_child(v);
    while c != 0 {
        if links.first_child(c) == 0 {
            set_line(out, w, checker::kind_at(plan, c), n as u8);
            w += 1;
        } else {
            w = place(plan, links, out, c, n as u8, w);
        }
        c = links.next_sibling(c);
    }
    w
}
