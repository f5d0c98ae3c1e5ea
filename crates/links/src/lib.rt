// Who is whose child, as two arrays: a walk over the children of a node follows them. What they hold is specs/Links.antt.
#![tactic(auto)]

ghost use Rattle.std.specs.Prelude.{◌≡◌, ◌<◌, slice_index};
ghost use Rattle.plan.specs.Check.{Accepted};
ghost use Rattle.links.specs.Links.{Linked};

// In `first` each node's first child, in `next` its next sibling; 0, which is nobody's child, where there is none.
#[derive(Drop)]
pub struct Links {
    pub first: [u8; 160],
    pub next: [u8; 160],
}

impl Links {
    // The first child of node v, or 0.
    pub fn first_child(&self, v: usize) -> usize
        requires { v < 160 }
        ensures { result ≡ slice_index self.now.first v }
    {
        usize::from(self.first[v])
    }

    // The next sibling of node v, or 0.
    pub fn next_sibling(&self, v: usize) -> usize
        requires { v < 160 }
        ensures { result ≡ slice_index self.now.next v }
    {
        usize::from(self.next[v])
    }
}

// The links of a plan.
pub fn link(plan: &[u8]) -> Links
    requires { Accepted plan.now }
    ensures { Linked plan.now result.first result.next }
{
    let mut links = Links {
        first: [0; 160],
        next: [0; 160],
    };
    for v in (1..plan.len() / 2).rev() {
        let u = usize::from(plan[2 * v + 1]);
        links.next[v] = links.first[u];
        links.first[u] = v as u8;
    }
    links
}
