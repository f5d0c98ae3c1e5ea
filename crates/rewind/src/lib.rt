// A take-back with points, and going back to a point: over any layout of rows (`point_undo_on`, `point_back_on`, whose callers have made the tests 1 to
// 7), and on a plan of two bytes a node (`point_undo`, `point_back`, which make them). What the calls mean is specs/Return.antt; what holds of every list
// of them is specs/Session.antt.
// The count stands beside the entries, and the names beside the places, since C lends them so (vulcedar_point_undo, vulcedar_point_back).
#![tactic(auto)]

ghost use Rattle.std.specs.Prelude.{◌≡◌, true, List, ℕ, ◌*◌, ◌-◌, ◌≤◌, length};
ghost use Rattle.fault.specs.Number.{number_of};
ghost use Rattle.plan.specs.Plan.{size};
ghost use Rattle.event.specs.Site.{own};
ghost use Rattle.layout.specs.Layout.{via, layout_by, Laid};
ghost use Rattle.points.specs.Points.{points, points_fit};
ghost use Rattle.rewind.specs.Rewound.{first_fault, rewound};
ghost use Rattle.rewind.specs.Return.{returned, returned_by, back_of, point_undo_of, point_back_of, point_undo_own, point_back_own};

use fault::Fault;
use journal::Entry;
use layout::Layout;

// The first number met in the entries below `count`, down to `place`.
fn first_fault(lay: Layout, entries: &[Entry], place: usize, count: usize) -> Result<(), Fault>
    requires { (size lay.plan.now ≤ 160) × (count ≤ length entries.now) }
    ensures { (home : List ℕ) → number_of result ≡ first_fault lay.entry.plan.now (layout_by lay.entry.rows home) (via lay.entry.row.now) entries.now (count - place) count }
{
    for i in (place..count).rev() {
        keeping::entry_fault(lay, entries[i])?;
    }
    Ok(())
}

// The entries below `count` taken back, down to `place`, where nothing is wrong with any of them.
fn rewind(lay: Layout, state: &mut [u8], entries: &[Entry], place: usize, count: usize)
    requires laid { Laid lay.plan.now (layout_by lay.rows lay.home.now) state.old }
    requires count_in_bounds { count ≤ length entries.now }
    requires count_value { first_fault lay.plan.now (layout_by lay.rows lay.home.now) (via lay.row.now) entries.now (count - place) count ≡ 0 }
    ensures { state.new ≡ rewound lay.entry.plan.now (layout_by lay.entry.rows lay.entry.home.now) (via lay.entry.row.now) state.old entries.now (count - place) count }
{
    for i in (place..count).rev() {
        keeping::take_back(lay, state, entries[i]);
    }
}

// Steps taken back one by one to a place, and the points past it dropped; or the first number met, and all left.
fn return_to(
    lay: Layout,
    state: &mut [u8],
    entries: &[Entry],
    place: usize,
    count: &mut usize,
    names: &mut [u8],
    places: &mut [u64],
) -> Result<(), Fault>
    requires laid { Laid lay.plan.now (layout_by lay.rows lay.home.now) state.old }
    requires place_le_count { (place ≤ count.old) × (count.old ≤ length entries.now) × (length names.old ≡ 128) × (length places.old ≡ 16) }
    ensures { returned_by (back_of lay.entry.plan.now (layout_by lay.entry.rows lay.entry.home.now) (via lay.entry.row.now) (count.old - place) state.old entries.now count.old) state.old count.old names.old places.old ≡ returned (number_of result) state.new count.new (points names.new places.new) }
{
    let k = *count;
    first_fault(lay, entries, place, k)?;
    rewind(lay, state, entries, place, k);
    *count = place;
    points::drop_past(place, names, places);
    Ok(())
}

// The last entry taken back, and the points that it passes dropped.
pub fn point_undo_on(
    lay: Layout,
    state: &mut [u8],
    entries: &[Entry],
    count: &mut usize,
    names: &mut [u8],
    places: &mut [u64],
) -> Result<(), Fault>
    requires laid { Laid lay.plan.now (layout_by lay.rows lay.home.now) state.old }
    requires count_in_bounds { (count.old ≤ length entries.now) × (points_fit names.old places.old count.old ≡ true) }
    ensures { point_undo_of lay.entry.plan.now (layout_by lay.entry.rows lay.entry.home.now) (via lay.entry.row.now) state.old entries.now count.old names.old places.old ≡ returned (number_of result) state.new count.new (points names.new places.new) }
{
    let k = *count;
    if k == 0 {
        return Err(Fault::NothingToUndo);
    }
    return_to(lay, state, entries, k - 1, count, names, places)
}

// Steps taken back to the place of a name's point, and the points past it dropped.
pub fn point_back_on(
    lay: Layout,
    name: &[u8],
    state: &mut [u8],
    entries: &[Entry],
    count: &mut usize,
    names: &mut [u8],
    places: &mut [u64],
) -> Result<(), Fault>
    requires laid { Laid lay.plan.now (layout_by lay.rows lay.home.now) state.old }
    requires name_len { (length name.now ≡ 8) × (count.old ≤ length entries.now) × (points_fit names.old places.old count.old ≡ true) }
    ensures { point_back_of lay.entry.plan.now (layout_by lay.entry.rows lay.entry.home.now) (via lay.entry.row.now) name.now state.old entries.now count.old names.old places.old ≡ returned (number_of result) state.new count.new (points names.new places.new) }
{
    let Some(slot) = points::slot_of(names, places, name) else {
        return Err(Fault::UnknownPoint);
    };
    let place = (places[slot] - 1) as usize;
    return_to(lay, state, entries, place, count, names, places)
}

// The last entry taken back on a plan of two bytes a node, and the points that it passes dropped.
pub fn point_undo(
    plan: &[u8],
    state: &mut [u8],
    entries: &[Entry],
    count: &mut usize,
    names: &mut [u8],
    places: &mut [u64],
) -> Result<(), Fault>
    ensures { point_undo_own plan.now state.old entries.now count.old names.old places.old ≡ returned (number_of result) state.new count.new (points names.new places.new) }
{
    let n = plan::node_count(plan);
    let square = simulation::is_square(n, state.len());
    let right = points::points_fit(names, places, *count);
    checker::fit(plan, square & (*count <= entries.len()) & right)?;
    let lay = Layout::own(plan);
    point_undo_on(lay, state, entries, count, names, places)
}

// Steps taken back on a plan of two bytes a node to the place of a name's point, and the points past it dropped.
pub fn point_back(
    plan: &[u8],
    name: &[u8],
    state: &mut [u8],
    entries: &[Entry],
    count: &mut usize,
    names: &mut [u8],
    places: &mut [u64],
) -> Result<(), Fault>
    ensures { point_back_own plan.now name.now state.old entries.now count.old names.old places.old ≡ returned (number_of result) state.new count.new (points names.new places.new) }
{
    let n = plan::node_count(plan);
    let square = simulation::is_square(n, state.len());
    let right = points::points_fit(names, places, *count);
    checker::fit(
        plan,
        (name.len() == 8) & square & (*count <= entries.len()) & right,
    )?;
    let lay = Layout::own(plan);
    point_back_on(lay, name, state, entries, count, names, places)
}
