// Named points in a journal: sixteen slots, which the caller lends as names and places. What they are is specs/Points.antt; what naming and dropping do
// to the places of names is specs/Claim.antt. `points_fit` and `name_point` take anything; the others are for callers that have asked `points_fit`.
// Names and places are two slices, and a place is a word that is 0 in a free slot: so C programs lend them (`vulcedar_point_name`).
#![tactic(auto)]

ghost use Rattle.std.specs.Prelude.{◌≡◌, ◌&&◌, suc, ◌+◌, ◌*◌, ◌<◌, ◌≤◌, ltb, length, IfSome, position, ◌==◌};
ghost use Rattle.std.proofs.lemmas.List.Edits.{sets};
ghost use Rattle.fault.specs.Number.{number_of};
ghost use Rattle.points.specs.Keys.{half_at, key_at};
ghost use Rattle.points.specs.Points.{slot_number, slot_of, free_slot, none_past, named_once, points_fit, points, naming, name_of, dropped};

use fault::Fault;

// Four bytes as a number, the first one lowest.
fn half(bytes: &[u8], at: usize) -> u64
    requires { at + 4 ≤ length bytes.now }
    ensures { (result ≡ half_at bytes.now at) × (result < 4294967296) }
{
    let high = u64::from(bytes[at + 2]) + 256 * u64::from(bytes[at + 3]);
    u64::from(bytes[at]) + 256 * (u64::from(bytes[at + 1]) + 256 * high)
}

// A name as a number: two names are the same if their numbers are. A byte-wise `==` is no faster way: the test of sixteen points takes four times as long.
fn key(bytes: &[u8], at: usize) -> u64
    requires { at + 8 ≤ length bytes.now }
    ensures { result ≡ key_at bytes.now at }
{
    half(bytes, at) + 4294967296 * half(bytes, at + 4)
}

// The slot of the point of this name.
pub fn slot_of(names: &[u8], places: &[u64], name: &[u8]) -> Option<usize>
    requires { (length names.now ≡ 128) × (length places.now ≡ 16) × (length name.now ≡ 8) }
    ensures value { slot_number result ≡ slot_of names.now places.now name.now }
    ensures within { IfSome result (λ i. i < 16) }
{
    let wanted = key(name, 0);
    for (i, word) in places.iter().enumerate() {
        if *word != 0 {
            if key(names, 8 * i) == wanted {
                return Some(i);
            }
        }
    }
    None
}

// The first free slot.
fn free_slot(places: &[u64]) -> Option<usize>
    requires { length places.now ≡ 16 }
    ensures first { result ≡ position (λ w. w == 0) places.now }
    ensures within { IfSome result (λ i. i < 16) }
{
    places.iter().position(|word| *word == 0)
}

// The word says a point at a place above the count.
fn is_past(word: u64, count: usize) -> bool
    ensures { result ≡ ltb (suc count) word }
{
    if word == 0 {
        return false;
    }
    count < (word - 1) as usize
}

// No point is past the count, and each name stands once.
fn slots_fit(names: &[u8], places: &[u64], count: usize) -> bool
    requires { (length names.now ≡ 128) × (length places.now ≡ 16) }
    ensures { result ≡ (none_past places.now count && named_once names.now places.now) }
{
    for (i, word) in places.iter().enumerate() {
        if *word != 0 {
            if is_past(*word, count) {
                return false;
            }
            let a = 8 * i;
            let e = a + 8;
            if slot_of(names, places, &names[a..e]) != Some(i) {
                return false;
            }
        }
    }
    true
}

// The lengths are right, no point is past the count, and each name stands once.
pub fn points_fit(names: &[u8], places: &[u64], count: usize) -> bool
    ensures { result ≡ points_fit names.now places.now count }
{
    if names.len() != 128 {
        return false;
    }
    if places.len() != 16 {
        return false;
    }
    slots_fit(names, places, count)
}

// Stores a slot's name.
fn put_name(names: &mut [u8], i: usize, name: &[u8])
    requires { (length names.old ≡ 128) × (i < 16) × (length name.now ≡ 8) }
    ensures { names.new ≡ sets names.old (8 * i) name.now }
{
    let a = 8 * i;
    let e = a + 8;
    names[a..e].copy_from_slice(name);
}

// Names the place at the count.
pub fn name_point(
    name: &[u8],
    count: usize,
    names: &mut [u8],
    places: &mut [u64],
) -> Result<(), Fault>
    ensures { name_of name.now count names.old places.old ≡ naming (number_of result) names.new places.new }
{
    if name.len() != 8 {
        return Err(Fault::BadBuffer);
    }
    if count == usize::MAX {
        return Err(Fault::BadBuffer);
    }
    if !points_fit(names, places, count) {
        return Err(Fault::BadBuffer);
    }
    if let Some(known) = slot_of(names, places, name) {
        places[known] = count as u64 + 1;
        return Ok(());
    }
    let Some(free) = free_slot(places) else {
        return Err(Fault::NoFreePoint);
    };
    put_name(names, free, name);
    places[free] = count as u64 + 1;
    Ok(())
}

// Frees the slots whose points are past the count.
pub fn drop_past(count: usize, names: &mut [u8], places: &mut [u64])
    requires { (length names.old ≡ 128) × (length places.old ≡ 16) }
    ensures { dropped count names.old places.old ≡ points names.new places.new }
{
    let none: [u8; 8] = [0; 8];
    for (i, word) in places.iter_mut().enumerate() {
        if is_past(*word, count) {
            put_name(names, i, &none);
            *word = 0;
        }
    }
}
