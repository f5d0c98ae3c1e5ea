// The journal of a simulation: the entries that the caller lends, one of them stored and one of them read. What keeping a step and taking it back
// mean is specs/Journal.antt; what holds of every list of both is specs/Session.antt. No public function has a `requires`.
#![tactic(auto)]

ghost use Rattle.std.specs.Prelude.{◌≡◌, ◌-◌, ◌<◌, ltb, length, get_or, slice_get, set};
ghost use Rattle.journal.specs.Journal.{no_entry};

// A step that passed: its code, its node, the site that was told (255: the event happened), and 1 if it set a bit, 0 if that was set before.
#[repr(C)]
#[derive(Clone, Copy)]
pub struct Entry {
    pub code: u8,
    pub node: u8,
    pub site: u8,
    pub changed: u8,
}

// Stores an entry, and answers whether there is such a place; past the end nothing changes.
pub fn append(entries: &mut [Entry], at: usize, entry: Entry) -> bool
    ensures { (result ≡ ltb at (length entries.old)) × (entries.new ≡ set entries.old at entry) }
{
    // With `get_mut`, what the entries are after the write has no name that a proof can cite: the index form is proved.
    if at < entries.len() {
        entries[at] = entry;
        return true;
    }
    false
}

// The entry at a place; past the end one of zeros.
pub fn entry_at(entries: &[Entry], at: usize) -> Entry
    ensures { result ≡ get_or entries.now at no_entry }
{
    if at < entries.len() {
        return entries[at];
    }
    Entry {
        code: 0,
        node: 0,
        site: 0,
        changed: 0,
    }
}

// The place of the last of so many.
pub fn last_place(count: usize) -> usize
    ensures { result ≡ count - 1 }
{
    if count == 0 { 0 } else { count - 1 }
}

// The last of so many entries.
pub fn last_kept(entries: &[Entry], count: usize) -> Option<Entry>
    ensures none { count ≡ 0 → result ≡ None }
    ensures last { 0 < count → result ≡ slice_get entries.now (count - 1) }
{
    entries.get(count.checked_sub(1)?).copied()
}
