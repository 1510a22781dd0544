// The index of keys: a chain of places for each slot, the latest first. Looking a key up costs the same however many there are.
ghost use Rattle.std.specs.Prelude.{◌≡◌, ℕ, ◌<◌, ◌≤◌, length, get_or};
ghost use Rattle.rules.specs.Limits.{max_rows};
ghost use Rattle.explore.specs.Index.{slot_of, Linked, Finds, KeyIndexed};

// An index with room for so many keys. The slots should be a power of two, or some stay empty. A head or a link is a place plus 1, and 0 is none: with
// Options the large index would take 80 KiB, and a call takes less than 64 KiB of stack. It is no map of the library: that wants a heap.
// Which keys are in it (`Linked`) is said in each contract, since the keys are the caller's.
#[derive(Drop)]
pub(crate) struct Index<const SLOTS: usize, const ROOM: usize> {
    pub heads: [u16; SLOTS],
    pub links: [u16; ROOM],
    ghost slots: { length heads ≡ SLOTS },
    ghost room: { length links ≡ ROOM },
    ghost some_slots: { 0 < SLOTS },
}

// The slot of a key, by the upper bits of its product with a large odd number.
fn slot(key: u32, slots: usize) -> usize
    requires { 0 < slots }
    ensures value { result ≡ slot_of slots key }
    ensures upper_bound { result < slots }
{
    (slots - 1) & (u64::from(key) * 2246822507 % 4294967296 / 262144) as usize
}

impl<const SLOTS: usize, const ROOM: usize> Index<SLOTS, ROOM> {
    // The index of the first n keys. They are no slice of their own, which is no plainer: the caller would need one method more, as where it lends
    // a part of its array, the proof no longer knows what the array holds.
    pub(crate) fn of(n: usize, keys: &[u32]) -> Self
        requires { (n ≤ max_rows) × (n ≤ length keys.now) × (0 < SLOTS) × (n ≤ ROOM) }
        ensures { Linked n keys.now result.heads result.links }
    {
        let mut index = Index {
            heads: [0; SLOTS],
            links: [0; ROOM],
        };
        // the first i keys are indexed
        for (i, key) in keys[..n].iter().enumerate() {
            index.add(*key, i);
        }
        index
    }

    // The place of a key among those that are indexed, however many they are.
    pub(crate) fn find(&self, key: u32, keys: &[u32]) -> Option<usize>
        requires { (n : ℕ) × (n ≤ length keys.now) × Linked n keys.now self.now.heads self.now.links }
        ensures { (n : ℕ) → Linked n keys.now self.now.heads self.now.links → Finds n key keys.now result }
    {
        let mut at = self.heads[slot(key, SLOTS)];
        // a while: it walks along a chain, and the key is at no place of it that has been passed
        while at != 0 {
            let place = usize::from(at) - 1;
            if keys[place] == key {
                return Some(place);
            }
            at = self.links[place];
        }
        None
    }

    // Adds the key of number n.
    pub(crate) fn add(&mut self, key: u32, n: usize)
        requires { (n < max_rows) × (n < ROOM) }
        ensures { KeyIndexed key n self.old.heads self.new.heads self.old.links self.new.links }
    {
        let s = slot(key, SLOTS);
        self.links[n] = self.heads[s];
        self.heads[s] = (n + 1) as u16;
    }
}
