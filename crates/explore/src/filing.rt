// Files keys, with their index.
ghost use Rattle.std.specs.Prelude.{◌≡◌, ◌<◌, ◌≤◌, length};
ghost use Rattle.explore.specs.Index.{Linked};
ghost use Rattle.explore.specs.Filing.{Filed, Lookup};

use crate::index::Index;

// A key that has been looked up: its number, and how many keys are known then.
#[derive(Clone, Copy)]
pub(crate) struct Numbered {
    pub number: usize,
    pub known: usize,
}

// Looks a key up among n. A key that is absent is filed and has the number n; there is no answer where there is no room for it.
pub(crate) fn file_key<const SLOTS: usize, const ROOM: usize>(
    key: u32,
    n: usize,
    capacity: usize,
    keys: &mut [u32],
    index: &mut Index<SLOTS, ROOM>,
) -> Option<Numbered>
    requires { Filed capacity n keys.old × Linked n keys.old index.old.heads index.old.links × (n < capacity → n < ROOM) }
    ensures { Lookup capacity key n keys.old keys.new index.new.heads index.new.links result }
{
    let Some(number) = index.find(key, keys) else {
        if capacity <= n {
            return None;
        }
        keys[n] = key;
        index.add(key, n);
        return Some(Numbered {
            number: n,
            known: n + 1,
        });
    };
    Some(Numbered { number, known: n })
}
