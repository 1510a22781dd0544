// A taker that names components by their smallest states; other takers can pass on to it what they take.
ghost use Rattle.std.specs.Prelude.{◌<◌, ◌≤◌, length, slice_index, EachIndex};
ghost use Rattle.std.proofs.Common.{sym, ◌∙◌};
ghost use Rattle.std.specs.List.{Contains};
ghost use Rattle.components.specs.Handing.{NamedIn};

use crate::marked::Taker;

// The smallest of some states.
fn smallest(states: &[u16]) -> u16
    requires { 0 < length states.now }
    ensures some { Contains states.now result }
    ensures least { EachIndex states.now (λ k. result ≤ slice_index states.now k) }
{
    states.iter().copied().min().unwrap()
}

// Leaves in each state's entry the smallest state of its component.
#[derive(Drop)]
pub struct Names;

impl Taker for Names {
    ghost holds = { λ names entries s marks done. NamedIn entries s done };

    fn take(&mut self, members: &[u16], _set: u8, entries: &mut [u16]) {
        let name = smallest(members);
        // the states passed have their entry
        for q in members {
            entries[usize::from(*q)] = name;
        }
    }

    ghost lasts = { λ names es es' s marks done done' h size same others q l d. others q (sym (same q) ∙ d) ∙ h q l (sym (same q) ∙ d) };
}
