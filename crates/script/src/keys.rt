// Key sets: by handle, eight stations. A block changes its own in place, and each branch begins with a copy.
ghost use Rattle.std.specs.Prelude.{◌≡◌, map, slice_index, slice_set};
ghost use Rattle.rules.specs.Lists.{distinct as distinct_in};
ghost use Rattle.rules.specs.Script.{hand_over};

use crate::part::{HANDLES, Handle};

pub type Keys = [u8; HANDLES];

// The station of a handle; 0 beyond the last, as the look-up of the definitions has it.
pub(crate) fn at(keys: &Keys, handle: u8) -> u8
    ensures { result ≡ slice_index keys.now handle }
{
    keys.get(handle as usize).copied().unwrap_or(0)
}

// Puts one handle at another station. One byte is written: a set that goes by value would be written so and read whole at once, which stalls.
pub(crate) fn set_key(keys: &mut Keys, handle: u8, to: u8)
    ensures { keys.new ≡ slice_set keys.old handle to }
{
    // Not `get_mut`: the proof would no longer know the other elements.
    if (handle as usize) < keys.len() {
        keys[handle as usize] = to;
    }
}

// Whether no handle is bound twice.
pub(crate) fn distinct(bound: &[u8]) -> bool
    ensures { result ≡ distinct_in bound.now }
{
    // Each against those behind it: a chain would have to cut the tails by index.
    match bound {
        [first, rest @ ..] => !rest.contains(first) && distinct(rest),
        [] => true,
    }
}

// The bound handles go to the stations at which those of a part end.
pub(crate) fn hand_over(keys: &mut Keys, bound: &[u8], handles: &[Handle])
    ensures { keys.new ≡ hand_over keys.old bound.now (map (λ h. h.leaves) handles.now) }
{
    for (binding, handle) in bound.iter().zip(handles) {
        set_key(keys, *binding, handle.leaves);
    }
}
