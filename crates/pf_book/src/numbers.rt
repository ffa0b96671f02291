//! Things by number, and room.

ghost use Rattle.std.specs.Prelude.{◌≡◌, ◌+◌, ◌<◌, ◌≤◌, None, OnErr, OnOk};
ghost use Rattle.std.specs.Option.{option_copied};
ghost use Rattle.std.specs.Vec.{vec_len, vec_capacity};
ghost use Rattle.pf_desks.specs.Desk.{held_at, with_held};

use pf_errors::NoMemory;

/// What is held under a number, which counts from 1.
pub(crate) fn numbered<T>(things: &[Option<T>], number: u64) -> Option<&T>
    ensures { option_copied result ≡ held_at things.now number }
{
    if number == 0 {
        return None;
    }
    things.get(number as usize - 1)?.as_ref()
}

/// Gives up what is held under a number, and returns it: nothing is held there then.
pub(crate) fn give_up<T>(things: &mut Vec<Option<T>>, number: u64) -> Option<T>
    ensures taken { result ≡ held_at things.old.items number }
    ensures items { things.new.items ≡ with_held things.old.items number None }
{
    if number == 0 || number > things.len() as u64 {
        return None;
    }
    things[number as usize - 1].take()
}

/// Makes room for n more in a list, and is out of memory only if there was none. If there is none it grows by an eighth
/// at least: what is unused stays small, and a push costs a fixed number of moves on the average.
pub(crate) fn make_room<T>(list: &mut Vec<T>, more: usize) -> Result<(), NoMemory>
    ensures items { list.new.items ≡ list.old.items }
    ensures len { vec_len list.new ≡ vec_len list.old }
    ensures capacity { vec_capacity list.old ≤ vec_capacity list.new }
    ensures room { OnOk result (vec_len list.new + more ≤ vec_capacity list.new) }
    ensures full { OnErr result (vec_capacity list.old < vec_len list.old + more) }
{
    if list.capacity() - list.len() < more {
        list.reserve_exact(more.max(list.len() / 8))?;
    }
    Ok(())
}
