//! [`Others`]: who may go beside the last process, which goes only where nobody else may.

ghost use Rattle.std.specs.Prelude.{◌≡◌, ◌+◌, ◌<◌, ◌++◌, ◌∷◌, [], OnOk, filter, if◌then◌else◌, length, map, nat_lt};
ghost use Rattle.pf_strategy.specs.InOthers.{AreOthers};
ghost use Rattle.pf_strategy.specs.Last.{is_other, is_other_channel, place};

use pf_errors::NoMemory;
use std::alloc::Global;

/// Those who may go beside the last process and its signals to itself, of which it knows the place among all.
#[derive(Drop)]
pub struct Others {
    last: u32,
    pids: Vec<u32>,
    channels: Vec<(u32, u32)>,
    /// Of each who may go whether it is another, processes first.
    marks: Vec<bool>,
}

/// Puts an item after the others, if it is marked.
fn put_marked<T: Copy>(items: &mut Vec<T>, mark: bool, item: T) -> Result<(), NoMemory>
    ensures { OnOk result (items.new.items ≡ items.old.items ++ (if mark then item ∷ [] else [])) }
{
    if mark {
        items.push(item)?;
    }
    Ok(())
}

/// Puts those of these processes that aren't the last after the others, and a mark for each.
fn put_pids(
    pids: &[u32],
    last: u32,
    others: &mut Vec<u32>,
    marks: &mut Vec<bool>,
) -> Result<(), NoMemory>
    ensures others { OnOk result (others.new.items ≡ others.old.items ++ filter (is_other last) pids.now) }
    ensures marks { OnOk result (marks.new.items ≡ marks.old.items ++ map (is_other last) pids.now) }
{
    for pid in pids {
        let other = *pid != last;
        put_marked(others, other, *pid)?;
        marks.push(other)?;
    }
    Ok(())
}

/// Whether a channel isn't the last process's to itself.
fn is_other_channel(last: u32, channel: (u32, u32)) -> bool
    ensures { result ≡ is_other_channel last channel }
{
    !(channel.0 == last && channel.1 == last)
}

/// Puts those of these channels that aren't the last process's to itself after the others, and a mark for each.
fn put_channels(
    channels: &[(u32, u32)],
    last: u32,
    others: &mut Vec<(u32, u32)>,
    marks: &mut Vec<bool>,
) -> Result<(), NoMemory>
    ensures others { OnOk result (others.new.items ≡ others.old.items
        ++ filter (is_other_channel last) channels.now) }
    ensures marks { OnOk result (marks.new.items ≡ marks.old.items ++ map (is_other_channel last) channels.now) }
{
    for channel in channels {
        let other = is_other_channel(last, *channel);
        put_marked(others, other, *channel)?;
        marks.push(other)?;
    }
    Ok(())
}

impl Others {
    /// Nobody yet, beside this process.
    pub fn new(alloc: Global, last: u32) -> Others
        ensures { result.last ≡ last }
    {
        Others {
            last,
            pids: Vec::new(alloc),
            channels: Vec::new(alloc),
            marks: Vec::new(alloc),
        }
    }

    /// Takes the others among these processes and channels, in place of those before. Their allocation may fail.
    pub fn gather(&mut self, pids: &[u32], channels: &[(u32, u32)]) -> Result<(), NoMemory>
        ensures others { OnOk result (AreOthers self.new pids.now channels.now) }
        ensures last { self.new.last ≡ self.old.last }
    {
        self.pids.clear();
        self.channels.clear();
        self.marks.clear();
        put_pids(pids, self.last, &mut self.pids, &mut self.marks)?;
        put_channels(channels, self.last, &mut self.channels, &mut self.marks)
    }

    /// Whether there are any.
    pub fn any(&self) -> bool
        ensures { result ≡ nat_lt 0 (length self.now.pids.items + length self.now.channels.items) }
    {
        !self.pids.is_empty() || !self.channels.is_empty()
    }

    /// The processes.
    pub fn pids(&self) -> &[u32]
        ensures { result.now ≡ self.now.pids.items }
    {
        self.pids.as_slice()
    }

    /// The channels.
    pub fn channels(&self) -> &[(u32, u32)]
        ensures { result.now ≡ self.now.channels.items }
    {
        self.channels.as_slice()
    }

    /// The place among all of the other of this number, from 0 on; after all where there are not so many.
    pub fn place(&self, number: usize) -> usize
        ensures { result ≡ place number self.now.marks.items }
    {
        let mut left = number;
        for at in 0..self.marks.len() {
            if self.marks[at] {
                if left == 0 {
                    return at;
                }
                left -= 1;
            }
        }
        self.marks.len()
    }
}
