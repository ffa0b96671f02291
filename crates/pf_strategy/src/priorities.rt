//! [`Priorities`]: who waits with which priority, and the generator of the next.

ghost use Rattle.std.specs.Prelude.{◌≡◌, ◌+◌, ◌<◌, ◌≤◌, ◌^◌, ◌++◌, ◌∷◌, IfOk, OnOk, Some, drop, length, slice_get};
ghost use Rattle.std.specs.Prelude.{take, true};
ghost use Rattle.rand_pcg.specs.Pcg.{pcg32};
ghost use Rattle.pf_strategy.specs.Keys.{channel_key, keys_among};
ghost use Rattle.pf_strategy.specs.Places.{KeepsPlace};
ghost use Rattle.pf_strategy.specs.Priorities.{all_held, choice, first, from_key, given, held, highest_from, state_of};

use pf_errors::NoMemory;
use rand_core::SeedableRng;
use rand_core::utils::NextWord;
use rand_pcg::Lcg64Xsh32;
use std::alloc::Global;

/// Someone who may go, by the key, with the priority.
#[derive(Drop)]
struct HeldPriority {
    key: u64,
    priority: u32,
}

/// The priorities of those who may go, by rising key, and the generator of the next: PCG-XSH-RR 64/32 of a seed. The
/// one at the index `gone` went last, and its priority is spent; there is none before the first choice. It keeps its
/// place, since most often it may go again, among the same others.
#[derive(Drop)]
pub struct Priorities {
    generator: Lcg64Xsh32,
    held: Vec<HeldPriority>,
    gone: usize,
}

/// Drops those that are held below a key, from an index on.
fn drop_below(holders: &mut Vec<HeldPriority>, at: usize, key: u64)
    requires { at ≤ length holders.old.items }
    ensures { holders.new.items ≡ take at holders.old.items ++ from_key key (drop at holders.old.items) }
{
    while at < holders.len() && holders[at].key < key {
        holders.remove(at);
    }
}

/// The key of a channel.
#[inline(always)]
fn channel_key(from: u32, to: u32) -> u64
    ensures { result ≡ channel_key from to }
{
    (u64::from(from) + 1)
        .wrapping_mul(1 << 32)
        .wrapping_add(u64::from(to))
}

/// The key at an index among those of processes and channels.
#[inline(always)]
fn key_at(pids: &[u32], channels: &[(u32, u32)], at: usize) -> u64
    requires { at < length pids.now + length channels.now }
    ensures { slice_get (keys_among pids.now channels.now) at ≡ Some result }
{
    if at < pids.len() {
        return u64::from(pids[at]);
    }
    let (from, to) = channels[at - pids.len()];
    channel_key(from, to)
}

/// Whether those that are held up to and with an index have the first of the keys of processes and channels, and the
/// next has a higher one.
fn keeps_place(
    holders: &[HeldPriority],
    pids: &[u32],
    channels: &[(u32, u32)],
    index: usize,
) -> bool
    requires { index < length holders.now }
    ensures { result ≡ true → KeepsPlace (keys_among pids.now channels.now) holders.now index }
{
    if index >= pids.len() + channels.len() {
        return false;
    }
    let own = holders[index].key;
    if own != key_at(pids, channels, index) {
        return false;
    }
    let after = index + 1;
    if after < holders.len() && holders[after].key <= own {
        return false;
    }
    for at in 0..index {
        if holders[at].key != key_at(pids, channels, at) {
            return false;
        }
    }
    true
}

/// The priority of a key, which may be after an index: the one that it holds, or else the generator's next word. The
/// key is at the index then.
#[inline(never)]
fn seek(
    generator: &mut Lcg64Xsh32,
    holders: &mut Vec<HeldPriority>,
    at: usize,
    key: u64,
) -> Result<u32, NoMemory>
    requires { at ≤ length holders.old.items }
    ensures priority { IfOk result (λ p. p ≡ (given pcg32 key generator.old (drop at holders.old.items)).priority) }
    ensures generator { OnOk result
        (generator.new ≡ (given pcg32 key generator.old (drop at holders.old.items)).generator) }
    ensures holders { IfOk result (λ p. holders.new.items
        ≡ take at holders.old.items ++ held key p ∷ (given pcg32 key generator.old (drop at holders.old.items)).rest) }
{
    drop_below(holders, at, key);
    if at < holders.len() && holders[at].key == key {
        return Ok(holders[at].priority);
    }
    let priority = generator.next_word();
    holders.insert(at, HeldPriority { key, priority })?;
    Ok(priority)
}

/// The same; most often the key is at the index.
#[inline(always)]
fn give(
    generator: &mut Lcg64Xsh32,
    holders: &mut Vec<HeldPriority>,
    at: usize,
    key: u64,
) -> Result<u32, NoMemory>
    requires { at ≤ length holders.old.items }
    ensures priority { IfOk result (λ p. p ≡ (given pcg32 key generator.old (drop at holders.old.items)).priority) }
    ensures generator { OnOk result
        (generator.new ≡ (given pcg32 key generator.old (drop at holders.old.items)).generator) }
    ensures holders { IfOk result (λ p. holders.new.items
        ≡ take at holders.old.items ++ held key p ∷ (given pcg32 key generator.old (drop at holders.old.items)).rest) }
{
    if at < holders.len() && holders[at].key == key {
        return Ok(holders[at].priority);
    }
    seek(generator, holders, at, key)
}

impl Priorities {
    /// Those of a seed, before the first choice.
    pub fn seed(alloc: Global, seed: u64) -> Priorities
        ensures { state_of result ≡ first seed }
    {
        Priorities {
            generator: Lcg64Xsh32::seed_from_u64(seed),
            held: Vec::new(alloc),
            gone: 0,
        }
    }

    /// The one who went last has a new priority if it may go again among the same others before it; else it is held no
    /// longer, so that it draws one where it comes again.
    #[inline(always)]
    fn renew(&mut self, pids: &[u32], channels: &[(u32, u32)])
        ensures { choice pcg32 (state_of self.old) (keys_among pids.now channels.now)
            ≡ choice pcg32 (all_held self.new) (keys_among pids.now channels.now) }
    {
        let gone = self.gone;
        if gone >= self.held.len() {
            return;
        }
        if keeps_place(&self.held, pids, channels, gone) {
            self.held[gone].priority = self.generator.next_word();
        } else {
            self.held.remove(gone);
        }
    }

    /// The choice among these where all that are held are valid.
    #[inline(always)]
    fn choose_among(&mut self, pids: &[u32], channels: &[(u32, u32)]) -> Result<usize, NoMemory>
        requires { 0 < length pids.now + length channels.now }
        ensures choice { IfOk result (λ i.
            choice pcg32 (all_held self.old) (keys_among pids.now channels.now) ≡ (i, state_of self.new)) }
        ensures one { IfOk result (λ i. i < length pids.now + length channels.now) }
    {
        let count = pids.len() + channels.len();
        let mut best = 0;
        let mut highest = 0;
        for at in 0..count {
            let key = key_at(pids, channels, at);
            let priority = give(&mut self.generator, &mut self.held, at, key)?;
            if priority > highest {
                best = at;
                highest = priority;
            }
        }
        self.held.truncate(count);
        self.gone = best;
        Ok(best)
    }

    /// The next choice among these processes and then these channels, as an index from 0 on: the first of those with
    /// the highest priority. The allocation for their priorities may fail.
    pub fn choose(&mut self, pids: &[u32], channels: &[(u32, u32)]) -> Result<usize, NoMemory>
        requires { 0 < length pids.now + length channels.now }
        ensures choice { IfOk result (λ i.
            choice pcg32 (state_of self.old) (keys_among pids.now channels.now) ≡ (i, state_of self.new)) }
        ensures one { IfOk result (λ i. i < length pids.now + length channels.now) }
    {
        self.renew(pids, channels);
        self.choose_among(pids, channels)
    }
}
