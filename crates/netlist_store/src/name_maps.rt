//! Names to numbers, in shards that stores share.

ghost use Rattle.std.specs.Prelude.{◌≡◌, ◌<◌, [], ◌∷◌, ℕ, true, false, List, None, Some, cond, length, get_or, IfOk, OnOk, OnErr};
ghost use Rattle.std.specs.Map.{lookup};
ghost use Rattle.std.specs.Str.{bytes_eq};
ghost use Rattle.timing_defs.specs.Names.{is_name};
ghost use Rattle.netlist_store.specs.Shards.{shard_of, shard_from, number_under, HasNames};

use cow_table::{CowTable, Held};
use sta_units::{Again, Memory};
use std::alloc::Global;
use std::marker::Model;
use timing_defs::{Items, Name};

/// The number of shards: a prime, so that names spread over them.
const SHARDS: usize = 131_101;

/// The numbers of a few names, in one block of memory. The first pair of a name counts. Contracts see the
/// pairs.
#[derive(Drop)]
pub(crate) struct Shard {
    numbers: Items<(Held<Name>, u32)>,
}

impl Model for Shard {
    ghost use Rattle.std.specs.Prelude.{List, ℕ};
    ghost use Rattle.netlist_store.specs.Shards.{HasNames};

    ghost Value = { List (List ℕ × ℕ) };

    ghost view = { λ s. s.numbers };

    ghost invariant = { λ s. HasNames s.numbers };
}

/// The number of a name among some pairs; none where no pair has it.
fn number_in(pairs: &[(Held<Name>, u32)], name: &Name) -> Option<u32>
    ensures { result ≡ lookup (bytes_eq name.now) pairs.now }
{
    for (other, number) in pairs {
        if *name == *other.get() {
            return Some(*number);
        }
    }
    None
}

/// A pair, and the others behind it.
fn pairs_behind(
    alloc: Global,
    name: Held<Name>,
    number: u32,
    pairs: &[(Held<Name>, u32)],
) -> Result<Items<(Held<Name>, u32)>, Memory>
    ensures { IfOk result (λ all. all ≡ (name, number) ∷ pairs.now) }
{
    let mut all = Items::with_room(alloc, pairs.len().saturating_add(1))?;
    all.push((name, number))?;
    for (other, its) in pairs {
        all.push((other.share()?, *its))?;
    }
    Ok(all)
}

/// The pairs of other names.
fn pairs_without(
    alloc: Global,
    name: &Name,
    pairs: &[(Held<Name>, u32)],
) -> Result<Items<(Held<Name>, u32)>, Memory>
    ensures { IfOk result
        (λ rest. (q : List ℕ) → lookup (bytes_eq q) rest
        ≡ cond (bytes_eq name.now q) None (lookup (bytes_eq q) pairs.now)) }
{
    let mut rest = Items::new(alloc);
    for (other, its) in pairs {
        if *name != *other.get() {
            rest.push((other.share()?, *its))?;
        }
    }
    Ok(rest)
}

impl Shard {
    fn new(alloc: Global) -> Shard
        ensures { result ≡ [] }
    {
        Shard {
            numbers: Items::new(alloc),
        }
    }

    fn number(&self, name: &Name) -> Option<u32>
        ensures { result ≡ lookup (bytes_eq name.now) self.now }
    {
        number_in(self.numbers.as_slice(), name)
    }

    /// What is no name has no number; the call does nothing.
    fn law(&self)
        ensures { HasNames self.now }
    {
        let _ = &self.numbers;
    }

    /// The shard with another number for a name.
    fn with(&self, alloc: Global, name: Held<Name>, number: u32) -> Result<Shard, Memory>
        requires { is_name name ≡ true }
        ensures { IfOk result
            (λ shard. (q : List ℕ) → lookup (bytes_eq q) shard
            ≡ cond (bytes_eq name q) (Some number) (lookup (bytes_eq q) self.now)) }
    {
        let numbers = pairs_behind(alloc, name, number, self.numbers.as_slice())?;
        Ok(Shard { numbers })
    }

    /// The shard without a name.
    fn without(&self, alloc: Global, name: &Name) -> Result<Shard, Memory>
        ensures { IfOk result
            (λ shard. (q : List ℕ) → lookup (bytes_eq q) shard
            ≡ cond (bytes_eq name.now q) None (lookup (bytes_eq q) self.now)) }
    {
        let numbers = pairs_without(alloc, name, self.numbers.as_slice())?;
        Ok(Shard { numbers })
    }
}

/// A sum from which on the next one is divided, so that most bytes of a name take no division.
const LARGE: usize = 1 << 55;

/// The shard of a name.
#[tactic(auto, unfolding(crate::specs::Shards::shard_of))]
fn shard_of(name: &[u8]) -> usize
    ensures value { result ≡ shard_of name.now }
    ensures within { result < 131101 }
{
    let mut place = 0;
    for byte in name {
        place = place * 257 + *byte as usize;
        if LARGE <= place {
            place %= SHARDS;
        }
    }
    place % SHARDS
}

/// A map from names to numbers. A copy shares each shard until one of the two changes it. Contracts
/// see the shards.
#[derive(Drop)]
pub(crate) struct NameMap {
    shards: CowTable<Held<Shard>>,
    alloc: Global,
}

impl Model for NameMap {
    ghost use Rattle.std.specs.Prelude.{List, ℕ, ◌≡◌, length};

    ghost Value = { List (List (List ℕ × ℕ)) };

    ghost view = { λ m. m.shards };

    ghost invariant = { λ m. length m.shards ≡ 131101 };
}

/// As many empty shards as a map has, all one.
fn empty_shards(alloc: Global) -> Result<CowTable<Held<Shard>>, Memory>
    ensures none { IfOk result (λ shards. (q : List ℕ) → number_under shards q ≡ None) }
    ensures len { IfOk result (λ shards. length shards ≡ 131101) }
{
    let empty = Held::of(alloc, Shard::new(alloc))?;
    let mut shards = CowTable::new(alloc);
    for _i in 0..SHARDS {
        shards.push(empty.again(alloc)?)?;
    }
    Ok(shards)
}

impl NameMap {
    /// The empty map.
    pub(crate) fn new(alloc: Global) -> Result<NameMap, Memory>
        ensures { IfOk result (λ map. (q : List ℕ) → number_under map q ≡ None) }
    {
        let shards = empty_shards(alloc)?;
        Ok(NameMap { shards, alloc })
    }

    /// Gives the map up.
    pub(crate) fn discard(self) {}

    /// The number of a name.
    pub(crate) fn number(&self, name: &Name) -> Option<u32>
        ensures { result ≡ number_under self.now name.now }
    {
        let place = shard_of(name.as_bytes());
        self.shards.get(place).get().number(name)
    }

    /// What is no name has no number; told to the proofs of callers.
    pub(crate) fn nameless(&self, bytes: &[u8])
        requires { is_name bytes.now ≡ false }
        ensures { number_under self.now bytes.now ≡ None }
    {
        let place = shard_of(bytes);
        self.shards.get(place).get().law();
    }

    /// Gives a name a number.
    pub(crate) fn put(&mut self, name: Held<Name>, number: u32) -> Result<(), Memory>
        ensures ok { OnOk result
            ((q : List ℕ) → number_under self.new q
            ≡ cond (bytes_eq name q) (Some number) (number_under self.old q)) }
        ensures err { OnErr result (self.new ≡ self.old) }
    {
        let place = shard_of(name.get().as_bytes());
        let shard = self.shards.get(place).get().with(self.alloc, name, number)?;
        self.shards.set(place, Held::of(self.alloc, shard)?)
    }

    /// Takes a name out.
    pub(crate) fn remove(&mut self, name: &Name) -> Result<(), Memory>
        ensures ok { OnOk result
            ((q : List ℕ) → number_under self.new q
            ≡ cond (bytes_eq name.now q) None (number_under self.old q)) }
        ensures err { OnErr result (self.new ≡ self.old) }
    {
        let place = shard_of(name.as_bytes());
        let shard = self.shards.get(place).get().without(self.alloc, name)?;
        self.shards.set(place, Held::of(self.alloc, shard)?)
    }

    /// A copy, which shares the shards.
    pub(crate) fn copy(&self) -> Result<NameMap, Memory>
        ensures { IfOk result (λ map. map ≡ self.now) }
    {
        let shards = self.shards.copy()?;
        Ok(NameMap {
            shards,
            alloc: self.alloc,
        })
    }
}
