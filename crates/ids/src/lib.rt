// Sets of node ids.
#![tactic(auto)]

ghost use Rattle.std.specs.Prelude.{◌≡◌, ℕ, Bool, false, not, ◌&&◌, ◌||◌, ◌==◌, nat_lt};
ghost use Rattle.ids.specs.Counts.{how_many};
ghost use Rattle.ids.specs.Sets.{has, empty, only, with_id, is_id, union, intersection, difference, LeastIn};

// A set of ids 0 to 63; an id above 63 is never in one.
#[derive(Clone, Copy, PartialEq, Eq)]
pub struct IdSet {
    bits: u64,
}

impl IdSet {
    // Named, since a default would not say that it is empty.
    pub fn empty() -> IdSet
        ensures value { result ≡ empty }
        ensures members { (i : ℕ) → has result i ≡ false }
    {
        IdSet { bits: 0 }
    }

    // The set of one id, or the empty set for an id above 63.
    pub fn only(id: u8) -> IdSet
        ensures value { result ≡ only id }
        ensures members { (i : ℕ) → has result i ≡ (i == id && nat_lt id 64) }
    {
        IdSet {
            bits: if id < 64 { 1 << id } else { 0 },
        }
    }

    pub fn has(self, id: u8) -> bool
        ensures { result ≡ has self id }
    {
        id < 64 && (self.bits >> id) % 2 == 1
    }

    pub fn union(self, other: IdSet) -> IdSet
        ensures value { result ≡ union self other }
        ensures members { (i : ℕ) → has result i ≡ (has self i || has other i) }
    {
        IdSet {
            bits: self.bits | other.bits,
        }
    }

    // The set with one more id, if one is given; an id above 63 changes nothing.
    pub fn with(self, id: Option<u8>) -> IdSet
        ensures value { result ≡ with_id self id }
        ensures members { (i : ℕ) → has result i ≡ (has self i || (nat_lt i 64 && is_id id i)) }
    {
        id.map_or(self, |id| self.union(IdSet::only(id)))
    }

    pub fn intersection(self, other: IdSet) -> IdSet
        ensures value { result ≡ intersection self other }
        ensures members { (i : ℕ) → has result i ≡ (has self i && has other i) }
    {
        IdSet {
            bits: self.bits & other.bits,
        }
    }

    // The ids of this set that are not in the other: those in both are struck out.
    pub fn difference(self, other: IdSet) -> IdSet
        ensures value { result ≡ difference self other }
        ensures members { (i : ℕ) → has result i ≡ (has self i && not (has other i)) }
    {
        IdSet {
            bits: self.bits ^ self.intersection(other).bits,
        }
    }

    // The least id in the set.
    #[tactic(auto, using(crate::proofs::Lowest::none_has))]
    pub fn least(self) -> Option<u8>
        ensures { LeastIn self result }
    {
        if self.bits == 0 {
            return None;
        }
        // below 64, as the check proves: a cast, since `u8::try_from` would answer an error that can't come
        Some(self.bits.trailing_zeros() as u8)
    }

    // How many ids are in the set.
    pub fn len(self) -> usize
        ensures { result ≡ how_many (has self) }
    {
        // by a cast: there is no `From` from u32
        self.bits.count_ones() as usize
    }
}
