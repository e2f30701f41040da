// What has happened to each node of a case.
#![tactic(auto)]

ghost use Rattle.std.specs.Prelude.{◌≡◌, List, length, replicate, slice_set};
ghost use Rattle.ids.specs.Sets.{has};
ghost use Rattle.model.specs.declared.Fact.{Fact};
ghost use Rattle.model.specs.declared.Fact.TheVariants.{Nothing};
ghost use Rattle.model.specs.Signals.{fact_of};
ghost use Rattle.facts.specs.Facts.{reset};

use bounded::{get_or, put};
use ids::IdSet;
use model::Fact;
use std::marker::Model;

// A fact for each id 0 to 63. Ids that a schema has not have the fact nothing. An array, since steps take no memory.
#[derive(Clone, Copy)]
pub struct Facts {
    values: [Fact; 64],
}

// A clause sees the facts by id, from id 0 on.
impl Model for Facts {
    ghost Value = { List Fact };

    ghost view = { λ f. f.values };

    ghost invariant = { λ f. length f.values ≡ 64 };

    ghost inverse = { λ fs. record { values = fs } };
}

// The fact of a node among facts by id; past their end there is none.
pub fn fact_of(values: &[Fact], id: u8) -> Fact
    ensures { result ≡ fact_of values.now id }
{
    get_or(values, usize::from(id), Fact::Nothing)
}

impl Facts {
    // Nothing has happened yet.
    pub fn none() -> Facts
        ensures { result ≡ replicate 64 Nothing }
    {
        Facts {
            values: [Fact::Nothing; 64],
        }
    }

    // The fact of a node; of an id above 63 there is none.
    pub fn of(&self, id: u8) -> Fact
        ensures { result ≡ fact_of self.now id }
    {
        fact_of(&self.values, id)
    }

    // Notes what happened to a node; an id above 63 is none.
    pub fn note(&mut self, id: u8, fact: Fact)
        ensures { self.new ≡ slice_set self.old id fact }
    {
        put(&mut self.values, usize::from(id), fact);
    }

    // Nothing has happened to these nodes any more.
    pub fn forget(&mut self, ids: IdSet)
        ensures { self.new ≡ reset (has ids) self.old }
    {
        for (id, fact) in self.values.iter_mut().enumerate() {
            // below 64, as the check proves: a cast, since `u8::try_from` would answer an error that can't come
            if ids.has(id as u8) {
                *fact = Fact::Nothing;
            }
        }
    }

    pub fn as_slice(&self) -> &[Fact]
        ensures facts { result.now ≡ self.now }
        ensures long { length result.now ≡ 64 }
    {
        &self.values
    }
}
