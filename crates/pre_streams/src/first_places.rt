ghost use Rattle.std.specs.Prelude.{◌≡◌, ◌==◌, ℕ, None, Some, IfOk, OnOk, unwrap_or, if◌then◌else◌};
ghost use Rattle.std.specs.BTreeMap.{get};
ghost use Rattle.std.specs.Option.{option_or};
ghost use Rattle.std.specs.Ordering.{nat_cmp};
ghost use Rattle.pre_table.specs.declared.values.Whole.{Whole};
ghost use Rattle.pre_table.specs.Values.{same_whole};
ghost use Rattle.pre_streams.specs.FirstPlaces.{place_of};

use pre_table::Whole;
use std::alloc::{AllocError, Global};
use std::collections::BTreeMap;

/// The places at which numbers came first, each of which is found in about as many steps as the logarithm of their count.
#[derive(Drop)]
pub(crate) struct FirstPlaces {
    naturals: BTreeMap<u64, usize>,
    negatives: BTreeMap<u64, usize>,
}

fn first_in(
    places: &mut BTreeMap<u64, usize>,
    number: u64,
    place: usize,
) -> Result<usize, AllocError>
    ensures place { IfOk result (λ first. first ≡ unwrap_or (get nat_cmp places.old number) place) }
    ensures kept { OnOk result ((q : ℕ) → get nat_cmp places.new q ≡ option_or (get nat_cmp places.old q) (if number == q then Some place else None)) }
{
    if let Some(first) = places.get(&number) {
        return Ok(*first);
    }
    places.insert(number, place)?;
    Ok(place)
}

impl FirstPlaces {
    /// No places.
    pub(crate) fn new(alloc: Global) -> FirstPlaces
        ensures { (w : Whole) → place_of result w ≡ None }
    {
        FirstPlaces {
            naturals: BTreeMap::new(alloc),
            negatives: BTreeMap::new(alloc),
        }
    }

    /// The place at which a number came first: this one, if it didn't come before.
    pub(crate) fn first(&mut self, number: Whole, place: usize) -> Result<usize, AllocError>
        ensures place { IfOk result (λ first. first ≡ unwrap_or (place_of self.old number) place) }
        ensures kept { OnOk result ((w : Whole) → place_of self.new w ≡ option_or (place_of self.old w) (if same_whole number w then Some place else None)) }
    {
        match number {
            Whole::Natural(natural) => first_in(&mut self.naturals, natural, place),
            Whole::Negative(below) => first_in(&mut self.negatives, below, place),
        }
    }
}
