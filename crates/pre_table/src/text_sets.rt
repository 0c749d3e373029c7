ghost use Rattle.std.specs.Prelude.{◌≡◌, ℕ, Bool, false, List, [], ◌∷◌, ◌++◌, not, ◌&&◌, ◌||◌, IfOk, OnOk};
ghost use Rattle.std.specs.List.{list_any};
ghost use Rattle.std.specs.Str.{bytes_eq};
ghost use Rattle.pre_table.specs.TextSets.{IsSetOf, HasPairs};

use std::alloc::{AllocError, Global};
use std::collections::BTreeSet;

/// A set of texts, in which one is found in about as many steps as the logarithm of their count.
#[derive(Drop)]
pub struct TextSet {
    alloc: Global,
    texts: BTreeSet<String>,
}

impl TextSet {
    /// The empty set.
    pub fn new(alloc: Global) -> TextSet
        ensures { IsSetOf result [] }
    {
        TextSet {
            alloc,
            texts: BTreeSet::new(alloc),
        }
    }

    /// Whether a text is one of them.
    pub fn has(&self, text: &str) -> bool
        ensures { (texts : List (List ℕ)) → IsSetOf self.now texts → result ≡ list_any (λ t. bytes_eq t text.now) texts }
    {
        self.texts.contains(text)
    }

    /// Adds a text: whether it wasn't one of them before.
    pub fn add(&mut self, text: &str) -> Result<bool, AllocError>
        ensures added { (texts : List (List ℕ)) → IsSetOf self.old texts → OnOk result (IsSetOf self.new (texts ++ text.now ∷ [])) }
        ensures first { (texts : List (List ℕ)) → IsSetOf self.old texts → IfOk result (λ first. first ≡ not (list_any (λ t. bytes_eq t text.now) texts)) }
    {
        let key = String::from_str(self.alloc, text)?;
        let first = self.texts.insert(key)?;
        Ok(first)
    }
}

/// A set of pairs of texts, in which one is found in about as many steps as the logarithm of their count.
#[derive(Drop)]
pub struct PairSet {
    alloc: Global,
    pairs: BTreeSet<(String, String)>,
}

impl PairSet {
    /// The empty set.
    pub fn new(alloc: Global) -> PairSet
        ensures { HasPairs result (λ a b. false) }
    {
        PairSet {
            alloc,
            pairs: BTreeSet::new(alloc),
        }
    }

    /// Adds a pair: whether it wasn't one of them before.
    pub fn add(&mut self, first: &str, second: &str) -> Result<bool, AllocError>
        ensures added { (has : List ℕ → List ℕ → Bool) → HasPairs self.old has → OnOk result (HasPairs self.new (λ a b. has a b || (bytes_eq first.now a && bytes_eq second.now b))) }
        ensures first { (has : List ℕ → List ℕ → Bool) → HasPairs self.old has → IfOk result (λ added. added ≡ not (has first.now second.now)) }
    {
        let left = String::from_str(self.alloc, first)?;
        let right = String::from_str(self.alloc, second)?;
        let added = self.pairs.insert((left, right))?;
        Ok(added)
    }
}
