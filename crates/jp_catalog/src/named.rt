ghost use Rattle.std.specs.Prelude.{◌≡◌, ◌==◌, length, slice_get};
ghost use Rattle.std.specs.Map.Iter.{deref_pair};
ghost use Rattle.std.specs.Option.{option_map, option_copied};
ghost use Rattle.jp_catalog.specs.Names.{place_of, value_of, HasDistinctNames};

use indexmap::IndexMap;
use jp_base::Txt;
use std::marker::Model;

/// Things with names, in the order in which they were put in. Contracts see the list of pairs of a name and
/// what it names. No look-up takes memory.
#[derive(Drop)]
pub struct Named<T> {
    map: IndexMap<Txt, T>,
}

impl<T> Model for Named<T> {
    ghost use Rattle.std.specs.Prelude.{ℕ, List};
    ghost use Rattle.std.specs.Coded.{coded_list, coded×, coded_ℕ};

    ghost Value = { List (List ℕ × T) };

    ghost coded = { coded_list (coded× (coded_list coded_ℕ) T.code) };

    ghost view = { λ n. n.map.entries };
}

impl<T> Named<T> {
    pub fn from_map(map: IndexMap<Txt, T>) -> Named<T>
        ensures pairs { result ≡ map.entries }
        ensures distinct { HasDistinctNames result }
    {
        let _ = map.len();
        Named { map }
    }

    pub fn len(&self) -> usize
        ensures { result ≡ length self.now }
    {
        self.map.len()
    }

    pub fn is_empty(&self) -> bool
        ensures { result ≡ (length self.now == 0) }
    {
        self.map.is_empty()
    }

    /// The pair at a place, counted from 0.
    pub fn get_index(&self, i: usize) -> Option<(&Txt, &T)>
        ensures { option_map deref_pair result ≡ slice_get self.now i }
    {
        self.map.get_index(i)
    }

    /// The place of a name, counted from 0.
    pub fn position(&self, name: &str) -> Option<usize>
        ensures { result ≡ place_of name.now self.now }
    {
        self.map.keys().position(|key| name == key.as_str())
    }

    /// What the name names.
    pub fn get(&self, name: &str) -> Option<&T>
        ensures { option_copied result ≡ value_of name.now self.now }
    {
        for (key, value) in self.map.iter() {
            if name == key.as_str() {
                return Some(value);
            }
        }
        None
    }
}
