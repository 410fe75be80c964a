ghost use Rattle.std.specs.Prelude.{◌≡◌, ◌<◌, ◌≤◌, ◌+◌, ◌*◌, ◌++◌, ◌∷◌, [], All, IsTrue, OnOk, drop, length, take};
ghost use Rattle.std.specs.Bool.{OnFalse, OnTrue};
ghost use Rattle.std.specs.List.{slice_index_or};
ghost use Rattle.jp_items.specs.Numbers.{added};

use jp_base::Memory;
use std::alloc::Global;
use std::marker::Model;

/// The row numbers of tuples, all in one list: for each leaf of a join tree the number of a row, from 0, or None where
/// the relation is absent.
#[derive(Drop)]
pub struct Numbers {
    width: usize,
    count: usize,
    flat: Vec<Option<u64>>,
}

impl Model for Numbers {
    ghost use Rattle.std.specs.Prelude.{◌≡◌, ◌*◌};
    ghost use Rattle.std.specs.Prelude.{length as size_of};
    ghost use Rattle.jp_items.specs.Numbers.{Numbered, split};

    ghost Value = { Numbered };

    ghost view = { λ t. record { width = t.width; list = split t.width t.count t.flat.items } };

    ghost invariant = { λ t. size_of t.flat.items ≡ t.count * t.width };
}

impl Numbers {
    /// No tuples, of so many leaves.
    pub fn new(alloc: Global, width: usize) -> Numbers
        ensures width { result.width ≡ width }
        ensures none { result.list ≡ [] }
    {
        Numbers {
            width,
            count: 0,
            flat: Vec::new(alloc),
        }
    }

    /// For how many leaves each tuple has a number.
    pub fn width(&self) -> usize
        ensures width { result ≡ self.now.width }
        ensures whole { All (λ tuple. length tuple ≡ self.now.width) self.now.list }
    {
        self.width
    }

    /// Whether this is the one tuple of no leaves.
    pub fn is_alone(&self) -> bool
        ensures { IsTrue result → self.now ≡ record { width = 0; list = [] ∷ [] } }
    {
        self.width == 0 && self.count == 1
    }

    pub fn len(&self) -> usize
        ensures { result ≡ length self.now.list }
    {
        self.count
    }

    /// The numbers of a tuple, counted from 0.
    pub fn tuple(&self, at: usize) -> &[Option<u64>]
        requires { at < length self.now.list }
        ensures numbers { result.now ≡ slice_index_or self.now.list at [] }
        ensures whole { length result.now ≡ self.now.width }
    {
        piece(self.flat.as_slice(), at, self.width)
    }

    /// Adds a tuple at the end, in two pieces.
    pub fn push(&mut self, first: &[Option<u64>], second: &[Option<u64>]) -> Result<(), Memory>
        requires { length first.now + length second.now ≡ self.now.width }
        ensures width { self.new.width ≡ self.old.width }
        ensures more { OnOk result (self.new ≡ added self.old (first.now ++ second.now)) }
    {
        let Some(count) = self.count.checked_add(1) else {
            return Err(Memory);
        };
        if !extended(&mut self.flat, first, second) {
            return Err(Memory);
        }
        self.count = count;
        Ok(())
    }
}

/// Adds both lists at the end, or neither. Whether there was memory for them.
fn extended(flat: &mut Vec<Option<u64>>, first: &[Option<u64>], second: &[Option<u64>]) -> bool
    ensures added { OnTrue result (flat.new.items ≡ flat.old.items ++ first.now ++ second.now) }
    ensures same { OnFalse result (flat.new.items ≡ flat.old.items) }
{
    let before = flat.len();
    if flat.extend_from_slice(first).is_err() {
        return false;
    }
    match flat.extend_from_slice(second) {
        Ok(()) => true,
        Err(_) => {
            flat.truncate(before);
            false
        }
    }
}

/// The piece with the number, from 0, of a list of pieces of one width.
fn piece(flat: &[Option<u64>], at: usize, width: usize) -> &[Option<u64>]
    requires { at * width + width ≤ length flat.now }
    ensures { result.now ≡ take width (drop (at * width) flat.now) }
{
    let start = at * width;
    &flat[start..start + width]
}
