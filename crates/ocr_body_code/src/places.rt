// The names that were met in a function so far, each with its place among them.
ghost use Rattle.ocr_body_code.specs.Resolved.{Grew, IsPlace};

use ocr_base::NoMemory;
use ocr_program_tree::Name;
use std::alloc::Global;
use std::collections::BTreeMap;
use std::marker::Model;

/// Names in the order in which they were met, all different, and an index of their places.
/// Contracts see them as the list of the names.
#[derive(Drop)]
pub struct Places<'a> {
    alloc: Global,
    names: Vec<Name>,
    places: BTreeMap<&'a [u8], usize>,
}

impl<'a> Model for Places<'a> {
    ghost use Rattle.std.specs.Prelude.{List, ℕ};
    ghost use Rattle.ocr_body_code.specs.Places.{ArePlaces};

    ghost Value = { List (List ℕ) };

    ghost view = { λ p. p.names.items };

    ghost invariant = { λ p. ArePlaces p.names.items p.places };
}

impl<'a> Places<'a> {
    ghost use Rattle.std.specs.Prelude.{◌≡◌, [], true, false, bytes_eq, IfOk, OnOk, IfSome, IfNone};
    ghost use Rattle.std.specs.List.{list_any};
    ghost use Rattle.ocr_body_code.specs.Code.{are_distinct};

    /// No names.
    pub fn new(alloc: Global) -> Self
        ensures { result ≡ [] }
    {
        Places {
            alloc,
            names: Vec::new(alloc),
            places: BTreeMap::new(alloc),
        }
    }

    /// The place of a name, which is a new one where the name was not met before.
    pub fn place(&mut self, name: &'a Name) -> Result<usize, NoMemory>
        ensures grew { OnOk result (Grew self.old self.new) }
        ensures ok { IfOk result (λ place. IsPlace self.new place name.now) }
    {
        if let Some(place) = self.known(name) {
            return Ok(place);
        }
        self.add(name)
    }

    // The place of a name that was met before.
    fn known(&self, name: &Name) -> Option<usize>
        ensures some { IfSome result (λ place. IsPlace self.now place name.now) }
        ensures none { IfNone result (list_any (bytes_eq name.now) self.now ≡ false) }
    {
        self.places.get(name.as_bytes()).copied()
    }

    // The place of a name that was not met before.
    fn add(&mut self, name: &'a Name) -> Result<usize, NoMemory>
        requires new { list_any (bytes_eq name.now) self.old ≡ false }
        ensures grew { OnOk result (Grew self.old self.new) }
        ensures ok { IfOk result (λ place. IsPlace self.new place name.now) }
    {
        if self.names.reserve(1).is_err() {
            return Err(NoMemory);
        }
        let Ok(text) = Vec::from_slice(self.alloc, name.as_bytes()) else {
            return Err(NoMemory)
        };
        let place = self.names.len();
        if self.places.insert(name.as_bytes(), place).is_err() {
            return Err(NoMemory);
        }
        self.names.push_reserved(Name::from_vec(text));
        Ok(place)
    }

    /// The names, each at its place.
    pub fn into_names(self) -> Vec<Name>
        ensures names { result.items ≡ self.entry }
        ensures distinct { are_distinct result.items ≡ true }
    {
        self.names
    }
}
