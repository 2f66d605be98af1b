//! An entry: a value and its marks.

ghost use Rattle.std.specs.Prelude.{◌≡◌, Some};
ghost use Rattle.drm_index_array.specs.Marked.{mark_of, with_mark};
ghost use Rattle.drm_index_array.specs.Tree.{is_sought};
ghost use Rattle.drm_index_array.specs.Slots.{marked};

use crate::marks::Mark;
use crate::words::Sought;

#[derive(Drop)]
pub struct Entry<T> {
    pub value: T,
    pub m0: bool,
    pub m1: bool,
    pub m2: bool,
}

impl<T> Entry<T> {
    ghost use Rattle.std.specs.Borrow.{sem};
    ghost use Rattle.drm_index_array.specs.Lends.{lends_entry};

    pub fn has(&self, mark: Mark) -> bool
        ensures { result ≡ mark_of (marked self.now) mark }
    {
        match mark {
            Mark::M0 => self.m0,
            Mark::M1 => self.m1,
            Mark::M2 => self.m2,
        }
    }

    pub fn is_sought(&self, sought: Sought) -> bool
        ensures { result ≡ is_sought sought (Some (marked self.now)) }
    {
        match sought {
            Sought::Taken => true,
            Sought::Vacant => false,
            Sought::Marked(mark) => self.has(mark),
        }
    }

    /// Sets or clears the mark.
    pub fn write_mark(&mut self, mark: Mark, on: bool)
        ensures { marked self.new ≡ with_mark (marked self.old) mark on }
    {
        match mark {
            Mark::M0 => self.m0 = on,
            Mark::M1 => self.m1 = on,
            Mark::M2 => self.m2 = on,
        }
    }

    /// Returns the value for writing.
    pub fn value_mut(&mut self) -> &mut T
        ensures* lends { sem 𝓛 (lends_entry T.row self.entry result) }
        ensures value { self.old.value ≡ result.now }
    {
        &mut self.value
    }
}
