//! The fields of a request or an answer: numbers, each with a width.

ghost use Rattle.std.specs.Prelude.{◌≡◌, ◌<◌, ◌≤◌, [], ◌∷◌, ◌++◌, length, replicate};
ghost use Rattle.drm_table.specs.Fields.{number_in};
ghost use Rattle.drm_table.specs.declared.fields.Width.TheVariants as widths;

use crate::calls::CallKind;
use arrayvec::ArrayVec;
use std::marker::Model;

/// The width of a field.
///
/// # Examples
///
/// ```rust
/// use drm_table::Width;
///
/// assert!(rt; Width::of_ids(2) == [Width::U32, Width::U32].as_slice());
/// ```
#[derive(Clone, Copy, PartialEq, Debug)]
pub enum Width {
    /// 4 bytes.
    U32,
    /// 8 bytes.
    U64,
}

/// A number in a field of its width.
#[derive(Clone, Copy, PartialEq, Debug)]
pub enum Field {
    U32(u32),
    U64(u64),
}

impl Default for Field {
    fn default() -> Field {
        Field::U32(0)
    }
}

impl Field {
    /// Returns the number of the field.
    pub fn number(self) -> u64
        ensures { result ≡ number_in self }
    {
        match self {
            Field::U32(number) => u64::from(number),
            Field::U64(number) => number,
        }
    }
}

/// The layout of the fields of a row.
///
/// # Examples
///
/// ```rust
/// use drm_table::{CallKind, Layout};
///
/// assert!(rt; matches!(CallKind::CreateLease.layout(), Layout::Ids));
/// ```
#[derive(Clone, Copy)]
pub enum Layout {
    /// Numbers of these widths, 5 at most.
    Numbers(&'static [Width]),
    /// Ids of 4 bytes each, 32 at most.
    Ids,
}

impl Layout {
    /// The most ids that a call can name.
    pub const MOST_IDS: usize = 32;
}

const ID_WIDTHS: [Width; Layout::MOST_IDS] = [Width::U32; Layout::MOST_IDS];

impl Width {
    /// Returns the widths of `count` ids. `count` must be at most 32.
    pub fn of_ids(count: usize) -> &'static [Width]
        requires { count ≤ 32 }
        ensures { result.now ≡ replicate count widths.U32 }
    {
        ID_WIDTHS.split_at(count).0
    }
}

/// A list of at most `N` fields. Contracts see the list of fields.
///
/// # Examples
///
/// ```rust
/// use drm_table::{Field, Fields};
///
/// let fields: Fields<5> = Fields::of(&[Field::U32(1), Field::U64(2)]);
/// assert!(rt; fields.as_slice().len() == 2);
/// ```
#[derive(PartialEq, Debug, Drop)]
pub struct Fields<const N: usize> {
    fields: ArrayVec<Field, N>,
}

impl<const N: usize> Model for Fields<N> {
    ghost use Rattle.std.specs.Prelude.{List};
    ghost use Rattle.drm_table.specs.declared.fields.Field.{Field};

    ghost Value = { List Field };

    ghost view = { λ fields. fields.fields.items };

    ghost inverse = { λ fields. record { fields = record { items = fields } } };
}

impl<const N: usize> Fields<N> {
    /// Creates an empty list.
    pub fn new() -> Fields<N>
        ensures { result ≡ [] }
    {
        Fields {
            fields: ArrayVec::new(),
        }
    }

    /// Creates a list of these fields, `N` at most.
    pub fn of(fields: &[Field]) -> Fields<N>
        requires { length fields.now ≤ N }
        ensures { result ≡ fields.now }
    {
        let mut copy = ArrayVec::new();
        let _ = copy.try_extend_from_slice(fields);
        Fields { fields: copy }
    }

    /// Writes these fields to an empty list, `N` at most, and returns the kind whose fields they are.
    pub(crate) fn put(&mut self, kind: CallKind, fields: &[Field]) -> CallKind
        requires empty { self.old ≡ [] }
        requires few { length fields.now ≤ N }
        ensures kind { result ≡ kind }
        ensures fields { self.new ≡ fields.now }
    {
        let _ = self.fields.try_extend_from_slice(fields);
        kind
    }

    /// Appends a field. The list must have fewer than `N` fields.
    pub fn push(&mut self, field: Field)
        requires { length self.old < N }
        ensures { self.new ≡ self.old ++ field ∷ [] }
    {
        self.fields.push(field);
    }

    /// Returns the fields in order.
    pub fn as_slice(&self) -> &[Field]
        ensures fields { result.now ≡ self.now }
        ensures within { length self.now ≤ N }
    {
        self.fields.as_slice()
    }
}
