//! The links of chains that an earlier row has.

use crate::rows::FrontRow;
use drm_rights::{ChainEnd, Link, Marks};
use std::alloc::{AllocError, Global};

/// The number of last links of a chain that its row always has.
const KEPT: usize = 4;

/// The row that has the link of a step.
#[derive(Clone, Copy)]
struct Place {
    client: u64,
    handle: u64,
}

/// For each step, the row that has it as a link.
#[derive(Drop)]
pub(crate) struct Fronts {
    marks: Vec<bool>,
    places: Vec<Option<Place>>,
}

/// Returns the place of a step among all, by its number.
fn place_of(step: u64) -> usize {
    usize::try_from(step.saturating_sub(1)).unwrap_or(usize::MAX)
}

impl Fronts {
    /// Returns the fronts of `steps` steps, none of which is in a row.
    pub(crate) fn new(alloc: Global, steps: usize) -> Result<Fronts, AllocError> {
        let mut marks = Vec::new(alloc);
        marks.resize(steps, false)?;
        let mut places = Vec::new(alloc);
        places.resize(steps, None)?;
        Ok(Fronts { marks, places })
    }

    /// Returns the links that the next row leaves out.
    pub(crate) fn marks(&self) -> Marks<'_> {
        Marks {
            steps: self.marks.as_slice(),
            kept: KEPT,
        }
    }

    /// Returns the row that has the first links of a chain, if they are left out.
    pub(crate) fn front_of(&self, end: &ChainEnd) -> Option<FrontRow> {
        let left = end.left.as_ref()?;
        let Place { client, handle } = (*self.places.get(place_of(left.step))?)?;
        Some(FrontRow {
            client,
            handle,
            step: left.step,
        })
    }

    fn mark(&mut self, link: &Link, place: Place) {
        let at = place_of(link.step);
        if let Some(slot) = self.places.get_mut(at) {
            if slot.is_none() {
                *slot = Some(place);
            }
        }
        if let Some(mark) = self.marks.get_mut(at) {
            *mark = true;
        }
    }

    /// Records the links in the row of a handle.
    pub(crate) fn note(&mut self, client: u64, handle: u64, links: &[Link]) {
        let place = Place { client, handle };
        for link in links {
            self.mark(link, place);
        }
    }
}
