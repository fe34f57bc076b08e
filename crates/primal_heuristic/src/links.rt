// The pairs of one train.
use crate::prices::Prices;
use std::alloc::{AllocError, Global};

/// A pair of a train: its place in the list of pairs, and the other train.
#[derive(Clone, Copy, Drop)]
pub(crate) struct Link {
    pub(crate) place: u16,
    pub(crate) other: usize,
}

impl Link {
    pub(crate) fn all(
        alloc: Global,
        prices: &Prices,
        train: usize,
    ) -> Result<Vec<Link>, AllocError> {
        let mut links = Vec::new(alloc);
        for place in prices.places(train) {
            links.push(Link {
                place: *place,
                other: prices.other(*place, train),
            })?;
        }
        Ok(links)
    }

    /// Which link is the pair at that place.
    pub(crate) fn find(links: &[Link], place: u16) -> Option<usize> {
        links.iter().position(|link| link.place == place)
    }
}
