//! The numbers of the places that requests go to.
ghost use Rattle.std.specs.Prelude.{◌≡◌, ℕ, ◌<◌, ◌==◌, None, Some, IfOk, OnOk, if◌then◌else◌};
ghost use Rattle.cluster_steps.specs.Numbers.{HasPlace, found};

use indexmap::IndexMap;
use std::alloc::{AllocError, Global};

/// A list of no more places than these is short.
const FEW: usize = 64;

/// The numbers of the places in use.
///
/// A list of all places is the quicker, but grows with those that are not used. So it serves where it is short, or
/// no longer than the requests; otherwise a map has the places in use alone.
#[derive(Drop)]
pub(crate) enum Numbers {
    ByPlace(Vec<Option<usize>>),
    InUse(IndexMap<usize, usize>),
}

impl Numbers {
    /// No numbers yet, for requests to some of `count` places.
    pub(crate) fn new(alloc: Global, count: usize, requests: usize) -> Result<Numbers, AllocError>
        ensures unused { IfOk result (λ table. (k : ℕ) → found table k ≡ None) }
        ensures places { IfOk result (λ table. (k : ℕ) → k < count → HasPlace table k) }
    {
        if count <= requests.max(FEW) {
            Ok(Numbers::ByPlace(vec![in alloc; None; count]?))
        } else {
            Ok(Numbers::InUse(IndexMap::new(alloc)))
        }
    }

    /// The number of a place, if it has one.
    pub(crate) fn get(&self, link: usize) -> Option<usize>
        requires { HasPlace self.now link }
        ensures { result ≡ found self.now link }
    {
        match self {
            Numbers::ByPlace(list) => list[link],
            Numbers::InUse(table) => table.get(&link).copied(),
        }
    }

    /// Gives a place a number.
    pub(crate) fn insert(&mut self, link: usize, number: usize) -> Result<(), AllocError>
        requires { HasPlace self.old link }
        ensures given { OnOk result ((k : ℕ)
            → found self.new k ≡ (if k == link then Some number else found self.old k)) }
        ensures places { OnOk result ((k : ℕ) → HasPlace self.old k → HasPlace self.new k) }
    {
        match self {
            Numbers::ByPlace(list) => {
                list[link] = Some(number);
                Ok(())
            }
            Numbers::InUse(table) => {
                table.insert(link, number)?;
                Ok(())
            }
        }
    }
}
