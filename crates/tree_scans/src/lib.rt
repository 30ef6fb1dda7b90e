//! Scans in flight over the pages of a tree.
//!
//! A scan walks down to the leaf where its range begins, as any call walks to its leaf and with the same repairs, and keeps what it
//! read there. From then on each step gives the next pair of that leaf within the bounds and touches no page. If the leaf has no more
//! of them the scan walks from the root again, to where the leaf ended or, backwards, to just below where it began. So a pair that
//! changes in between may be given as it was when its leaf was read.
#![tactic(auto)]

mod scan;

pub use scan::advance;
