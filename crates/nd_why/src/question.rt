//! The question why a processor does not consider something finished.
use nd_paths::Pointstamp;
use nd_view::Extent;

/// A question to processor `q`: why does it not consider everything before `point` finished?
#[derive(Debug, Drop)]
pub struct Question {
    pub q: usize,
    pub point: Pointstamp,
    pub extent: Extent,
}
