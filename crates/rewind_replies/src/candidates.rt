//! The steps that a run could try.
ghost use Rattle.rewind_replies.specs.Candidates.{candidate_data};
ghost use Rattle.rewind_replies.specs.NoFloats.{no_float-candidate};

use crate::object;
use crate::shown::{Names, Shown};
use nd_cluster::Candidate;
use serde::Serializer;

/// A step as the object of its line and, if it is refused, the reply that the line would get.
impl Shown for Candidate {
    ghost shown = { candidate_data };

    ghost exact = { no_float-candidate };

    fn send<S: Serializer, N: Names>(&self, out: &mut S, names: &N) -> Result<(), S::Error> {
        let step = &self.step;
        match &self.refusal {
            None => object! {"step": step}.send(out, names),
            Some(refusal) => object! {"refused": refusal, "step": step}.send(out, names),
        }
    }
}
