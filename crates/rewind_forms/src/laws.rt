//! How steps and their JSON objects are related: clauses of a function without code, to be called if the clauses are
//! needed.
ghost use Rattle.rewind_forms.specs.Laws.{ObjectsAreReadBack, ObjectsDetermineSteps, ReadStepsFit};

/// States that reading the object of a step that fits a graph gives the step, that two such steps with the same object
/// are therefore equal, and that each step that is read fits.
pub fn steps_are_their_objects()
    ensures back { ObjectsAreReadBack }
    ensures one { ObjectsDetermineSteps }
    ensures fits { ReadStepsFit }
{}
