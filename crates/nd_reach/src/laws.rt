//! Laws of forms.
ghost use Rattle.nd_reach.specs.Forms.{FormsDetermineStates};

/// Two states over one graph with as many processors are the same if their forms are.
pub fn forms_determine_states()
    ensures { FormsDetermineStates }
{}
