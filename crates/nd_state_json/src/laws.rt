//! A law of the values of states: a function without code, to be called if its clause is needed.
ghost use Rattle.nd_state_json.specs.Determined.{ValuesDetermineStates};

/// States that two states over one graph are the same if their values are: the reply to `state` differs if the states do.
pub fn values_determine_states()
    ensures { ValuesDetermineStates }
{}
