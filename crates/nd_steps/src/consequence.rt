//! The consequence of a take.
ghost use Rattle.std.specs.Prelude.{◌≡◌};
ghost use Rattle.nd_steps.specs.Flows.{past_action, come_key};

use nd_graph::Action;
use nd_processor::ValueAt;
use nd_time::Timestamp;

/// The consequence of a take: what arrives for the record that is taken.
#[derive(Clone, Copy, Debug, PartialEq, Eq, Drop)]
pub enum Consequence {
    Nothing,
    /// A record on an edge, at processor `p`. Its time is that of the taken record, after the action.
    Record {
        action: Action,
        p: u32,
        edge: u32,
        value: i64,
    },
    /// A sink vertex counts the value once more.
    Count {
        vertex: usize,
    },
}

// Applies an action to a time. If the action does not apply, the time does not change.
fn pass(action: Action, time: &mut Timestamp)
    ensures { time.new ≡ past_action action time.old }
{
    let past = match action {
        Action::Identity => return,
        Action::Ingress => time.ingress(),
        Action::Egress => time.egress(),
        Action::Feedback if time.depth() > 0 => time.feedback().ok(),
        Action::Feedback => None,
    };
    if let Some(past) = past {
        *time = past;
    }
}

impl Consequence {
    // Returns the record that arrives for `gone`, or `gone` itself if no record arrives.
    pub(crate) fn key(&self, gone: &ValueAt) -> ValueAt
        ensures { result ≡ come_key gone.now self.now }
    {
        let mut key = gone.copy();
        if let Consequence::Record {
            action,
            p: _,
            edge,
            value,
        } = self
        {
            key.point.location = *edge as usize;
            pass(*action, &mut key.point.time);
            key.value = *value;
        }
        key
    }
}
