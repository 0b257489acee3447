//! Arrays of a fixed length, whose items may be of several types.
ghost use Rattle.std.specs.Prelude.{◌≡◌, ◌∷◌, [], refl};
ghost use Rattle.nd_state_json.specs.StateText.{row};

use crate::shown::{Names, Shown};
use serde::Serializer;

impl<A: Shown, B: Shown> Shown for (A, B) {
    ghost shown = { λ g t. row (A.shown g t.0 ∷ B.shown g t.1 ∷ []) };

    ghost exact = { λ g t. rw (A.exact g t.0, B.exact g t.1) refl };

    fn send<S: Serializer, N: Names>(&self, out: &mut S, names: &N) -> Result<(), S::Error> {
        out.begin_seq(Some(2))?;
        self.0.send(out, names)?;
        self.1.send(out, names)?;
        out.end_seq()
    }
}

impl<A: Shown, B: Shown, C: Shown> Shown for (A, B, C) {
    ghost shown = { λ g t. row (A.shown g t.0 ∷ B.shown g t.1 ∷ C.shown g t.2 ∷ []) };

    ghost exact = { λ g t. rw (A.exact g t.0, B.exact g t.1, C.exact g t.2) refl };

    fn send<S: Serializer, N: Names>(&self, out: &mut S, names: &N) -> Result<(), S::Error> {
        out.begin_seq(Some(3))?;
        self.0.send(out, names)?;
        self.1.send(out, names)?;
        self.2.send(out, names)?;
        out.end_seq()
    }
}

impl<A: Shown, B: Shown, C: Shown, D: Shown> Shown for (A, B, C, D) {
    ghost shown = { λ g t.
        row (A.shown g t.0 ∷ B.shown g t.1 ∷ C.shown g t.2 ∷ D.shown g t.3 ∷ []) };

    ghost exact = { λ g t. rw (A.exact g t.0, B.exact g t.1, C.exact g t.2, D.exact g t.3) refl };

    fn send<S: Serializer, N: Names>(&self, out: &mut S, names: &N) -> Result<(), S::Error> {
        out.begin_seq(Some(4))?;
        self.0.send(out, names)?;
        self.1.send(out, names)?;
        self.2.send(out, names)?;
        self.3.send(out, names)?;
        out.end_seq()
    }
}

impl<A: Shown, B: Shown, C: Shown, D: Shown, E: Shown> Shown for (A, B, C, D, E) {
    ghost shown = { λ g t.
        row (A.shown g t.0 ∷ B.shown g t.1 ∷ C.shown g t.2 ∷ D.shown g t.3 ∷ E.shown g t.4 ∷ []) };

    ghost exact = { λ g t.
        rw (A.exact g t.0, B.exact g t.1, C.exact g t.2, D.exact g t.3, E.exact g t.4) refl };

    fn send<S: Serializer, N: Names>(&self, out: &mut S, names: &N) -> Result<(), S::Error> {
        out.begin_seq(Some(5))?;
        self.0.send(out, names)?;
        self.1.send(out, names)?;
        self.2.send(out, names)?;
        self.3.send(out, names)?;
        self.4.send(out, names)?;
        out.end_seq()
    }
}

impl<A: Shown, B: Shown, C: Shown, D: Shown, E: Shown, F: Shown> Shown for (A, B, C, D, E, F) {
    ghost shown = { λ g t.
        row (A.shown g t.0 ∷ B.shown g t.1 ∷ C.shown g t.2 ∷ D.shown g t.3 ∷ E.shown g t.4
        ∷ F.shown g t.5 ∷ []) };

    ghost exact = { λ g t.
        rw (
          A.exact g t.0,
          B.exact g t.1,
          C.exact g t.2,
          D.exact g t.3,
          E.exact g t.4,
          F.exact g t.5,
        ) refl };

    fn send<S: Serializer, N: Names>(&self, out: &mut S, names: &N) -> Result<(), S::Error> {
        out.begin_seq(Some(6))?;
        self.0.send(out, names)?;
        self.1.send(out, names)?;
        self.2.send(out, names)?;
        self.3.send(out, names)?;
        self.4.send(out, names)?;
        self.5.send(out, names)?;
        out.end_seq()
    }
}
