ghost use Rattle.std.specs.Prelude.{◌≡◌, ℕ, List, Option};
ghost use Rattle.k8s_meta.specs.Words.{choice};

use crate::fault::{ReadFault, What};
use crate::place::Place;
use crate::reader::Reader;

/// A set of words, each with a meaning.
pub trait Word {
    type Meaning: Drop;

    /// The meaning of a word, or None if it is not in the set.
    ghost meaning: { Self → List ℕ → Option Self.Meaning };

    fn meaning_of(&self, text: &str) -> Option<Self::Meaning>
        ensures { result ≡ meaning self.now text.now };
}

/// A reader of the words of a set. Any other string is the error `BadValue` with `Choice`.
#[derive(Clone, Copy)]
pub struct Choice<W>(pub W);

impl<W: Word> Reader for Choice<W> {
    type Made = W::Meaning;

    ghost reading = { λ r. choice (W.meaning r.0) };

    #[tactic(auto, unfolding(crate::specs::Spots::then, crate::specs::Words::choice))]
    fn read<'a>(&self, place: &'a Place<'a>) -> Result<W::Meaning, ReadFault> {
        let text = place.text()?;
        place.valid(What::Choice, self.0.meaning_of(text))
    }
}
