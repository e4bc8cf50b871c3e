use std::alloc::Global;
use strsim::osa_distance;

// The greatest number of typing errors of a word that has a nearest name.
const MAX_EDITS: usize = 2;

const MAX_WORD_LENGTH: usize = 64;

/// The name that is nearest to a word, among those that are offered.
#[derive(Clone, Copy)]
pub(crate) struct Nearest<'w> {
    alloc: Global,
    word: &'w str,
    edits: usize,
    pub(crate) name: Option<&'static str>,
}

impl<'w> Nearest<'w> {
    pub(crate) fn to(alloc: Global, word: &'w str) -> Nearest<'w> {
        Nearest {
            alloc,
            word,
            edits: MAX_EDITS + 1,
            name: None,
        }
    }

    pub(crate) fn offer(&mut self, name: &'static str) {
        if self.word.len() > MAX_WORD_LENGTH {
            return;
        }
        if let Ok(edits) = osa_distance(self.alloc, self.word, name) {
            if edits < self.edits {
                self.edits = edits;
                self.name = Some(name);
            }
        }
    }

    pub(crate) fn offer_all(&mut self, names: &'static [&'static str]) {
        for name in names {
            self.offer(name);
        }
    }
}
