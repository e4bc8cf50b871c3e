use std::fmt::{Debug, Display, InlineText};

const CAPACITY: usize = 200;

/// Why a row has no output: words that the program doesn't read, or a call that fails where no row
/// expects it. It is printed with the row. Each error with `Debug` converts to it by `?`.
#[derive(Drop)]
pub struct TrialFault {
    text: InlineText<{ CAPACITY }>,
}

impl TrialFault {
    pub fn new<D: Display + Drop>(why: D) -> TrialFault {
        TrialFault {
            text: InlineText::of(why),
        }
    }

    pub fn as_str(&self) -> &str {
        self.text.as_str()
    }
}

impl<E: Debug + Drop> From<E> for TrialFault {
    fn from(error: E) -> TrialFault {
        TrialFault::new(format_args!("{error:?}"))
    }
}
