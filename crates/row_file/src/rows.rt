/// A row of a file. Each line of its input and of its expected output ends with a line feed.
#[derive(Debug, Drop)]
pub struct Row {
    pub name: String,
    /// The line of words.
    pub words: String,
    pub input: String,
    pub expected: String,
    /// The number of the line with the name, from 1.
    pub line: u64,
}

impl Row {
    /// Returns the first word and the words after it.
    pub fn call(&self) -> (&str, &str) {
        let words = self.words.as_str();
        words.split_once(' ').unwrap_or((words, ""))
    }

    /// Returns the value of a word `NAME=VALUE`.
    pub fn option(&self, name: &str) -> Option<&str> {
        for word in self.words.as_str().split(' ') {
            if let Some((option, value)) = word.split_once('=') {
                if option == name {
                    return Some(value);
                }
            }
        }
        None
    }

    /// Whether a word of the row is exactly this one.
    pub fn has(&self, wanted: &str) -> bool {
        self.words.as_str().split(' ').any(|word| word == wanted)
    }
}
