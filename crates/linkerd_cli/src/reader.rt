use command_words::fault::WordsFault;
use command_words::words::read_words;
use mesh_base::text::Text;
use run_report::CommandReader;
use std::alloc::Global;

/// Reads words as the program does.
#[derive(Clone, Copy)]
pub(crate) struct Reader {
    pub(crate) alloc: Global,
}

impl CommandReader for Reader {
    fn refuses(&self, words: &[Text]) -> bool {
        match read_words(self.alloc, words) {
            Err(WordsFault::Usage) => true,
            Err(WordsFault::Memory) | Ok(_) => false,
        }
    }
}
