// Another characterization of the lines of a string.
ghost use Rattle.std.specs.Prelude.{◌≡◌, ◌↔◌, ℕ, List};
ghost use Rattle.line_run.specs.Rows.{lines_of};
ghost use Rattle.line_run.specs.Joined.{AreLines};

/// The lines of a string are the only ones without LF that concatenate to it with an LF after each;
/// a last piece without LF counts as if it had one.
pub fn lines_join(text: &[u8])
    ensures { (lines : List (List ℕ)) → (lines ≡ lines_of text.now) ↔ AreLines text.now lines }
{
    let _ = text;
}
