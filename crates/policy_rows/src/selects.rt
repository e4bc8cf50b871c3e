ghost use Rattle.std.specs.Prelude.{◌≡◌};
ghost use Rattle.view_rules.specs.Selects.{selects};

use label_select::selector::Selector;
use mesh_base::labels::Labels;

/// Whether the selector matches the labels.
pub(crate) fn selects(selector: &Selector, labels: &Labels) -> bool
    ensures { result ≡ selects selector.now labels.now }
{
    selector.matches(labels)
}
