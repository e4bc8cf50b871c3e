// A view behind a pointer.
use mesh_base::memory::Memory;
use std::alloc::Global;
use std::boxed::Box;
use std::marker::Model;
use view_types::view::View;

/// A boxed view, so that a subscription that was shown none needs no room for one. Contracts see it
/// as the view.
#[derive(Drop)]
pub struct BoxedView {
    inner: Box<View>,
}

impl Model for BoxedView {
    ghost use Rattle.view_types.specs.contracts.view.View as the_view;
    ghost use Rattle.view_types.specs.declared.view.View.{View};

    ghost Value = { View };

    ghost coded = { the_view.the_row.coded };

    ghost view = { λ b. b.inner.value };
}

impl BoxedView {
    ghost use Rattle.std.specs.Prelude.{◌≡◌, IfOk};

    pub fn new(alloc: Global, view: View) -> Result<BoxedView, Memory>
        ensures { IfOk result (λ boxed. boxed ≡ view) }
    {
        Ok(BoxedView {
            inner: Box::new(alloc, view)?,
        })
    }

    pub fn get(&self) -> &View
        ensures { result.now ≡ self.now }
    {
        &self.inner
    }
}
