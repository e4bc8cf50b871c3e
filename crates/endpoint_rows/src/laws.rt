ghost use Rattle.endpoint_rows.specs.Laws.{SlicesMakeTheService};

/// States that if each slice of a Service is kept with the rows that it gives, and nothing else,
/// the view has the rows of the Service.
pub fn slices_make_the_service()
    ensures { SlicesMakeTheService }
{}
