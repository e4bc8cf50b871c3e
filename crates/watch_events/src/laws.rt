ghost use Rattle.watch_events.specs.Lawful.{LinesAreLawful, ObjectsAreLawful, TextsAreLawful};

/// Each object that is read is lawful, and of the kind that it is read as.
pub fn objects_are_lawful()
    ensures { ObjectsAreLawful }
{
    k8s_core::laws::objects_are_lawful();
    policy_objects::laws::objects_are_lawful();
    profile_objects::laws::profiles_are_lawful();
    route_objects::laws::routes_are_lawful();
}

/// Each line that is read is lawful.
pub fn lines_are_lawful()
    ensures texts { TextsAreLawful }
    ensures lines { LinesAreLawful }
{
    objects_are_lawful();
}
