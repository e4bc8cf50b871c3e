ghost use Rattle.std.specs.Prelude.{◌≡◌};
ghost use Rattle.watch_events.specs.Events.{event_type};

/// The type of a watch event (WatchEvent, meta/v1).
#[derive(Clone, Copy)]
pub enum EventType {
    Added,
    Modified,
    Deleted,
    Bookmark,
    Error,
}

/// Returns the type with this name.
pub fn event_type(word: &str) -> Option<EventType>
    ensures { result ≡ event_type word.now }
{
    if word == "ADDED" {
        Some(EventType::Added)
    } else if word == "MODIFIED" {
        Some(EventType::Modified)
    } else if word == "DELETED" {
        Some(EventType::Deleted)
    } else if word == "BOOKMARK" {
        Some(EventType::Bookmark)
    } else if word == "ERROR" {
        Some(EventType::Error)
    } else {
        None
    }
}
