ghost use Rattle.object_store.specs.Changes.{PutByKey, TakenByKey};
ghost use Rattle.object_store.specs.Relisted.{RelistLeads, RelistedByKey};

/// Ensures that a set puts the object at its key, and changes no other key.
pub fn put_by_key()
    ensures { PutByKey }
{}

/// Ensures that a removal leaves no object at the key, and changes no other key.
pub fn taken_by_key()
    ensures { TakenByKey }
{}

/// Ensures that a list sets the keys of its kind to its items, and changes no other key.
pub fn relisted_by_key()
    ensures { RelistedByKey }
{}

/// Ensures that a list leads to the new map by the marks of the kind's objects, old and new.
pub fn relist_leads()
    ensures { RelistLeads }
{}
