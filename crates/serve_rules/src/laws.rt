// Laws on the turns of a server.
ghost use Rattle.serve_rules.specs.Due.{ByPlaces, Due, PlacesAscend, TraceDue};
ghost use Rattle.serve_rules.specs.LinkErasure.{Erasure, StrictTurnsAreTurns, TraceErasure};
ghost use Rattle.serve_rules.specs.TraceExtension.{BeginsWithNothing, CutExtends, SomeTurnGoesOn, TurnExtends};
ghost use Rattle.serve_rules.specs.LinkFailures.{FailedReadCloses, FailedWriteCloses, FailureCloses};
ghost use Rattle.serve_rules.specs.Hubs.{DrainsAsDue, NoLineSubscribes, ShownStays};
ghost use Rattle.serve_rules.specs.LinkOrder.{LinksAscend};
ghost use Rattle.serve_rules.specs.Outboxes.{OutboxesHoldOne};
ghost use Rattle.serve_rules.specs.OwedBytes.{OwedHasWork};
ghost use Rattle.serve_rules.specs.WrittenBytes.{AllPlacesAscend, DueByPlaces, SameForOthers, WrittenIsDue};

/// States that one link that is no feed changes nothing for the others, whatever it does: in one
/// turn, and in any number of them.
pub fn erasure()
    ensures turn { Erasure }
    ensures trace { TraceErasure }
    ensures others { SameForOthers }
{}

/// States that a turn in which no limit was reached is a turn under the rules that allow limits to
/// be reached.
pub fn strict_turns()
    ensures { StrictTurnsAreTurns }
{}

/// States that what is written on a link, with its outbox after it, is its outbox before, the
/// answers to its lines and the frames of its drains: in one turn, in any number of them, and since
/// the server began.
pub fn due()
    ensures turn { Due }
    ensures trace { TraceDue }
    ensures whole { WrittenIsDue }
{}

/// States that what a link that is no feed is due is a function of the lines fed, of its query and
/// of the places of its drains, which never decrease.
pub fn places()
    ensures due { ByPlaces }
    ensures ascend { PlacesAscend }
    ensures all_due { DueByPlaces }
    ensures all_ascend { AllPlacesAscend }
{}

/// States that a link whose read or write failed is closed directly after it, and nothing else
/// changes.
pub fn failures_close()
    ensures read { FailedReadCloses }
    ensures write { FailedWriteCloses }
    ensures turn { FailureCloses }
{}

/// States that an outbox has the rest of one batch, or of the answers to one read.
pub fn outboxes_hold_one()
    ensures { OutboxesHoldOne }
{}

/// States that a link that is owed bytes, and whose last write did not return Pending, has work, so
/// that no poll waits.
pub fn what_is_owed_is_work()
    ensures { OwedHasWork }
{}

/// States that links are in the order of their numbers, if new ones have numbers above all earlier
/// ones.
pub fn links_ascend()
    ensures { LinksAscend }
{}

/// States that a turn extends a lawful trace, and so do its first calls; and that whatever a poll
/// reports, some turn continues from it.
pub fn turns_extend()
    ensures nothing { BeginsWithNothing }
    ensures turn { TurnExtends }
    ensures cut { CutExtends }
    ensures some { SomeTurnGoesOn }
{}

/// States that a hub that holds the effect of the lines fed returns from a drain the frames that
/// are due, that what a subscriber was shown stays while more is fed, and that no line subscribes.
pub fn hubs_serve()
    ensures drains { DrainsAsDue }
    ensures shown { ShownStays }
    ensures lines { NoLineSubscribes }
{}
