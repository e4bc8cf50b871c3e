// Laws on the contents of a link's bytes.
ghost use Rattle.session_core.specs.Laws.{CuttingIsFree, FaultStays, FeedGoesOn, NothingFollows, RowsAreCut, RowsStay};

/// States that more bytes of a link leave a fault as it is and extend a feed; after a valid request
/// they are the fault Extra.
pub fn bytes_go_on()
    ensures fault { FaultStays }
    ensures feed { FeedGoesOn }
    ensures request { NothingFollows }
{}

/// States that the rows of a feed's complete lines stay, whatever bytes follow.
pub fn rows_stay()
    ensures { RowsStay }
{}

/// States that the rows that a cutter gives are those of the complete lines.
pub fn rows_are_cut()
    ensures { RowsAreCut }
{}

/// States that however a link's bytes are cut into pieces, the answers together request the same,
/// or end with the same fault.
pub fn cutting_is_free()
    ensures { CuttingIsFree }
{}
