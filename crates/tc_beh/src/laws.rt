// What is proved of rooms.
ghost use Rattle.tc_beh.specs.Lines.{LinesAreOne};
ghost use Rattle.tc_beh.specs.RoomLaws.{RoomsAreLawful};

/// The law of rooms: over what rows hold at one time, in which no set of pairs has two numbers, two rooms stand for equal
/// rows exactly where their numbers are equal; and a room goes on standing for its row where more is held.
pub fn law_of_rooms()
    ensures { RoomsAreLawful }
{}

/// The law of lines: two rooms of one length that have the same line have the same numbers, where their flags are 0 or 1.
pub fn law_of_lines()
    ensures { LinesAreOne }
{}
