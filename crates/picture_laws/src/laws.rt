//! The laws of pictures. The functions do nothing: their contracts are the laws.
ghost use Rattle.picture_laws.specs.Laws.{FitsGood, GoodWhenTaken, StaysGood, StaysSpent};

/// What is pictured of an index in an event is good behind it.
pub fn good_when_taken()
    ensures { GoodWhenTaken }
{}

/// A good picture stays good, whatever event comes.
pub fn stays_good()
    ensures { StaysGood }
{}

/// A marker that no list of an index has any more comes to none again.
pub fn stays_spent()
    ensures { StaysSpent }
{}

/// The repair of a good picture's list fits the list of its name as it is now.
pub fn fits_good()
    ensures { FitsGood }
{}
