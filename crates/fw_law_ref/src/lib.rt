//! Laws of the reference: what the stamps decide, that answers don't depend on what comes later, and that they depend on what
//! the askers see alone.
#![tactic(auto)]

ghost use Rattle.fw_law_ref.specs.Stamps.{LastIsGreatest, OldChangesNothing, NewIsAnswered, UnopenedKeepsRecords, OthersAreKept};
ghost use Rattle.fw_law_ref.specs.Front.{FrontIsFixed, GoesOn, OneForEach, AnswerThere};
ghost use Rattle.fw_law_ref.specs.Sight.{SameSight, SameStart};

/// A client's last stamp is the greatest of its stamps so far. An entry whose stamp isn't above all earlier ones of its client
/// changes nothing, and one with a new stamp is answered once: what its body opens to is done, and where it opens to nothing the
/// records stay. What is kept of all other clients stays too.
pub fn law_stamps()
    ensures last { LastIsGreatest }
    ensures old { OldChangesNothing }
    ensures new { NewIsAnswered }
    ensures unopened { UnopenedKeepsRecords }
    ensures others { OthersAreKept }
{}

/// The answers to a list begin with the answers to its front, whatever comes behind it, one for each number.
pub fn law_front()
    ensures front { FrontIsFixed }
    ensures state { GoesOn }
    ensures each { OneForEach }
    ensures there { AnswerThere }
{}

/// Two references that have answered alike, and show all who ask in a list the same, answer the list alike, and go on so: whom
/// they showed the same before they show the same after it.
pub fn law_same_sight()
    ensures any { SameSight }
    ensures start { SameStart }
{}
