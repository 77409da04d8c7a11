//! The laws of sessions and their log, in the words of whoever relies on them. They are facts about the definitions, and the functions do
//! nothing.

ghost use Rattle.std.specs.Prelude.{◌≡◌, ◌≢◌, ◌++◌, ℕ, List, Some, None};
ghost use Rattle.rad_sessions.specs.declared.session.Session.{Session};
ghost use Rattle.rad_sessions.specs.declared.change.Change.{Change};
ghost use Rattle.rad_sessions.specs.Log.{line_of, change_of, folded};
ghost use Rattle.rad_sessions.specs.Listed.{AreInOrder, after_all, begun, ended, place_of, session_at};
ghost use Rattle.rad_sessions.specs.Pieces.{Written, octets_of_all, done_of, AreChanges, AllFit};
ghost use Rattle.rad_sessions.specs.Laws.{IsChange};

/// A line that was written is read back as its change, and a line that is read as a change is written exactly so. The
/// fields of each change that is made are of their types: `line_of` says so of every change that it writes.
pub fn lines_are_read_back()
    ensures back { (change : Change) → IsChange change → change_of (line_of change) ≡ Some change }
    ensures exact { (line : List ℕ) (change : Change) → change_of line ≡ Some change → line ≡ line_of change }
{}

/// What a log says after pieces were appended to whatever stood there, some of them whole and some, whose append failed,
/// only in part: the sessions that stood there, after the changes of the whole pieces, in order. It holds where none of
/// these adds a session to as many as may stand; the room that is made before each of them sees to that. That their fields
/// are of their types is said by `line_of`.
pub fn logs_say_the_whole_pieces()
    ensures { (log : List ℕ) (pieces : List Written) → AreChanges pieces → AllFit (folded log) (done_of pieces) → folded (log ++ octets_of_all pieces) ≡ after_all (folded log) (done_of pieces) }
{}

/// A session that began stands on its port, and those on other ports stay. Where sessions are in order, as they are kept,
/// none stands on a port whose session has ended, and those on other ports stay.
pub fn sessions_stand_until_they_end()
    ensures begun { (session : Session) (sessions : List Session) → session_at (place_of session) (begun session sessions) ≡ Some session }
    ensures begun_elsewhere { (place : ℕ × ℕ) (session : Session) (sessions : List Session) → place ≢ place_of session → session_at place (begun session sessions) ≡ session_at place sessions }
    ensures ended { (place : ℕ × ℕ) (sessions : List Session) → AreInOrder sessions → session_at place (ended place sessions) ≡ None }
    ensures ended_elsewhere { (place other : ℕ × ℕ) (sessions : List Session) → other ≢ place → session_at other (ended place sessions) ≡ session_at other sessions }
{}
