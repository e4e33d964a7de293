//! How many submissions were taken.

ghost use Rattle.std.specs.Prelude.{◌≡◌, ◌<◌, ◌≤◌, ◌+◌, length, drop, IsTrue};
ghost use Rattle.fw_base.specs.Sizes.{accepted};
ghost use Rattle.fw_step.specs.Fitting.{is_correct};
ghost use Rattle.fw_pool.specs.Notes.{Frames, log_of, logged};
ghost use Rattle.fw_pool.specs.Counts.{is_submission, submissions};

use crate::note::Note;
use fw_base::{Params, Seat};
use fw_list::Newest;
use fw_step::is_correct;

/// Whether a note is of a submission to a correct client.
fn is_submission(params: &Params, faulty: &[Seat], note: &Note) -> bool
    requires { IsTrue (accepted params.now) }
    ensures { (frames : Frames) → result ≡ is_submission (is_correct params.now faulty.now) (logged frames note.now).seat (logged frames note.now).input }
{
    match note {
        Note::Submission {
            seat: Seat::Client(c),
            ..
        } => is_correct(params, faulty, Seat::Client(*c)),
        _ => false,
    }
}

/// One where the note at this place is of such a submission, else none.
fn submission_at(params: &Params, faulty: &[Seat], log: &Newest<Note>, k: usize) -> usize
    requires sizes { IsTrue (accepted params.now) }
    requires place { k < length log.now }
    ensures one { result ≤ 1 }
    ensures rest { (frames : Frames) → result + submissions (is_correct params.now faulty.now) (log_of frames (drop (k + 1) log.now)) ≡ submissions (is_correct params.now faulty.now) (log_of frames (drop k log.now)) }
{
    match log.at(k) {
        Some(note) => {
            if is_submission(params, faulty, note) {
                1
            } else {
                0
            }
        }
        None => 0,
    }
}

/// How many of a log are.
pub(crate) fn submissions(params: &Params, faulty: &[Seat], log: &Newest<Note>) -> usize
    requires { IsTrue (accepted params.now) }
    ensures { (frames : Frames) → result ≡ submissions (is_correct params.now faulty.now) (log_of frames log.now) }
{
    let mut count = 0;
    for k in 0..log.len() {
        count += submission_at(params, faulty, log, k);
    }
    count
}
