//! Commands and their words.

ghost use Rattle.std.specs.Prelude.{◌≡◌, ◌≢◌, ◌≤◌, ◌∷◌, ◌++◌, ◌↔◌, ℕ, List, [], Some, None, IfSome, IfNone, IsTrue, MatchOption, map, codes, decimal};
ghost use Rattle.std.specs.String.{string_bytes};
ghost use Rattle.fw_base.specs.Names.{seat_name};
ghost use Rattle.fw_base.specs.declared.seat.Seat.{Seat};
ghost use Rattle.fw_command.specs.declared.command.Command.{Command};
ghost use Rattle.fw_command.specs.declared.limits.TheConstants.{GREATEST};
ghost use Rattle.fw_command.specs.Commands.{IsCommand, seat_fits};

use crate::GREATEST;
use fw_base::Seat;
use fw_op::number_of;

/// What the program is asked for.
#[derive(Clone, Copy, Debug, PartialEq, Eq)]
pub enum Command {
    /// The report of a document's schedule.
    Replay,
    /// The hand file of a seat of a document's deployment, or the public file.
    Deal { seat: Option<Seat> },
}

/// The number that the word spells, if it is at most the greatest.
fn small_number(word: &str) -> Option<u32>
    ensures { MatchOption result ((n : ℕ) → n ≤ GREATEST → word.now ≢ decimal n) (λ n. (word.now ≡ decimal n) × (n ≤ GREATEST)) }
{
    number_of(word, 0, GREATEST)
}

/// The agreement node that the word names.
fn agree_of(word: &str) -> Option<Seat>
    ensures { MatchOption result ((i : ℕ) → i ≤ GREATEST → word.now ≢ codes "a" ++ decimal i) (λ seat. IsTrue (seat_fits seat) × (word.now ≡ seat_name seat)) }
{
    let Some(number) = word.strip_prefix('a') else {
        return None;
    };
    match small_number(number) {
        Some(i) => Some(Seat::Agree(i)),
        None => None,
    }
}

/// The executor that the word names.
fn exec_of(word: &str) -> Option<Seat>
    ensures { MatchOption result ((j : ℕ) → j ≤ GREATEST → word.now ≢ codes "e" ++ decimal j) (λ seat. IsTrue (seat_fits seat) × (word.now ≡ seat_name seat)) }
{
    let Some(number) = word.strip_prefix('e') else {
        return None;
    };
    match small_number(number) {
        Some(j) => Some(Seat::Exec(j)),
        None => None,
    }
}

/// The client that the word names.
fn client_of(word: &str) -> Option<Seat>
    ensures { MatchOption result ((c : ℕ) → c ≤ GREATEST → word.now ≢ codes "c" ++ decimal c) (λ seat. IsTrue (seat_fits seat) × (word.now ≡ seat_name seat)) }
{
    let Some(number) = word.strip_prefix('c') else {
        return None;
    };
    match small_number(number) {
        Some(c) => Some(Seat::Client(c)),
        None => None,
    }
}

/// What stands before and behind the first point.
fn parts_of(place: &str) -> Option<(&str, &str)>
    ensures cut { IfSome result (λ p. place.now ≡ p.0.now ++ 46 ∷ p.1.now) }
    ensures each { (r : ℕ) (rest : List ℕ) → r ≤ GREATEST → place.now ≡ decimal r ++ 46 ∷ rest → MatchOption result ⊥ (λ p. (p.0.now ≡ decimal r) × (p.1.now ≡ rest)) }
{
    place.split_once('.')
}

/// The filter of a row and a column with a point between them.
fn gridded(place: &str) -> Option<Seat>
    ensures { MatchOption result ((r c : ℕ) → r ≤ GREATEST → c ≤ GREATEST → place.now ≢ decimal r ++ 46 ∷ decimal c) (λ seat. IsTrue (seat_fits seat) × (codes "x" ++ place.now ≡ seat_name seat)) }
{
    let Some((row, column)) = parts_of(place) else {
        return None;
    };
    let Some(row) = small_number(row) else {
        return None;
    };
    let Some(column) = small_number(column) else {
        return None;
    };
    Some(Seat::Filter(row, column))
}

/// The filter that the word names.
fn filter_of(word: &str) -> Option<Seat>
    ensures { MatchOption result ((r c : ℕ) → r ≤ GREATEST → c ≤ GREATEST → word.now ≢ 120 ∷ (decimal r ++ 46 ∷ decimal c)) (λ seat. IsTrue (seat_fits seat) × (word.now ≡ seat_name seat)) }
{
    match word.strip_prefix('x') {
        Some(place) => gridded(place),
        None => None,
    }
}

/// The seat that a word names, of any deployment.
fn seat_of(word: &str) -> Option<Seat>
    ensures { MatchOption result ((seat : Seat) → IsTrue (seat_fits seat) → word.now ≢ seat_name seat) (λ seat. IsTrue (seat_fits seat) × (word.now ≡ seat_name seat)) }
{
    if let Some(seat) = agree_of(word) {
        return Some(seat);
    }
    if let Some(seat) = exec_of(word) {
        return Some(seat);
    }
    if let Some(seat) = filter_of(word) {
        return Some(seat);
    }
    client_of(word)
}

/// The command of the word `deal` and this one.
fn deal_of(word: &str) -> Option<Command>
    ensures { MatchOption result ((command : Command) → ¬ IsCommand (codes "deal" ∷ word.now ∷ []) command) (λ command. IsCommand (codes "deal" ∷ word.now ∷ []) command) }
{
    if word == "public" {
        return Some(Command::Deal { seat: None });
    }
    match seat_of(word) {
        Some(seat) => Some(Command::Deal { seat: Some(seat) }),
        None => None,
    }
}

/// Whether a word is `replay`.
fn asks_replay(word: &str) -> bool
    ensures { IsTrue result ↔ (word.now ≡ codes "replay") }
{
    word == "replay"
}

/// Whether a word is `deal`.
fn asks_deal(word: &str) -> bool
    ensures { IsTrue result ↔ (word.now ≡ codes "deal") }
{
    word == "deal"
}

/// The command that the words are, or none exactly where they are no command.
pub fn command_of(words: &[String]) -> Option<Command>
    ensures found { IfSome result (λ command. IsCommand (map string_bytes words.now) command) }
    ensures each { (command : Command) → IsCommand (map string_bytes words.now) command → result ≡ Some command }
{
    match words {
        [word] if asks_replay(word.as_str()) => Some(Command::Replay),
        [first, word] if asks_deal(first.as_str()) => deal_of(word.as_str()),
        _ => None,
    }
}
