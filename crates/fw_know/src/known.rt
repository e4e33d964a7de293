//! What liars know, as a list that is looked through.

ghost use Rattle.std.specs.Prelude.{◌≡◌, ◌++◌, List, [], not, All, IsTrue, IfOk};
ghost use Rattle.std.specs.List.{find};
ghost use Rattle.std.specs.Option.{option_map};
ghost use Rattle.fw_base.specs.Places.{place_fits};
ghost use Rattle.fw_base.specs.Seats.{fits};
ghost use Rattle.fw_base.specs.declared.seat.Seat.{Seat};
ghost use Rattle.fw_frame.specs.declared.shown.Shown.{Shown};
ghost use Rattle.fw_know.specs.Known.{is_marked, is_reply, points, known_by, is_known, first_unknown, IsKnowledgeOf};

use crate::marks::{is_set, mark_seats, mark_shown, no_marks};
use fw_base::{Params, Place, Seat, Slot};
use fw_deal::Deal;
use fw_frame::{Carried, Shown};
use fw_list::Memory;
use std::alloc::Global;
use std::marker::Model;

/// What the faulty seats of a deployment know: a mark for each place, which is set where the place was dealt or shown to one of them.
/// What follows from shares is counted when it is asked for.
#[derive(Drop)]
pub struct Known {
    params: Params,
    marks: Vec<bool>,
}

impl Model for Known {
    ghost use Rattle.fw_know.specs.Known.{Knowledge};
    ghost use Rattle.fw_know.specs.Marks.{AreMarks};

    ghost Value = { Knowledge };

    ghost view = { λ k. record { params = k.params; marks = k.marks.items } };

    ghost invariant = { λ k. AreMarks k.params k.marks.items };
}

impl Known {
    /// What these seats know before anything is sent: what they are dealt.
    pub fn new(alloc: Global, deal: &Deal, faulty: &[Seat]) -> Result<Known, Memory>
        requires { All (λ seat. IsTrue (fits deal.now.origin.params seat)) faulty.now }
        ensures params { IfOk result (λ known. known.params ≡ deal.now.origin.params) }
        ensures dealt { IfOk result (λ known. IsKnowledgeOf known faulty.now []) }
    {
        let params = deal.directory().params();
        let mut marks = no_marks(alloc, params)?;
        mark_seats(alloc, params, &mut marks, faulty)?;
        Ok(Known {
            params: *params,
            marks,
        })
    }

    /// Adds what a frame shows that was sent to a faulty seat.
    pub fn add(&mut self, shown: &Carried)
        requires { All (λ pair. IsTrue (place_fits self.old.params pair.place)) shown.now }
        ensures params { self.new.params ≡ self.old.params }
        ensures added { (faulty : List Seat) (pairs : List Shown) → IsKnowledgeOf self.old faulty pairs → IsKnowledgeOf self.new faulty (pairs ++ shown.now) }
    {
        mark_shown(&self.params, &mut self.marks, shown.items());
    }

    /// Whether a place was dealt or shown to a faulty seat.
    fn is_marked(&self, place: &Place) -> bool
        requires { IsTrue (place_fits self.now.params place.now) }
        ensures { result ≡ is_marked self.now place.now }
    {
        is_set(&self.params, &self.marks, place)
    }

    /// At how many points a bit and a side of a reply are marked.
    fn points(&self, place: &Place) -> u32
        requires fits { IsTrue (place_fits self.now.params place.now) }
        requires reply { IsTrue (is_reply place.now.slot) }
        ensures { result ≡ points self.now.params (is_marked self.now) place.now }
    {
        let mut count = 0;
        for point in 0..self.params.executors() + 1 {
            let at = Place {
                slot: place.slot,
                bit: place.bit,
                side: place.side,
                point,
            };
            if self.is_marked(&at) {
                count += 1;
            }
        }
        count
    }

    /// Whether a place is marked, or enough points of its reply are.
    fn is_known(&self, place: &Place) -> bool
        requires { IsTrue (place_fits self.now.params place.now) }
        ensures { result ≡ known_by self.now.params (is_marked self.now) place.now }
    {
        if self.is_marked(place) {
            return true;
        }
        match place.slot {
            Slot::Reply { .. } => self.points(place) > self.params.g,
            _ => false,
        }
    }

    /// The first of these places that is not known so.
    fn first_other(&self, pairs: &[Shown]) -> Option<Place>
        requires { All (λ pair. IsTrue (place_fits self.now.params pair.place)) pairs.now }
        ensures { result ≡ option_map (λ (pair : Shown). pair.place) (find (λ (pair : Shown). not (known_by self.now.params (is_marked self.now) pair.place)) pairs.now) }
    {
        for k in 0..pairs.len() {
            let pair = &pairs[k];
            if !self.is_known(&pair.place) {
                return Some(pair.place);
            }
        }
        None
    }

    /// Whether the faulty seats know a place: one of them was dealt it or shown it, or it is of a reply of which they were dealt or
    /// shown more points than there may be faulty executors, of the same number, bit and side.
    pub fn may_show(&self, place: &Place) -> bool
        requires { IsTrue (place_fits self.now.params place.now) }
        ensures { (faulty : List Seat) (pairs : List Shown) → IsKnowledgeOf self.now faulty pairs → result ≡ is_known self.now.params faulty pairs place.now }
    {
        self.is_known(place)
    }

    /// The first of these places that they don't know; none exactly where they know all.
    pub fn first_unknown(&self, shown: &Carried) -> Option<Place>
        requires { All (λ pair. IsTrue (place_fits self.now.params pair.place)) shown.now }
        ensures { (faulty : List Seat) (pairs : List Shown) → IsKnowledgeOf self.now faulty pairs → result ≡ first_unknown self.now.params faulty pairs shown.now }
    {
        self.first_other(shown.items())
    }
}
