// What is known of the depths of a body while its paths are followed.

use flex_base::{NoMemory, Sequence};
use std::alloc::Global;
use std::marker::Model;
use verified_code::Depths;

// Of each place the depths that are known, and the places from which paths were not followed yet.
#[derive(Drop)]
pub struct Walk {
    table: Vec<Option<Depths>>,
    work: Vec<usize>,
}

impl Model for Walk {
    ghost use Rattle.avm2_verify.specs.Known.{Known};

    ghost Value = { Known };

    ghost view = { λ w. record { table = w.table.items; work = w.work.items } };
}

impl Walk {
    ghost use Rattle.std.specs.Prelude.{◌≡◌, ◌<◌, ℕ, [], length, IfOk, MatchBool, MatchOption, Some};
    ghost use Rattle.avm2_verify.specs.Known.{Grows, IsBegun, IsOther, IsTaken, known_at};

    // Code of so many bytes, of which the start is known alone.
    pub fn begin(alloc: Global, count: usize, start: Depths) -> Result<Walk, NoMemory>
        ensures { IfOk result (IsBegun count start) }
    {
        let mut table = Vec::new(alloc);
        let mut work = Vec::new(alloc);
        for place in 0..count {
            if place == 0 {
                table.push(Some(start))?;
                work.push(0)?;
            } else {
                table.push(None)?;
            }
        }
        Ok(Walk { table, work })
    }

    // Takes the last place that waits.
    pub fn take(&mut self) -> Option<usize>
        ensures { MatchOption result ((self.old.work ≡ []) × (self.new ≡ self.old)) (λ place. IsTaken place self.old self.new) }
    {
        self.work.pop()
    }

    // The depths that are known at a place.
    pub fn depths(&self, place: usize) -> Option<Depths>
        ensures { result ≡ known_at self.now place }
    {
        match self.table.get(place) {
            Some(known) => *known,
            None => None,
        }
    }

    // A path comes to a place, if there is one, with these depths. Whether none are known there that
    // differ.
    pub fn arrive(&mut self, place: Option<usize>, depths: Depths) -> Result<bool, NoMemory>
        requires { (at : ℕ) → place ≡ Some at → at < length self.old.table }
        ensures { IfOk result (λ same. MatchBool same (Grows place depths self.old self.new) (IsOther place depths self.old)) }
    {
        let Some(at) = place else {
            return Ok(true);
        };
        match self.table[at] {
            Some(known) => Ok(known == depths),
            None => {
                self.work.push(at)?;
                self.table[at] = Some(depths);
                Ok(true)
            }
        }
    }

    // The table alone.
    pub fn into_table(self) -> Sequence<Option<Depths>>
        ensures { result ≡ self.table }
    {
        let Walk { table, work: _ } = self;
        Sequence::from_vec(table)
    }
}
