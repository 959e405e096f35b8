// Where a drawing stands: what is refused by it, and what one step adds to q. Nothing is shifted by a finest level before it is known to be one.
ghost use Rattle.std.specs.Prelude.{◌≡◌, ◌^◌, ◌≤◌};
ghost use Rattle.rules.specs.Rules.{most_finest};
ghost use Rattle.coordinate.specs.Registers.{halve, double};
ghost use Rattle.operations.specs.Position.{stride, is_aligned};
ghost use Rattle.operations.specs.Refusals.{gate, call_refusal, choice_refusal};

use crate::Drawing;
use rules::{Limits, Refusal};

// A finest level, a level of it and a position, as far as shifts by them need it.
#[derive(Clone, Copy)]
pub(crate) struct Place {
    pub(crate) finest: u32,
    pub(crate) level: u32,
    pub(crate) q: u32,
    ghost levels: { (finest ≤ most_finest) × (level ≤ finest) },
}

impl Place {
    ghost use Rattle.engine.specs.Place.{Stands};

    // Of a drawing before its end. Refuses 10 and 5, which come before each operation's own refusals.
    #[tactic(auto, unfolding(operations::specs::Refusals::gate, operations::specs::Position::is_drawing, rules::specs::Rules::is_finest, rules::specs::Rules::is_level))]
    pub(crate) fn of(d: Drawing) -> Result<Place, Refusal>
        ensures { Stands (gate d.finest d.level d.q) d.finest d.level d.q result }
    {
        if !(rules::finest(d.finest) & rules::level(d.finest, d.level)) {
            return Err(Refusal::NoDrawing);
        }
        let at = Place {
            finest: d.finest,
            level: d.level,
            q: d.q,
        };
        if (at.q % at.stride() != 0) | (at.q > at.end()) {
            return Err(Refusal::NoDrawing);
        }
        if at.q == at.end() {
            return Err(Refusal::Ended);
        }
        Ok(at)
    }

    // Refuses 10, 5, 6.
    #[tactic(auto, unfolding(operations::specs::Refusals::call_refusal))]
    pub(crate) fn to_halve(d: Drawing) -> Result<Place, Refusal>
        ensures { Stands (call_refusal d.finest halve d.level d.q) d.finest d.level d.q result }
    {
        let at = Place::of(d)?;
        if at.level >= at.finest {
            return Err(Refusal::AtFinestLevel);
        }
        Ok(at)
    }

    // Refuses 10, 5, 7, 8.
    #[tactic(auto, unfolding(operations::specs::Refusals::call_refusal))]
    pub(crate) fn to_double(d: Drawing) -> Result<Place, Refusal>
        ensures { Stands (call_refusal d.finest double d.level d.q) d.finest d.level d.q result }
    {
        let at = Place::of(d)?;
        if at.level == 0 {
            return Err(Refusal::AtLevelZero);
        }
        if !at.is_aligned() {
            return Err(Refusal::OutOfLine);
        }
        Ok(at)
    }

    // Refuses 4, 10, 5.
    #[tactic(auto, unfolding(operations::specs::Refusals::choice_refusal))]
    pub(crate) fn to_choose(d: Drawing, limits: Limits) -> Result<Place, Refusal>
        ensures { Stands (choice_refusal d.finest limits.upper limits.lower d.level d.q) d.finest d.level d.q result }
    {
        if !limits.lawful() {
            return Err(Refusal::Limits);
        }
        Place::of(d)
    }

    // The position at the end.
    fn end(self) -> u32
        ensures { result ≡ 2 ^ self.finest }
    {
        1 << self.finest
    }

    // What one step adds to q.
    pub(crate) fn stride(self) -> u32
        ensures { result ≡ stride self.finest self.level }
    {
        1 << (self.finest - self.level)
    }

    #[tactic(auto, unfolding(operations::specs::Position::is_aligned))]
    pub(crate) fn is_aligned(self) -> bool
        ensures { result ≡ is_aligned self.finest self.level self.q }
    {
        self.q % (2 * self.stride()) == 0
    }
}
