//! Numbers that are seldom equal by accident.

use super::Tableau;
use crate::bound::{Bound, Side};
use crate::rational::Rational;
use crate::row::Row;
use crate::stop::Stop;
use indexmap::IndexMap;

/// How far a variable is moved at most.
const FAR: i128 = 300;

/// How often each row is looked at where a variable is moved.
const LOOKS: usize = 3;

/// How far a variable can be moved down and up.
#[derive(Clone, Copy)]
pub(super) struct Room {
    low: Option<Rational>,
    high: Option<Rational>,
}

impl Room {
    /// The room with a distance as its end on one side, if it is nearer than the end that was there.
    fn narrow(self, side: Side, distance: Rational) -> Result<Room, Stop> {
        match side {
            Side::Lower => Ok(Room {
                low: match self.low {
                    Some(low) if !low.is_below(distance)? => Some(low),
                    _ => Some(distance),
                },
                high: self.high,
            }),
            Side::Upper => Ok(Room {
                low: self.low,
                high: match self.high {
                    Some(high) if !distance.is_below(high)? => Some(high),
                    _ => Some(distance),
                },
            }),
        }
    }

    /// Whether a variable can be moved by a distance.
    pub(super) fn has(self, distance: Rational) -> Result<bool, Stop> {
        if let Some(low) = self.low
            && distance.is_below(low)?
        {
            return Ok(false);
        }
        match self.high {
            Some(high) => Ok(!high.is_below(distance)?),
            None => Ok(true),
        }
    }

    /// The least whole number of it, at most so far away.
    fn low(self) -> Result<i128, Stop> {
        match self.low {
            Some(low) => Ok(low.ceiling()?.max(-FAR)),
            None => Ok(-FAR),
        }
    }

    /// The greatest whole number of it, at most so far away.
    fn high(self) -> Result<i128, Stop> {
        match self.high {
            Some(high) => Ok(high.floor()?.min(FAR)),
            None => Ok(FAR),
        }
    }
}

impl Tableau {
    /// Moves variables within the room that all bounds leave, if their numbers are those of others too.
    pub fn spread(&mut self) -> Result<(), Stop> {
        let mut counts = self.counts()?;
        for variable in 0..self.variables.len() {
            if self.row_of(variable).is_none() && !self.is_fixed(variable) {
                self.spend_rows()?;
                if self.is_crowded(variable, &counts) {
                    self.move_apart(variable, &mut counts)?;
                }
            }
        }
        Ok(())
    }

    /// Whether the bounds of a variable allow one number alone: then there is no room for it.
    fn is_fixed(&self, variable: usize) -> bool {
        match (
            self.bound(variable, Side::Lower),
            self.bound(variable, Side::Upper),
        ) {
            (Some(lower), Some(upper)) => lower.value == upper.value,
            _ => false,
        }
    }

    /// How many atoms have each number.
    fn counts(&self) -> Result<IndexMap<Rational, u64>, Stop> {
        let mut counts = IndexMap::new(self.alloc);
        for (_, variable) in self.atoms.iter() {
            count_more(&mut counts, self.value(*variable))?;
        }
        Ok(counts)
    }

    /// Whether a variable stands for an atom, and not for a sum.
    fn is_atom(&self, variable: usize) -> bool {
        match self.variables.get(variable) {
            Some(variable) => variable.sum.is_none(),
            None => false,
        }
    }

    /// Whether another atom has the number of this one.
    fn is_shared(&self, variable: usize, counts: &IndexMap<Rational, u64>) -> bool {
        self.is_atom(variable) && counts.get(&self.value(variable)).copied().unwrap_or(0) > 1
    }

    /// Whether the number of a variable, or one that goes by it, is that of another atom.
    fn is_crowded(&self, variable: usize, counts: &IndexMap<Rational, u64>) -> bool {
        if self.is_shared(variable, counts) {
            return true;
        }
        for row in &self.rows {
            if !row.number_of(variable).is_zero() && self.is_shared(row.basic, counts) {
                return true;
            }
        }
        false
    }

    /// How far a bound of another variable, which changes by `number` times this one, lets this one be moved.
    fn narrowed(
        &self,
        room: Room,
        variable: usize,
        number: Rational,
        side: Side,
        bound: Option<Bound>,
    ) -> Result<Room, Stop> {
        let Some(bound) = bound else {
            return Ok(room);
        };
        let distance = bound.value.minus(self.value(variable))?.over(number)?;
        let side = if number.is_positive() {
            side
        } else {
            side.other()
        };
        room.narrow(side, distance)
    }

    /// How far both bounds of a variable, which changes by `number` times another one, let that one be moved.
    fn narrowed_by(&self, room: Room, variable: usize, number: Rational) -> Result<Room, Stop> {
        let lower = self.bound(variable, Side::Lower);
        let room = self.narrowed(room, variable, number, Side::Lower, lower)?;
        let upper = self.bound(variable, Side::Upper);
        self.narrowed(room, variable, number, Side::Upper, upper)
    }

    /// How far both bounds of a row's basic variable let a variable of the row be moved.
    fn narrowed_by_row(&self, room: Room, row: &Row, variable: usize) -> Result<Room, Stop> {
        let number = row.number_of(variable);
        if number.is_zero() {
            return Ok(room);
        }
        self.narrowed_by(room, row.basic, number)
    }

    /// How far a variable can be moved, with those that go by it.
    pub(super) fn room(&self, variable: usize) -> Result<Room, Stop> {
        let free = Room {
            low: None,
            high: None,
        };
        let mut room = self.narrowed_by(free, variable, Rational::whole(1))?;
        for row in &self.rows {
            room = self.narrowed_by_row(room, row, variable)?;
        }
        Ok(room)
    }

    /// A number of 23 bits, another one each time, by a linear congruence: the same numbers on every machine.
    fn next_choice(&mut self) -> i128 {
        self.seed = self.seed.wrapping_mul(1103515245).wrapping_add(12345) % 2147483648;
        i128::from(self.seed / 256)
    }

    /// Moves a variable by a whole number, if there is room.
    fn move_apart(
        &mut self,
        variable: usize,
        counts: &mut IndexMap<Rational, u64>,
    ) -> Result<(), Stop> {
        let looks = self.look().saturating_mul(LOOKS);
        self.spend(looks)?;
        let room = self.room(variable)?;
        let low = room.low()?;
        let high = room.high()?;
        if low > 0 || high < 0 || low >= high {
            return Ok(());
        }
        let width = high.saturating_sub(low).saturating_add(1);
        let choice = self.next_choice().checked_rem_euclid(width).unwrap_or(0);
        let change = low.saturating_add(choice);
        if change == 0 {
            return Ok(());
        }
        let value = self.value(variable).plus(Rational::whole(change))?;
        self.count_all(variable, counts, false)?;
        self.shift(variable, value)?;
        self.count_all(variable, counts, true)
    }

    /// Counts the atoms that go by a variable, or takes them out of the counts.
    fn count_all(
        &self,
        variable: usize,
        counts: &mut IndexMap<Rational, u64>,
        are_there: bool,
    ) -> Result<(), Stop> {
        self.count_one(variable, counts, are_there)?;
        for row in &self.rows {
            if !row.number_of(variable).is_zero() {
                self.count_one(row.basic, counts, are_there)?;
            }
        }
        Ok(())
    }

    /// Counts an atom by its number, or takes it out of the counts.
    fn count_one(
        &self,
        variable: usize,
        counts: &mut IndexMap<Rational, u64>,
        is_there: bool,
    ) -> Result<(), Stop> {
        if !self.is_atom(variable) {
            return Ok(());
        }
        if is_there {
            count_more(counts, self.value(variable))
        } else {
            count_fewer(counts, self.value(variable))
        }
    }
}

/// Counts one more of a number.
fn count_more(counts: &mut IndexMap<Rational, u64>, value: Rational) -> Result<(), Stop> {
    let count = counts.get(&value).copied().unwrap_or(0);
    counts.insert(value, count.saturating_add(1))?;
    Ok(())
}

/// Counts one fewer of a number.
fn count_fewer(counts: &mut IndexMap<Rational, u64>, value: Rational) -> Result<(), Stop> {
    let count = counts.get(&value).copied().unwrap_or(0);
    counts.insert(value, count.saturating_sub(1))?;
    Ok(())
}
