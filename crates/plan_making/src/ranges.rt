// Numbers that are to be in a range.
use plan_entries::{Entry, Faults, Part};

/// From where to where the numbers of a kind go, and the message about one that doesn't lie there.
#[derive(Clone, Copy)]
pub(crate) struct Range {
    pub least: u32,
    pub most: u32,
    pub form: &'static str,
}

impl Range {
    /// A number, if it lies in the range.
    pub fn number(self, number: i64) -> Option<u32> {
        match u32::try_from(number) {
            Ok(number) if self.least <= number && number <= self.most => Some(number),
            _ => None,
        }
    }

    /// Tells a number that doesn't lie in the range: that at a key, or at a name below it.
    pub fn check<'x>(
        self,
        faults: &mut Faults,
        entry: &Entry<'x>,
        key: &'static str,
        name: &'x str,
        number: i64,
    ) {
        if self.number(number).is_none() {
            let at = entry.at(key).of(name);
            faults.tell(&at, self.form, &[Part::Number(number)]);
        }
    }

    /// The number at a key of an entry, if it lies in the range, else another; one that doesn't lie there is reported.
    pub fn number_or(
        self,
        faults: &mut Faults,
        entry: &Entry,
        key: &'static str,
        otherwise: u32,
    ) -> u32 {
        match entry.number(key) {
            Some(number) => {
                self.check(faults, entry, key, "", number);
                self.number(number).unwrap_or(otherwise)
            }
            None => otherwise,
        }
    }
}
