// How many points there are along each way.
use crate::names::check_name;
use crate::ways::name_in;
use plan_entries::{Entry, Faults, Kind, Part};
use toml::{Table, Value};

// How many points a way, and a route with ways, may have.
const MOST_POINTS: usize = 128;

/// The ways of a plan, with how many points there are along each, as far as that is known.
#[derive(Drop)]
pub(crate) struct Ways<'t> {
    names: Vec<&'t str>,
    lists: Vec<&'t [Value]>,
    lengths: Vec<Option<usize>>,
}

impl<'t> Ways<'t> {
    /// The ways of a table, if there is one.
    pub fn new(faults: &mut Faults, table: Option<&'t Table>) -> Ways<'t> {
        let alloc = faults.alloc();
        let mut ways = Ways {
            names: Vec::new(alloc),
            lists: Vec::new(alloc),
            lengths: Vec::new(alloc),
        };
        if let Some(table) = table {
            ways.add_all(faults, table);
            ways.measure_all();
        }
        ways
    }

    // Adds a way.
    fn add(&mut self, faults: &mut Faults, name: &'t str, list: &'t [Value]) {
        if self.names.push(name).is_err()
            || self.lists.push(list).is_err()
            || self.lengths.push(None).is_err()
        {
            faults.lose();
        }
    }

    // Adds the ways of a table.
    fn add_all(&mut self, faults: &mut Faults, table: &'t Table) {
        for (name, value) in table {
            if let Some(list) = value.as_array() {
                self.add(faults, name.as_str(), list.as_slice());
            }
        }
    }

    // How many points an item stands for, if that is known.
    fn points_of(&self, item: &Value) -> Option<usize> {
        let Some(name) = name_in(item) else {
            return Some(1);
        };
        for (index, known) in self.names.iter().enumerate() {
            if *known == name {
                return self.lengths.get(index).copied().unwrap_or(None);
            }
        }
        Some(1)
    }

    // How many points items stand for, if that is known.
    fn points_along(&self, items: &[Value]) -> Option<usize> {
        let mut all = 0usize;
        for item in items {
            all = all.saturating_add(self.points_of(item)?);
        }
        Some(all)
    }

    // Measures each way whose own ways are measured.
    fn measure(&mut self) {
        for index in 0..self.lists.len() {
            let length = self.points_along(self.list(index));
            if let Some(slot) = self.lengths.get_mut(index) {
                *slot = length;
            }
        }
    }

    // Measures the ways as often as there are some, so that all are measured that don't come to themselves.
    fn measure_all(&mut self) {
        for _ in 0..self.lists.len() {
            self.measure();
        }
    }

    /// Tells each way among items that isn't known, and that they are too many points.
    pub fn check_items<'x>(&self, faults: &mut Faults, at: &Entry<'x>, items: &'x [Value]) {
        for item in items {
            if let Some(name) = name_in(item) {
                check_name(faults, &at.of(name), "way", name, &self.names);
            }
        }
        if let Some(points) = self.points_along(items)
            && MOST_POINTS < points
        {
            let parts = [Part::Count(points), Part::Count(MOST_POINTS)];
            faults.tell(at, "these are {} points; {} are the most", &parts);
        }
    }

    // The name of a way, and its points.
    fn name(&self, index: usize) -> &str {
        match self.names.get(index) {
            Some(name) => name,
            None => "",
        }
    }

    fn list(&self, index: usize) -> &'t [Value] {
        match self.lists.get(index) {
            Some(list) => list,
            None => &[],
        }
    }

    /// Tells what is wrong with each way: ways in it that aren't known, and that it comes to itself.
    pub fn check(&self, faults: &mut Faults) {
        for index in 0..self.lists.len() {
            let name = self.name(index);
            let list = self.list(index);
            let part = Entry::part(Kind::Ways, None);
            let at = part.at(name);
            self.check_items(faults, &at, list);
            if self.points_along(list).is_none() {
                faults.tell(&at, "way {} has itself within it", &[Part::Name(name)]);
            }
        }
    }

    /// How many there are.
    pub fn count(&self) -> usize {
        self.lists.len()
    }
}
