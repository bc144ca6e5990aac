// Lists of steps.
ghost use Rattle.std.specs.Prelude.{◌≡◌};
ghost use Rattle.zone_machine.specs.Calls.{Weaves};
ghost use Rattle.zone_machine.specs.Sound.{Sound};
ghost use Rattle.zone_machine.specs.Weave.{weave_of};

use crate::{Core, NotAllowed, Step};
use rail_model::HasTable;

impl<'a, A: HasTable> Core<'a, A> {
    /// Makes the steps up to the first that isn't allowed.
    ///
    /// # Errors
    ///
    /// The place of that step in the list, and why it isn't allowed.
    pub fn weave(&mut self, steps: &[(u32, Step)]) -> Result<(), (u64, NotAllowed)>
        ensures weaves { Weaves (weave_of self.old.setup steps.now self.old.world) result self.new.world }
        ensures setup { self.new.setup ≡ self.old.setup }
        ensures sound { Sound self.new.setup self.new.world }
    {
        // What holds of the core is known from here on.
        let _ = &self.layout;
        for place in 0..steps.len() {
            let (actor, step) = steps[place];
            if let Err(cause) = self.step(actor, step) {
                return Err((place as u64, cause));
            }
        }
        Ok(())
    }
}
