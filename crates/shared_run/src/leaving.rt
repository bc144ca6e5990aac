// Groups leave.
ghost use Rattle.std.specs.Prelude.{◌≡◌, All};
ghost use Rattle.shared_run.specs.Rounds.{AllOurs};
ghost use Rattle.shared_run.specs.Groups.{IsOurGroup};
ghost use Rattle.shared_run.specs.Boarding.{passes_of, passes_in};
ghost use Rattle.shared_run.specs.Leaving.{HaveLeft};

use crate::groups::Group;
use zone_yard::{Driver, Root, Yard};

// All drivers leave, in order.
fn leave_drivers(yard: &Yard<'_>, drivers: Vec<Driver>, root: &mut Root)
    requires root { root.old.yard ≡ yard.now }
    requires drivers { AllOurs yard.now drivers.items }
    ensures { HaveLeft root.old drivers.items root.new }
{
    for driver in drivers {
        yard.leave(driver, root);
    }
}

// The passes of a group leave.
fn leave_group(yard: &Yard<'_>, group: Group, root: &mut Root)
    requires root { root.old.yard ≡ yard.now }
    requires group { IsOurGroup yard.now group }
    ensures { HaveLeft root.old (passes_of group) root.new }
{
    match group {
        Group::Drivers(drivers) => leave_drivers(yard, drivers, root),
        Group::Control(control) => yard.leave_control(control, root),
    }
}

/// All groups leave, in order.
pub(crate) fn leave_all(yard: &Yard<'_>, groups: Vec<Group>, root: &mut Root)
    requires root { root.old.yard ≡ yard.now }
    requires groups { All (IsOurGroup yard.now) groups.items }
    ensures { HaveLeft root.old (passes_in groups.items) root.new }
{
    for group in groups {
        leave_group(yard, group, root);
    }
}
